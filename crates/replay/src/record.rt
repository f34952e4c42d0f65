// The record of a day: its reports and refusals, in the order in which they came.
ghost use Rattle.std.specs.Prelude.{[], ◌∷◌, map, Some, IfOk, IfErr};
ghost use Rattle.replay.specs.Records.{told_of, told_text, HasLines, HasEnded, Noted};

use market::types::{Refusal, Report};
use std::alloc::{AllocError, Global};
use std::fmt;

// One line of the record: a report, or why a call or a quote was refused.
#[derive(Clone, Copy, PartialEq, Eq, Debug)]
pub struct Line(pub Result<Report, Refusal>);

impl fmt::Display for Line {
    ghost output = { λ l. Some (told_text (told_of l)) };

    fn fmt<W: fmt::Write>(&self, f: &mut fmt::Formatter<W>) -> fmt::Result {
        match self.0 {
            Ok(report) => write!(f, "{report}"),
            Err(why) => write!(f, "{why}"),
        }
    }
}

// The lines so far, or the failure that ended them: trading goes on where memory for them is wanting.
#[derive(Drop)]
pub struct Record {
    pub(crate) lines: Result<Vec<Line>, AllocError>,
}

impl Record {
    pub fn new(heap: Global) -> Record
        ensures { HasLines result [] }
    {
        Record {
            lines: Ok(Vec::new(heap)),
        }
    }

    // Adds a line, unless the record has ended or ends here.
    pub fn note(&mut self, line: Line)
        ensures { Noted (told_of line ∷ []) self.old self.new }
    {
        if let Ok(lines) = &mut self.lines
            && let Err(refused) = lines.push(line)
        {
            self.lines = Err(refused.into());
        }
    }

    // The lines, if there was memory for them all.
    pub fn finish(self) -> Result<Vec<Line>, AllocError>
        ensures lines { IfOk result (λ v. HasLines self (map told_of v.items)) }
        ensures ended { IfErr result (λ e. HasEnded self) }
    {
        let Record { lines } = self;
        lines
    }
}
