// The reader of order files: it moves along the file line by line, and stops at the first fault.
ghost use Rattle.std.specs.Prelude.{◌≡◌, ℕ, ◌+◌, ◌<◌, ◌≤◌, ◌∷◌, ◌++◌, length, Err, Decides, MatchResult, ◌≢◌};
ghost use Rattle.order_file.specs.Faults.{too_long, no_names};
ghost use Rattle.order_file.specs.Files.{names, most_bytes, Begins, Moves, stopped, FileAccepted, FileFaults, OneFileEach};
ghost use Rattle.order_file.specs.declared.reader.Condition.TheVariants.{BeforeNames as before_names, AmongValues as among_values, Stopped as at_rest};

use crate::faults::{Fault, ReadError};
use crate::instructions::{Instruction, NAMES};
use crate::lines::{read_line, split_once};
use std::alloc::Global;

// The bytes that a file may have.
pub const MOST_BYTES: usize = 32_768;

// The spaces between nine fields, and the line's end.
const SHORTEST_LINE: usize = 9;

// Where the reader stands.
#[derive(Clone, Copy)]
enum Condition {
    BeforeNames,
    AmongValues,
    Stopped,
}

// What the rest of a file begins with.
#[derive(Clone, Copy)]
enum Line<'a> {
    // A line without its end, and what follows.
    Ended(&'a [u8], &'a [u8]),
    // Bytes with no line end.
    Unended,
    // Nothing.
    Absent,
}

#[derive(Drop)]
struct Reader<'a> {
    // What is not read yet, and the number of its first line.
    rest: &'a [u8],
    line: u32,
    condition: Condition,
    ghost fits: { line + length rest.now ≤ 32769 },
}

fn next_line(bytes: &[u8]) -> Line<'_>
    ensures { Begins bytes.now result }
{
    match split_once(bytes, b'\n') {
        Some((line, rest)) => Line::Ended(line, rest),
        None if bytes.is_empty() => Line::Absent,
        None => Line::Unended,
    }
}

fn check_length(file: &[u8]) -> Result<(), Fault>
    ensures { MatchResult result (λ _. length file.now ≤ most_bytes) (λ f. (most_bytes < length file.now) × (f ≡ too_long)) }
{
    if file.len() > MOST_BYTES {
        Err(Fault::of_length())
    } else {
        Ok(())
    }
}

#[tactic(auto, unfolding(crate::specs::Files::names))]
fn check_names(line: &[u8]) -> Result<(), Fault>
    ensures { MatchResult result (λ _. line.now ≡ names) (λ f. (line.now ≢ names) × (f ≡ no_names)) }
{
    if line == NAMES.as_bytes() {
        Ok(())
    } else {
        Err(Fault::of_names())
    }
}

impl<'a> Reader<'a> {
    fn new(file: &'a [u8]) -> Reader<'a>
        requires { length file.now ≤ most_bytes }
        ensures { (result.rest.now ≡ file.now) × (result.line ≡ 1) × (result.condition ≡ before_names) }
    {
        Reader {
            rest: file,
            line: 1,
            condition: Condition::BeforeNames,
        }
    }

    fn is_stopped(&self) -> bool
        ensures { result ≡ stopped self.now.condition }
    {
        matches!(self.condition, Condition::Stopped)
    }

    // Goes past a good line, to what follows it.
    fn pass(&mut self, rest: &'a [u8])
        requires { length rest.now < length self.old.rest.now }
        ensures rest { self.new.rest.now ≡ rest.now }
        ensures line { self.new.line ≡ self.old.line + 1 }
        ensures condition { self.new.condition ≡ among_values }
    {
        self.rest = rest;
        self.line += 1;
        self.condition = Condition::AmongValues;
    }

    fn stop(&mut self, fault: Fault) -> Result<Option<Instruction>, Fault>
        ensures told { result ≡ Err fault }
        ensures condition { self.new.condition ≡ at_rest }
    {
        self.condition = Condition::Stopped;
        Err(fault)
    }

    // Reads one line and moves on. A fault leaves the reader stopped.
    #[tactic(auto, unfolding(crate::specs::Files::Moves))]
    fn step(&mut self) -> Result<Option<Instruction>, Fault>
        ensures { Moves self.old.condition self.old.rest.now self.old.line result self.new.condition self.new.rest.now self.new.line }
    {
        let line = self.line;
        let kind = next_line(self.rest);
        match (self.condition, kind) {
            (Condition::BeforeNames, Line::Ended(text, rest)) => {
                self.condition = Condition::Stopped;
                check_names(text)?;
                self.pass(rest);
                Ok(None)
            }
            (Condition::BeforeNames, Line::Unended | Line::Absent) => self.stop(Fault::of_names()),
            (Condition::AmongValues, Line::Ended(text, rest)) => {
                self.condition = Condition::Stopped;
                let instruction = read_line(text, line)?;
                self.pass(rest);
                Ok(Some(instruction))
            }
            (Condition::AmongValues, Line::Unended) => self.stop(Fault::of_line(line)),
            (Condition::AmongValues, Line::Absent) => {
                self.condition = Condition::Stopped;
                Ok(None)
            }
            (Condition::Stopped, _) => Ok(None),
        }
    }
}

// The instructions of an order file, or its first fault. All memory is taken at once, a place for each line that the file can have.
#[tactic(auto, using(crate::proofs::Same::one_file_each), unfolding(crate::specs::Files::Moves, crate::proofs::Progress::Progress))]
pub fn read(file: &[u8], heap: Global) -> Result<Vec<Instruction>, ReadError>
    ensures accepted { FileAccepted file.now result }
    ensures fault { FileFaults file.now result }
    ensures unambiguous { OneFileEach }
{
    check_length(file)?;
    let mut instructions = Vec::with_capacity(heap, file.len() / SHORTEST_LINE)?;
    let mut reader = Reader::new(file);
    // The names line is a step that gives no instruction and is not the last, so the reader is no iterator.
    while !reader.is_stopped() {
        if let Some(instruction) = reader.step()? {
            instructions.push_reserved(instruction);
        }
    }
    Ok(instructions)
}
