// A whole day: the instructions followed over a new book and a table board, and the record written out.
ghost use Rattle.std.specs.Prelude.{◌≡◌, map, IfOk, string_bytes};
ghost use Rattle.replay.specs.Records.{told_of};
ghost use Rattle.replay.specs.Sessions.{Traded, Ran, lines_text, Printed};

use crate::desk::{Desk, Stage};
use crate::record::{Line, Record};
use book::book::Book;
use book::house::{House, NotMade};
use market::written::render_lines;
use order_file::faults::ReadError;
use order_file::instructions::Instruction;
use order_file::reader::read;
use std::alloc::{AllocError, Global};
use table_board::table::TableBoard;

// A day that has been run: the book, the pass between two instructions, and what was noted.
pub struct DayRun {
    pub book: Book,
    pub stage: Stage,
    pub log: Record,
}

// Follows the instructions over a new book, whose first order gets the number 1, and a table board with no line.
pub fn run(instructions: &[Instruction], heap: Global) -> Result<DayRun, AllocError>
    ensures { IfOk result (λ d. Ran instructions.now d) }
{
    let board = TableBoard::make(heap)?;
    let log = Record::new(heap);
    let mut house = House::open();
    let (book, pass) = match house.make_book(heap, 1) {
        Ok(made) => made,
        Err(NotMade::Memory(e)) => return Err(e),
        Err(NotMade::BookNumbersUsedUp) => unreachable!(),
    };
    let mut desk = Desk { book, board, log };
    let mut stage = Stage::Open(pass);
    for i in instructions {
        stage = desk.follow(stage, *i);
    }
    Ok(DayRun {
        book: desk.book,
        stage,
        log: desk.log,
    })
}

// Runs the day and gives its record; the book is let go.
pub fn trade(instructions: &[Instruction], heap: Global) -> Result<Vec<Line>, AllocError>
    ensures { IfOk result (λ v. Traded instructions.now v.items) }
{
    let DayRun { book, stage, log } = run(instructions, heap)?;
    release(book, stage);
    log.finish()
}

// Lets a book go with its pass, which is not dropped: a pass ends only where its book does.
pub fn release(book: Book, stage: Stage) {
    match stage {
        Stage::Open(pass) => book.abandon(pass),
        Stage::Over(pass) => book.retire(pass),
    }
}

// The record as text: the names line, then a line for each report and refusal.
pub fn render(lines: &[Line], heap: Global) -> Result<String, AllocError>
    ensures { IfOk result (λ s. string_bytes s ≡ lines_text (map told_of lines.now)) }
{
    let names = "report number user side price shares held other";
    render_lines(names, lines, heap)
}

// A whole session: the bytes of an order file in, the text of its reports or of its first fault out.
pub fn replay(file: &[u8], heap: Global) -> Result<String, AllocError>
    ensures { IfOk result (λ s. Printed file.now (string_bytes s)) }
{
    match read(file, heap) {
        Ok(instructions) => render(&trade(&instructions, heap)?, heap),
        Err(ReadError::Bad(fault)) => format!(in heap; "{fault}\n"),
        Err(ReadError::Memory(e)) => Err(e),
    }
}
