// The instructions of an order file.
use market::types::{Quotation, Side, Terms};

// The first line of an order file: the names of the fields.
pub(crate) const NAMES: &str = "call side price size show kind user number venue";

// One line of values: a call of the day, or a change of an away quotation.
#[derive(Clone, Copy, PartialEq, Eq, Debug)]
pub enum Instruction {
    Enter(Side, Terms),
    // New terms for the order of this number.
    Replace(Terms, u32),
    Cut { size: u32, user: u32, number: u32 },
    Cancel { user: u32, number: u32 },
    Reply { size: u32, number: u32 },
    Quote(Side, Quotation),
    Close,
    Expire,
}

// The word that a line of values begins with.
#[derive(Clone, Copy, PartialEq, Eq, Debug)]
pub enum Verb {
    Enter,
    Replace,
    Cut,
    Cancel,
    Reply,
    Quote,
    Close,
    Expire,
}
