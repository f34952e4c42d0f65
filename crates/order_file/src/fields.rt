// The fields of a line: what each shows, and whether it is what is wanted.
ghost use Rattle.std.specs.Prelude.{◌≡◌, ℕ, ◌<◌, List, slice_index};
ghost use Rattle.market.specs.Written.{side_word, kind_word};
ghost use Rattle.order_file.specs.Instructions.{verb_word};
ghost use Rattle.order_file.specs.Fields.{a_number, a_blank, Writes, Spells, Reads, Shows, Judged};
ghost use Rattle.order_file.specs.declared.faults.Cause.TheVariants.{WrongWord, NotNumber, Misused};
ghost use Rattle.std.proofs.Common.{rules};

use crate::faults::{Cause, Fault};
use crate::instructions::Verb;
use market::types::{Kind, Side};

// Where a field stands. Lines and fields count from 1.
#[derive(Clone, Copy, PartialEq, Eq, Debug)]
pub struct Place {
    pub line: u32,
    pub field: u32,
}

// A part of the file's bytes, with its place.
#[derive(Clone, Copy)]
pub struct Part<'a> {
    pub bytes: &'a [u8],
    pub place: Place,
}

// What a part shows. Each keeps its bytes and its place, so that a fault can tell of them.
#[derive(Clone, Copy)]
pub enum Field<'a> {
    Word(&'a [u8], Place),
    Number(&'a [u8], u32, Place),
    Blank(&'a [u8], Place),
}

// A type whose values are written as words.
pub trait Word: Sized {
    // The word of each value.
    ghost spelling: { Self → List ℕ };

    // The value whose word the bytes are.
    fn of_bytes(bytes: &[u8]) -> Option<Self>
        ensures { Reads (Spells spelling) bytes.now result };

    // Each word begins above the digits, which end with 57, so that it is neither a number nor a blank.
    ghost letter: { (x : Self) → 57 < slice_index (spelling x) 0 };
}

impl Word for Side {
    ghost spelling = { side_word };

    ghost letter = { Prim.search rules };

    fn of_bytes(bytes: &[u8]) -> Option<Side> {
        let [letter] = bytes else { return None };
        match *letter as char {
            'B' => Some(Side::Buy),
            'S' => Some(Side::Sell),
            _ => None,
        }
    }
}

impl Word for Kind {
    ghost spelling = { kind_word };

    ghost letter = { Prim.search rules };

    fn of_bytes(bytes: &[u8]) -> Option<Kind> {
        let [letter] = bytes else { return None };
        match *letter as char {
            'L' => Some(Kind::Limit),
            'B' => Some(Kind::BookOnly),
            'I' => Some(Kind::Immediate),
            'S' => Some(Kind::Sweep),
            _ => None,
        }
    }
}

impl Word for Verb {
    ghost spelling = { verb_word };

    ghost letter = { Prim.search rules };

    fn of_bytes(bytes: &[u8]) -> Option<Verb> {
        match bytes {
            b"enter" => Some(Verb::Enter),
            b"replace" => Some(Verb::Replace),
            b"cut" => Some(Verb::Cut),
            b"cancel" => Some(Verb::Cancel),
            b"reply" => Some(Verb::Reply),
            b"quote" => Some(Verb::Quote),
            b"close" => Some(Verb::Close),
            b"expire" => Some(Verb::Expire),
            _ => None,
        }
    }
}

// The number that the bytes write: digits alone, no zero before others, at most 32 bits.
fn number_of(bytes: &[u8]) -> Option<u32>
    ensures { Reads (Writes a_number) bytes.now result }
{
    if matches!(bytes, [] | [b'0', _, ..]) {
        return None;
    }
    let mut value: u32 = 0;
    for b in bytes {
        let digit = (*b as char).to_digit(10)?;
        value = value.checked_mul(10)?.checked_add(digit)?;
    }
    Some(value)
}

impl<'a> Part<'a> {
    // What the part shows: a blank, a number, or else a word.
    fn field(self) -> Field<'a>
        ensures { Shows self.entry result }
    {
        let Part { bytes, place } = self;
        if matches!(bytes, b"-") {
            return Field::Blank(bytes, place);
        }
        match number_of(bytes) {
            Some(n) => Field::Number(bytes, n, place),
            None => Field::Word(bytes, place),
        }
    }

    // The number that the field shows.
    pub fn number(self) -> Result<u32, Fault>
        ensures { Judged (Writes a_number) NotNumber self.entry result }
    {
        match self.field() {
            Field::Number(_, n, _) => Ok(n),
            Field::Word(_, place) => Err(Fault::of_field(Cause::NotNumber, place)),
            Field::Blank(_, place) => Err(Fault::of_field(Cause::Misused, place)),
        }
    }

    // The value whose word the field shows.
    pub fn word<W: Word>(self) -> Result<W, Fault>
        ensures { Judged (Spells W.spelling) WrongWord self.entry result }
    {
        match self.field() {
            Field::Word(bytes, place) => {
                W::of_bytes(bytes).ok_or(Fault::of_field(Cause::WrongWord, place))
            }
            Field::Number(_, _, place) => Err(Fault::of_field(Cause::WrongWord, place)),
            Field::Blank(_, place) => Err(Fault::of_field(Cause::Misused, place)),
        }
    }

    // That the field is left blank.
    pub fn blank(self) -> Result<(), Fault>
        ensures { Judged (Writes a_blank) Misused self.entry result }
    {
        match self.field() {
            Field::Blank(_, _) => Ok(()),
            Field::Word(_, place) | Field::Number(_, _, place) => {
                Err(Fault::of_field(Cause::Misused, place))
            }
        }
    }
}
