// What can be wrong with an order file, and how that is written.
ghost use Rattle.std.specs.Prelude.{◌≡◌, Some, decimal};
ghost use Rattle.order_file.specs.Faults.{cause_code, layer_word, fault_text, bad_field, bad_line, no_names, too_long};
ghost use Rattle.order_file.specs.declared.faults.ReadError.TheVariants.{Memory, Bad};

use crate::fields::Place;
use std::alloc::AllocError;
use std::fmt;

// What is wrong, and the number that stands for it.
#[derive(Clone, Copy, PartialEq, Eq, Debug)]
pub enum Cause {
    // The names line is wrong or absent.
    NoNames = 41,
    // A line has not nine fields, or does not end.
    BadLine = 42,
    // A word that its field does not take.
    WrongWord = 43,
    // No number of 32 bits, or not as numbers are written.
    NotNumber = 44,
    // A blank in a field that is used, or anything else in one that is not.
    Misused = 45,
    // The file is too long.
    TooLong = 46,
}

// Which part of the reader found the fault.
#[derive(Clone, Copy, PartialEq, Eq, Debug)]
pub enum Layer {
    Field,
    Line,
    File,
}

// The first thing that is wrong. Lines and fields count from 1, and 0 says that there is none.
#[derive(Clone, Copy, PartialEq, Eq, Debug)]
pub struct Fault {
    pub cause: Cause,
    pub line: u32,
    pub field: u32,
    pub layer: Layer,
}

// Why a file was not read.
#[derive(Clone, Copy, PartialEq, Eq, Debug)]
pub enum ReadError {
    Memory(AllocError),
    Bad(Fault),
}

impl From<Cause> for u32 {
    ghost from_gives = { λ c n. n ≡ cause_code c };

    fn from(cause: Cause) -> u32 {
        cause as u32
    }
}

impl Fault {
    pub(crate) fn of_field(cause: Cause, place: Place) -> Fault
        ensures { result ≡ bad_field cause place }
    {
        Fault {
            cause,
            line: place.line,
            field: place.field,
            layer: Layer::Field,
        }
    }

    pub(crate) fn of_line(line: u32) -> Fault
        ensures { result ≡ bad_line line }
    {
        Fault {
            cause: Cause::BadLine,
            line,
            field: 0,
            layer: Layer::Line,
        }
    }

    pub(crate) fn of_names() -> Fault
        ensures { result ≡ no_names }
    {
        Fault {
            cause: Cause::NoNames,
            line: 1,
            field: 0,
            layer: Layer::File,
        }
    }

    pub(crate) fn of_length() -> Fault
        ensures { result ≡ too_long }
    {
        Fault {
            cause: Cause::TooLong,
            line: 0,
            field: 0,
            layer: Layer::File,
        }
    }
}

impl From<Fault> for ReadError {
    ghost from_gives = { λ f r. r ≡ Bad f };

    fn from(fault: Fault) -> ReadError {
        ReadError::Bad(fault)
    }
}

impl From<AllocError> for ReadError {
    ghost from_gives = { λ e r. r ≡ Memory e };

    fn from(error: AllocError) -> ReadError {
        ReadError::Memory(error)
    }
}

// A cause as its code.
impl fmt::Display for Cause {
    ghost output = { λ c. Some (decimal (cause_code c)) };

    fn fmt<W: fmt::Write>(&self, f: &mut fmt::Formatter<W>) -> fmt::Result {
        write!(f, "{}", u32::from(*self))
    }
}

impl fmt::Display for Layer {
    ghost output = { λ l. Some (layer_word l) };

    fn fmt<W: fmt::Write>(&self, f: &mut fmt::Formatter<W>) -> fmt::Result {
        match self {
            Layer::Field => write!(f, "field"),
            Layer::Line => write!(f, "line"),
            Layer::File => write!(f, "file"),
        }
    }
}

// A fault as the two lines that tell of it: the names, and the values without the last line end.
impl fmt::Display for Fault {
    ghost output = { λ f. Some (fault_text f) };

    fn fmt<W: fmt::Write>(&self, f: &mut fmt::Formatter<W>) -> fmt::Result {
        let Fault {
            cause,
            line,
            field,
            layer,
        } = *self;
        write!(f, "cause line field layer\n{cause} {line} {field} {layer}")
    }
}
