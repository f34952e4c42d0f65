// The writer of order files: a line for each instruction.
ghost use Rattle.std.specs.Prelude.{◌≡◌, IfOk, Some, string_bytes};
ghost use Rattle.order_file.specs.Files.{text_of};
ghost use Rattle.order_file.specs.Instructions.{written};

use crate::instructions::{Instruction, NAMES};
use market::types::{Quotation, Terms};
use market::written::render_lines;
use std::alloc::{AllocError, Global};
use std::fmt;

// An instruction as its line, without the line's end.
impl fmt::Display for Instruction {
    ghost output = { λ c. Some (written c) };

    fn fmt<W: fmt::Write>(&self, f: &mut fmt::Formatter<W>) -> fmt::Result {
        match *self {
            Instruction::Enter(
                side,
                Terms {
                    price,
                    size,
                    show,
                    kind,
                    user,
                },
            ) => write!(f, "enter {side} {price} {size} {show} {kind} {user} - -"),
            Instruction::Replace(
                Terms {
                    price,
                    size,
                    show,
                    kind,
                    user,
                },
                number,
            ) => write!(
                f,
                "replace - {price} {size} {show} {kind} {user} {number} -"
            ),
            Instruction::Cut { size, user, number } => write!(
                f,
                "cut - - {size} - - {user} {number} -"
            ),
            Instruction::Cancel { user, number } => write!(f, "cancel - - - - - {user} {number} -"),
            Instruction::Reply { size, number } => write!(f, "reply - - {size} - - - {number} -"),
            Instruction::Quote(side, Quotation { venue, price, size }) => {
                write!(f, "quote {side} {price} {size} - - - - {venue}")
            }
            Instruction::Close => write!(f, "close - - - - - - - -"),
            Instruction::Expire => write!(f, "expire - - - - - - - -"),
        }
    }
}

// The file that writes the instructions.
pub fn render(instructions: &[Instruction], heap: Global) -> Result<String, AllocError>
    ensures { IfOk result (λ s. string_bytes s ≡ text_of instructions.now) }
{
    render_lines(NAMES, instructions, heap)
}
