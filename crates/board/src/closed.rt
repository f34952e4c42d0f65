// The closed board, which shows no line.
ghost use Rattle.std.specs.Prelude.{[]};
ghost use Rattle.std.proofs.Common.{rules};

use crate::Board;
use market::types::{Quotation, Refusal, Side};

#[derive(Clone, Copy)]
pub struct ClosedBoard;

impl Board for ClosedBoard {
    ghost bids = { λ _. [] };

    ghost offers = { λ _. [] };

    ghost ranked = { Prim.search rules };

    ghost legal = { Prim.search rules };

    ghost venues = { Prim.search rules };

    ghost few = { Prim.search rules };

    fn line(&self, _side: Side, _place: usize) -> Option<Quotation> {
        None
    }

    fn take(&mut self, _side: Side, _venue: u32, _shares: u32) -> Result<(), Refusal> {
        Err(Refusal::NoSuchLine)
    }
}
