// The lines of a side of a board, the first first, seen as the list of those that are left.
ghost use Rattle.std.specs.Iterator.{YieldsFirst, item_count};

use crate::Board;
use market::types::{Quotation, Side};
use std::marker::Model;

#[derive(Drop)]
pub struct Lines<'a, B: Board> {
    pub(crate) board: &'a B,
    pub(crate) side: Side,
    pub(crate) place: usize,
}

impl<'a, B: Board> Model for Lines<'a, B> {
    ghost use Rattle.std.specs.Prelude.{List, drop};
    ghost use Rattle.market.specs.declared.types.Quotation.{Quotation};
    ghost use Rattle.market.specs.States.{quotes_of, quoted};

    ghost Value = { List Quotation };

    ghost view = { λ s. drop s.place (quoted s.side (quotes_of (B.bids s.board.now) (B.offers s.board.now))) };
}

impl<'a, B: Board> Iterator for Lines<'a, B> {
    type Item = Quotation;

    ghost next_gives = { YieldsFirst (λ rest. rest) };

    ghost remaining = { item_count (λ rest. rest) };

    fn next(&mut self) -> Option<Quotation> {
        let line = self.board.line(self.side, self.place)?;
        self.place += 1;
        Some(line)
    }
}
