// A layer over a board: a board again, which shows the lines below that a screen lets through.
ghost use Rattle.std.specs.Prelude.{◌≡◌};
ghost use Rattle.ranking.specs.Place.{those};
ghost use Rattle.board.proofs.Those.{ranked_shown, legal_shown, venues_shown, few_shown};

use crate::screens::{Screen, screened_line, screened_take};
use board::Board;
use market::types::{Quotation, Refusal, Side};

#[derive(Drop)]
pub struct Layer<B, S> {
    pub below: B,
    pub(crate) screen: S,
}

impl<B: Board, S: Screen> Board for Layer<B, S> {
    ghost bids = { λ s. those (S.passes s.screen) (B.bids s.below) };

    ghost offers = { λ s. those (S.passes s.screen) (B.offers s.below) };

    ghost ranked = { λ s d. ranked_shown (S.passes s.screen) d _ _ (B.ranked s.below d) };

    ghost legal = { λ s d. legal_shown (S.passes s.screen) d _ _ (B.legal s.below d) };

    ghost venues = { λ s d. venues_shown (S.passes s.screen) d _ _ (B.venues s.below d) };

    ghost few = { λ s d. few_shown (S.passes s.screen) d _ _ (B.few s.below d) };

    fn line(&self, side: Side, place: usize) -> Option<Quotation> {
        screened_line(&self.below, &self.screen, side, place)
    }

    fn take(&mut self, side: Side, venue: u32, shares: u32) -> Result<(), Refusal> {
        screened_take(&mut self.below, &self.screen, side, venue, shares)
    }
}

impl<B, S: Drop> Layer<B, S> {
    // The board below again, and no layer.
    pub fn into_below(self) -> B
        ensures { result ≡ self.below }
    {
        self.below
    }
}
