// The marks of declared venues, one bit for each of the 64.
ghost use Rattle.std.specs.Prelude.{◌≡◌, count_ones};
ghost use Rattle.layers.specs.Shows.{marked, unmarked, BitOf, Marked, Unmarked};
ghost use Rattle.std.proofs.Common.{rules};

use crate::screens::Screen;
use market::legal::is_legal_venue;
use market::types::{Quotation, Refusal};
use std::marker::Model;

// The mark of venue v is bit v - 1.
#[derive(Clone, Copy)]
pub struct Marks {
    word: u64,
}

impl Model for Marks {
    ghost use Rattle.std.specs.Prelude.{ℕ};

    ghost Value = { ℕ };

    ghost view = { λ s. s.word };

    ghost inverse = { λ w. record { word = w } };
}

// The word with this venue's mark alone.
fn bit(venue: u32) -> Result<u64, Refusal>
    ensures { BitOf venue result }
{
    Refusal::Venue.unless(is_legal_venue(venue))?;
    Ok(1 << (venue - 1))
}

impl Marks {
    pub(crate) fn none() -> Marks
        ensures { result ≡ 0 }
    {
        Marks { word: 0 }
    }

    // Whether a venue is marked.
    pub(crate) fn has(&self, venue: u32) -> bool
        ensures { result ≡ marked self.now venue }
    {
        bit(venue).is_ok_and(|bit| self.word & bit != 0)
    }

    pub(crate) fn set(&mut self, venue: u32) -> Result<(), Refusal>
        ensures { Marked venue self.old self.new result }
    {
        self.word |= bit(venue)?;
        Ok(())
    }

    pub(crate) fn clear(&mut self, venue: u32) -> Result<(), Refusal>
        ensures { Unmarked venue self.old self.new result }
    {
        self.word &= !bit(venue)?;
        Ok(())
    }

    // How many venues are marked.
    pub(crate) fn count(&self) -> u32
        ensures { result ≡ count_ones self.now }
    {
        self.word.count_ones()
    }
}

impl Screen for Marks {
    ghost passes = { unmarked };

    ghost sizeless = { Prim.search rules };

    fn lets_through(&self, q: Quotation) -> bool {
        !self.has(q.venue)
    }
}
