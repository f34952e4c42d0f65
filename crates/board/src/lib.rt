// A board of away quotations, known by its two lists alone.
#![tactic(auto)]

ghost use Rattle.std.specs.Prelude.{◌≡◌, ◌^◌, ◌<◌, true, List, length};
ghost use Rattle.std.specs.List.{slice_get};
ghost use Rattle.ranking.specs.Place.{in_rank, every};
ghost use Rattle.market.specs.declared.types.Quotation.{Quotation};
ghost use Rattle.market.specs.declared.types.Side.{Side};
ghost use Rattle.market.specs.Sides.{pick, quotation_before};
ghost use Rattle.market.specs.States.{quotes_of, quoted};
ghost use Rattle.market.specs.Quotes.{quotation_legal, one_a_venue, Taken};

use market::types::{Quotation, Refusal, Side};

pub mod closed;
pub mod lines;
pub mod looks;

// Whatever keeps quotations: a table of them, a layer over another board, or nothing at all.
pub trait Board {
    ghost bids: { Self → List Quotation };

    ghost offers: { Self → List Quotation };

    // The line at a place of a side, the first at 0, or none past the end.
    fn line(&self, side: Side, place: usize) -> Option<Quotation>
        ensures { result ≡ slice_get (quoted side (quotes_of (bids self.now) (offers self.now))) place };

    // Takes shares from a venue's line, which goes once it has none left.
    fn take(&mut self, side: Side, venue: u32, shares: u32) -> Result<(), Refusal>
        ensures { Taken side venue shares (quotes_of (bids self.old) (offers self.old)) (quotes_of (bids self.new) (offers self.new)) result };

    // The best price stands first, and of equal prices the lowest venue.
    ghost ranked: { (s : Self) (d : Side) → in_rank (quotation_before d) (pick d (bids s) (offers s)) ≡ true };

    ghost legal: { (s : Self) (d : Side) → every quotation_legal (pick d (bids s) (offers s)) ≡ true };

    ghost venues: { (s : Self) (d : Side) → one_a_venue (pick d (bids s) (offers s)) ≡ true };

    // So that a place counts past the last line.
    ghost few: { (s : Self) (d : Side) → length (pick d (bids s) (offers s)) < 2 ^ 64 };
}
