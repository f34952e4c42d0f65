// What is done with a table board.
ghost use Rattle.std.specs.Prelude.{◌≡◌, IfOk};
ghost use Rattle.market.specs.States.{no_quotes};
ghost use Rattle.market.specs.Calls.{verdict};
ghost use Rattle.table_board.specs.Quoting.{quotation_refusal, lists_of, Quoted};
ghost use Rattle.std.proofs.Common.{rules};

use super::TableBoard;
use crate::lists::{requote, take_from};
use board::Board;
use market::legal::{is_legal_price, is_legal_venue};
use market::sides::Sides;
use market::types::{Quotation, Refusal, Side};
use ranking::limit::AtMost;
use ranking::list::RankedList;
use std::alloc::{AllocError, Global};

// Whether a quote is accepted, or why not: a size of 0 drops the venue's line, whatever its price.
pub fn check_quote(q: Quotation) -> Result<(), Refusal>
    ensures { result ≡ verdict (quotation_refusal q) }
{
    Refusal::Size.unless(q.size <= 999_999)?;
    Refusal::Price.unless(q.size == 0 || is_legal_price(q.price))?;
    Refusal::Venue.unless(is_legal_venue(q.venue))
}

impl Board for TableBoard {
    ghost bids = { λ s. (lists_of s).bids };

    ghost offers = { λ s. (lists_of s).offers };

    ghost ranked = { Prim.search rules };

    ghost legal = { Prim.search rules };

    ghost venues = { Prim.search rules };

    ghost few = { Prim.search rules };

    fn line(&self, side: Side, place: usize) -> Option<Quotation> {
        self.lists.on(side).line(place)
    }

    fn take(&mut self, side: Side, venue: u32, shares: u32) -> Result<(), Refusal> {
        take_from(self.lists.on_mut(side), venue, shares)
    }
}

impl TableBoard {
    // A board with no line yet, or a failure for want of memory. No later call allocates.
    pub fn make(heap: Global) -> Result<TableBoard, AllocError>
        ensures { IfOk result (λ b. lists_of b ≡ no_quotes) }
    {
        let buy = RankedList::make(heap, AtMost)?;
        let sell = RankedList::make(heap, AtMost)?;
        Ok(TableBoard {
            lists: Sides { buy, sell },
        })
    }

    // Sets a venue's line on a side, or drops it where the size is 0.
    pub fn quote(&mut self, side: Side, q: Quotation) -> Result<(), Refusal>
        ensures { Quoted side q (lists_of self.old) (lists_of self.new) result }
    {
        check_quote(q)?;
        requote(self.lists.on_mut(side), side, q);
        Ok(())
    }
}
