// The end of trading: close and expire.
ghost use Rattle.std.specs.Prelude.{◌≡◌, Option};
ghost use Rattle.market.specs.declared.types.Call.TheVariants.{Close, Expire};
ghost use Rattle.market.specs.States.{Quotes};
ghost use Rattle.market.specs.Calls.{ready, ended};
ghost use Rattle.book.specs.Outcomes.{book_state, own_call, reported_as, closed_as};
ghost use Rattle.book.specs.Expiry.{oldest_side};

use super::Book;
use crate::passes::{Ended, Ready, Refused};
use market::types::{Reason, Refusal, Report, Side};
use resting::orders::looks::Standing;

impl Book {
    // Ends trading: Ready becomes Ended.
    pub fn close(&mut self, pass: Ready) -> Result<Ended, Refused<Ready>>
        ensures { (q : Quotes) → closed_as result self.new q ≡ own_call self.old pass.book q Close ready }
    {
        let book = pass.book;
        pass.used_up(self.check_pass(book))?;
        Ok(Ended { book })
    }

    // The side of which the first order expires next: buys before sells.
    fn expiring_side(&self) -> Option<Side>
        ensures { result ≡ oldest_side (book_state self.now) }
    {
        let one_of = |side| (self.orders.count_on(side) > 0).then_some(side);
        one_of(Side::Buy).or_else(|| one_of(Side::Sell))
    }

    // Takes the first buy off, or where there is none the first sell.
    pub fn expire(&mut self, pass: &Ended) -> Result<Report, Refusal>
        ensures { (q : Quotes) → reported_as ended pass.now.book result self.new q ≡ own_call self.old pass.now.book q Expire ended }
    {
        self.check_pass(pass.book)?;
        let side = self.expiring_side().ok_or(Refusal::NothingResting)?;
        Ok(self.take_off(Reason::Expired, Standing { side, place: 0 }))
    }

    // Lets a book go with its pass.
    pub fn retire(self, pass: Ended) {
        let Ended { book: _ } = pass;
    }

    // Lets a book go that was not closed.
    pub fn abandon(self, pass: Ready) {
        let Ready { book: _ } = pass;
    }
}
