// What comes back from the venues that shares were sent to.
ghost use Rattle.std.specs.Prelude.{◌≡◌, true, IfOk, IfSome};
ghost use Rattle.market.specs.declared.types.Call.TheVariants.{Reply};
ghost use Rattle.market.specs.States.{Quotes};
ghost use Rattle.market.specs.Calls.{ready, ended};
ghost use Rattle.market.specs.Sound.{able};
ghost use Rattle.book.specs.Outcomes.{book_state, seen, own_call, returning, replied_as, lapsed, late_as};

use super::Book;
use crate::passes::{Ended, Next, Ready, Refused};
use market::types::{Order, Reason, Refusal, Report};

impl Book {
    // A reply with a pass that bears this number: its report, and the shares that come back, if any.
    fn reply_by(
        &mut self,
        bears: u32,
        filled: u32,
        number: u32,
    ) -> Result<(Report, Option<Order>), Refusal>
        ensures ready { (q : Quotes) → seen self.new bears (returning result (book_state self.new) q) ≡ own_call self.old bears q (Reply filled number) ready }
        ensures ended { (q : Quotes) → late_as bears (lapsed result) self.new q ≡ own_call self.old bears q (Reply filled number) ended }
        ensures able { IfOk result (λ x. IfSome x.1 (λ o. able o ≡ true)) }
    {
        self.check_pass(bears)?;
        let place = self.orders.find_route(number).ok_or(Refusal::NotOut)?;
        let route = self.orders.route_at(place);
        Refusal::ReplyTooLarge.unless(filled <= route.out)?;
        self.orders.end_route(place);
        let left = (route.out != filled).then(|| route.come_back(filled));
        Ok((Report::replied(filled, route), left))
    }

    // Ends a route of which so many shares were filled. The others come back in hand.
    pub fn reply(
        &mut self,
        pass: Ready,
        filled: u32,
        number: u32,
    ) -> Result<(Next, Report), Refused<Ready>>
        ensures { (q : Quotes) → replied_as result self.new q ≡ own_call self.old pass.book q (Reply filled number) ready }
    {
        let book = pass.book;
        let (report, left) = pass.used_up(self.reply_by(book, filled, number))?;
        Ok((Next::with(book, left), report))
    }

    // The same after the close: what is not filled is taken off.
    pub fn late_reply(
        &mut self,
        pass: &Ended,
        filled: u32,
        number: u32,
    ) -> Result<(Report, Option<Report>), Refusal>
        ensures { (q : Quotes) → late_as pass.now.book result self.new q ≡ own_call self.old pass.now.book q (Reply filled number) ended }
    {
        let (report, left) = self.reply_by(pass.book, filled, number)?;
        Ok((report, left.map(|o| Report::off_hand(Reason::Expired, o))))
    }
}
