// What a user does to an order that rests: cut and cancel.
ghost use Rattle.std.specs.Prelude.{◌≡◌};
ghost use Rattle.market.specs.declared.types.Call.TheVariants.{Cut, Cancel};
ghost use Rattle.market.specs.States.{Quotes};
ghost use Rattle.market.specs.Calls.{ready};
ghost use Rattle.book.specs.Outcomes.{own_call, reported_as};

use super::Book;
use crate::passes::Ready;
use market::legal::{is_legal_size, is_legal_user};
use market::types::{Reason, Refusal, Report};

impl Book {
    // Takes a user's resting order off.
    pub fn cancel(&mut self, pass: &Ready, user: u32, number: u32) -> Result<Report, Refusal>
        ensures { (q : Quotes) → reported_as ready pass.now.book result self.new q ≡ own_call self.old pass.now.book q (Cancel user number) ready }
    {
        self.check_pass(pass.book)?;
        Refusal::User.unless(is_legal_user(user))?;
        let at = self.orders.find(user, number).ok_or(Refusal::NotResting)?;
        Ok(self.take_off(Reason::Cancelled, at))
    }

    // Takes shares off a user's resting order, which keeps its place: held shares first, then displayed ones.
    pub fn cut(
        &mut self,
        pass: &Ready,
        size: u32,
        user: u32,
        number: u32,
    ) -> Result<Report, Refusal>
        ensures { (q : Quotes) → reported_as ready pass.now.book result self.new q ≡ own_call self.old pass.now.book q (Cut size user number) ready }
    {
        self.check_pass(pass.book)?;
        Refusal::User.unless(is_legal_user(user))?;
        Refusal::Size.unless(is_legal_size(size))?;
        let at = self.orders.find(user, number).ok_or(Refusal::NotResting)?;
        let line = self.orders.line_at(at);
        Refusal::CutTooLarge.unless(size < line.shown + line.held)?;
        self.orders.trim(at, size);
        Ok(Report::taken_off(Reason::Cut, size, at.side, line))
    }
}
