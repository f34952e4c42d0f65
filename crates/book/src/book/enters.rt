// Making a book, and taking an order in hand: enter and replace.
ghost use Rattle.std.specs.Prelude.{◌≡◌, IfOk};
ghost use Rattle.market.specs.declared.types.Call.TheVariants.{Enter, Replace};
ghost use Rattle.market.specs.States.{Quotes, new_state};
ghost use Rattle.market.specs.Calls.{ready};
ghost use Rattle.book.specs.Outcomes.{book_state, own_call, or_back, entered_as, replaced_as};

use super::Book;
use crate::checks::check_terms;
use crate::passes::{InHand, Ready, Refused};
use market::types::{Reason, Refusal, Report, Side, Terms};
use resting::orders::OpenOrders;
use std::alloc::{AllocError, Global};

impl Book {
    pub(crate) fn make(heap: Global, id: u32, first: u32) -> Result<(Book, Ready), AllocError>
        ensures { IfOk result (λ x. (x.0.id ≡ id) × (x.1.book ≡ id) × (book_state x.0 ≡ new_state first)) }
    {
        let orders = OpenOrders::make(heap, first)?;
        Ok((Book { id, orders }, Ready { book: id }))
    }

    // An entry, whose pass is used up only where it is not refused.
    fn enter_by(&mut self, pass: &Ready, side: Side, t: Terms) -> Result<(InHand, Report), Refusal>
        ensures { (q : Quotes) → entered_as (or_back pass.now result) self.new q ≡ own_call self.old pass.now.book q (Enter side t) ready }
    {
        self.check_pass(pass.book)?;
        check_terms(t)?;
        self.check_numbers()?;
        let (order, report) = self.admit(side, t);
        let book = pass.book;
        Ok((InHand { book, order }, report))
    }

    // Takes an order in hand under the next number.
    pub fn enter(
        &mut self,
        pass: Ready,
        side: Side,
        t: Terms,
    ) -> Result<(InHand, Report), Refused<Ready>>
        ensures { (q : Quotes) → entered_as result self.new q ≡ own_call self.old pass.book q (Enter side t) ready }
    {
        let done = self.enter_by(&pass, side, t);
        pass.used_up(done)
    }

    // A replacement, whose pass is used up only where it is not refused.
    fn replace_by(
        &mut self,
        pass: &Ready,
        t: Terms,
        number: u32,
    ) -> Result<(InHand, Report, Report), Refusal>
        ensures { (q : Quotes) → replaced_as (or_back pass.now result) self.new q ≡ own_call self.old pass.now.book q (Replace t number) ready }
    {
        self.check_pass(pass.book)?;
        check_terms(t)?;
        let at = self.orders.find(t.user, number).ok_or(Refusal::NotResting)?;
        self.check_numbers()?;
        let off = self.take_off(Reason::Replaced, at);
        let (order, entered) = self.admit(at.side, t);
        let book = pass.book;
        Ok((InHand { book, order }, off, entered))
    }

    // Removes a user's resting order and takes new terms in hand on its side, both or neither: off, then in.
    pub fn replace(
        &mut self,
        pass: Ready,
        t: Terms,
        number: u32,
    ) -> Result<(InHand, Report, Report), Refused<Ready>>
        ensures { (q : Quotes) → replaced_as result self.new q ≡ own_call self.old pass.book q (Replace t number) ready }
    {
        let done = self.replace_by(&pass, t, number);
        pass.used_up(done)
    }
}
