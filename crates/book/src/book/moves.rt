// What several calls do alike: they check whose pass it is, take a resting order off, or take an order in hand.
ghost use Rattle.std.specs.Prelude.{◌≡◌, ◌==◌, ◌≢◌};
ghost use Rattle.market.specs.declared.types.Refusal.TheVariants.{WrongPass};
ghost use Rattle.market.specs.Calls.{unless, verdict, numbers_refusal};
ghost use Rattle.resting.specs.Orders.{Stands};
ghost use Rattle.book.specs.Outcomes.{book_state};
ghost use Rattle.book.specs.Moves.{TakesOff, Admits};

use super::Book;
use market::types::{Order, Reason, Refusal, Report, Side, Terms};
use resting::orders::looks::Standing;

impl Book {
    // Whether a pass that bears this number is the book's own.
    pub(super) fn check_pass(&self, bears: u32) -> Result<(), Refusal>
        ensures { result ≡ verdict (unless (bears == self.now.id) WrongPass) }
    {
        Refusal::WrongPass.unless(bears == self.id)
    }

    // Whether a number is left for an order.
    pub(super) fn check_numbers(&self) -> Result<(), Refusal>
        ensures { result ≡ verdict (numbers_refusal (book_state self.now)) }
    {
        Refusal::NumbersUsedUp.unless(self.orders.next_number() != 0)
    }

    // Takes the resting order at a place off, with all its shares.
    pub(super) fn take_off(&mut self, why: Reason, at: Standing) -> Report
        requires { Stands at (book_state self.old) }
        ensures { TakesOff why at self.old self.new result }
    {
        let line = self.orders.take_out(at);
        Report::taken_off(why, line.shown + line.held, at.side, line)
    }

    // Takes an order in hand under the next number.
    pub(super) fn admit(&mut self, side: Side, t: Terms) -> (Order, Report)
        requires { (book_state self.old).next ≢ 0 }
        ensures { Admits side t self.old self.new result }
    {
        let number = self.orders.take_number();
        let order = Order::entered(side, t, number);
        (order, Report::entered(order))
    }
}
