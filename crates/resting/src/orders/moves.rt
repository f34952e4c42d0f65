// The moves of the open orders. Each keeps what the type says.
ghost use Rattle.std.specs.Prelude.{◌≡◌, ◌<◌, ◌≤◌, true, length, IfOk, ◌≢◌, slice_index_or};
ghost use Rattle.ranking.specs.Place.{place, spot_at};
ghost use Rattle.market.specs.Sides.{resting_before, across_of};
ghost use Rattle.market.specs.States.{on, put, numbered, new_state, with_routes};
ghost use Rattle.market.specs.Orders.{total, traded, routed, trimmed};
ghost use Rattle.market.specs.Calls.{taken_out, changed_to, unrouted};
ghost use Rattle.market.specs.Sound.{able};
ghost use Rattle.soundness.specs.Rest.{Restable};
ghost use Rattle.resting.specs.Sides.{first_shown, total_at};
ghost use Rattle.resting.specs.Orders.{state_of, sent_out, at_place, Stands};

use super::OpenOrders;
use super::looks::Standing;
use crate::sides::{trade_first, trim_line};
use market::legal::number_after;
use market::ranks::ByNumber;
use market::sides::Sides;
use market::types::{Order, Quotation, Resting, Route, Side};
use ranking::limit::AtMost;
use ranking::list::RankedList;
use std::alloc::{AllocError, Global};

impl OpenOrders {
    // Nothing open, with room for 256 orders a side and 64 routes.
    pub fn make(heap: Global, first: u32) -> Result<OpenOrders, AllocError>
        ensures { IfOk result (λ x. state_of x ≡ new_state first) }
    {
        let buy = RankedList::make(heap, AtMost)?;
        let sell = RankedList::make(heap, AtMost)?;
        let routes = RankedList::make(heap, AtMost)?;
        Ok(OpenOrders {
            sides: Sides { buy, sell },
            routes,
            next: first,
        })
    }

    // Gives the next number away.
    pub fn take_number(&mut self) -> u32
        requires { (state_of self.old).next ≢ 0 }
        ensures number { result ≡ (state_of self.old).next }
        ensures state { state_of self.new ≡ numbered (state_of self.old) }
    {
        let number = self.next;
        self.next = number_after(number);
        number
    }

    // Trades k shares with the first order of a side.
    pub fn trade(&mut self, side: Side, k: u32)
        requires { k ≤ first_shown (on side (state_of self.old)) }
        ensures { state_of self.new ≡ put side (traded side k (on side (state_of self.old))) (state_of self.old) }
    {
        trade_first(self.sides.on_mut(side), side, k);
    }

    // Puts an order at its rank on a side.
    pub fn rest(&mut self, side: Side, p: Resting)
        requires room { length (on side (state_of self.old)) < 256 }
        requires may { Restable side p (state_of self.old) }
        ensures { state_of self.new ≡ put side (place (resting_before side) p (on side (state_of self.old))) (state_of self.old) }
    {
        // The rank of a side that is known in each arm is compared in half the steps, on every line that it passes.
        match side {
            Side::Buy => self.sides.buy.insert(&Side::Buy, p),
            Side::Sell => self.sides.sell.insert(&Side::Sell, p),
        }
    }

    // Opens a route for k shares under the next number.
    pub fn open_route(&mut self, o: Order, q: Quotation, k: u32) -> u32
        requires able { able o ≡ true }
        requires some { (0 < k) × (k ≤ o.shares) }
        requires room { length (state_of self.old).routes < 64 }
        requires left { (state_of self.old).next ≢ 0 }
        ensures number { result ≡ (state_of self.old).next }
        ensures state { state_of self.new ≡ sent_out (routed o q (state_of self.old).next k) (state_of self.old) }
    {
        let number = self.take_number();
        self.routes.insert(&ByNumber, o.to_route(q, number, k));
        number
    }

    // Takes the order that stands there out. Its shares add up to a legal size.
    pub fn take_out(&mut self, at: Standing) -> Resting
        requires { Stands at (state_of self.old) }
        ensures value { (d : Resting) → result ≡ slice_index_or (on at.side (state_of self.old)) at.place d }
        ensures few { total result ≤ 999999 }
        ensures state { state_of self.new ≡ taken_out (at_place at.side at.place (state_of self.old) result) (state_of self.old) }
    {
        self.sides.on_mut(at.side).remove(at.place)
    }

    // Cuts k shares of the order that stands there, where it stands.
    pub fn trim(&mut self, at: Standing, k: u32)
        requires place { Stands at (state_of self.old) }
        requires few { k < total_at at.place (on at.side (state_of self.old)) }
        ensures { (d : Resting) → state_of self.new ≡ changed_to (trimmed k (slice_index_or (on at.side (state_of self.old)) at.place d)) (at_place at.side at.place (state_of self.old) d) (state_of self.old) }
    {
        trim_line(self.sides.on_mut(at.side), at.place, k);
    }

    // Ends the open route at a place.
    pub fn end_route(&mut self, place: usize) -> Route
        requires { place < length (state_of self.old).routes }
        ensures value { (d : Route) → result ≡ slice_index_or (state_of self.old).routes place d }
        ensures state { state_of self.new ≡ unrouted (spot_at (state_of self.old).routes place result) (state_of self.old) }
    {
        self.routes.remove(place)
    }
}
