// What is read of the open orders.
ghost use Rattle.std.specs.Prelude.{◌≡◌, ◌<◌, ◌≤◌, not, length, slice_index_or};
ghost use Rattle.std.specs.List.{slice_get};
ghost use Rattle.ranking.specs.Place.{head_of, every, Found};
ghost use Rattle.market.specs.States.{on, free, fits, owned, resting_bears, route_bears};
ghost use Rattle.market.specs.Orders.{total};
ghost use Rattle.market.specs.Steps.{no_route, side_full};
ghost use Rattle.resting.specs.Orders.{state_of, Stands, Located};

use super::OpenOrders;
use market::legal::was_given;
use market::types::{Resting, Route, Side};

// Where a resting order stands.
#[derive(Clone, Copy, PartialEq, Eq, Debug)]
pub struct Standing {
    pub side: Side,
    pub place: usize,
}

impl OpenOrders {
    pub fn next_number(&self) -> u32
        ensures { result ≡ (state_of self.now).next }
    {
        self.next
    }

    // The first resting order of a side.
    pub fn first_on(&self, side: Side) -> Option<Resting>
        ensures { result ≡ head_of (on side (state_of self.now)) }
    {
        self.sides.on(side).first()
    }

    // The resting order at a place of a side, or none past the end.
    pub fn line_on(&self, side: Side, place: usize) -> Option<Resting>
        ensures { result ≡ slice_get (on side (state_of self.now)) place }
    {
        self.sides.on(side).line(place)
    }

    // The open route at a place, or none past the end.
    pub fn route_line(&self, place: usize) -> Option<Route>
        ensures { result ≡ slice_get (state_of self.now).routes place }
    {
        self.routes.line(place)
    }

    pub fn route_count(&self) -> usize
        ensures { result ≡ length (state_of self.now).routes }
    {
        self.routes.len()
    }

    // The resting order that stands there. Its shares add up to a legal size.
    pub fn line_at(&self, at: Standing) -> Resting
        requires { Stands at (state_of self.now) }
        ensures value { (d : Resting) → result ≡ slice_index_or (on at.side (state_of self.now)) at.place d }
        ensures few { total result ≤ 999999 }
    {
        self.sides.on(at.side).line_at(at.place)
    }

    // The open route at a place.
    pub fn route_at(&self, place: usize) -> Route
        requires { place < length (state_of self.now).routes }
        ensures { (d : Route) → result ≡ slice_index_or (state_of self.now).routes place d }
    {
        self.routes.line_at(place)
    }

    pub fn count_on(&self, side: Side) -> usize
        ensures { result ≡ length (on side (state_of self.now)) }
    {
        self.sides.on(side).len()
    }

    // Whether a side takes no more resting orders.
    pub fn is_full(&self, side: Side) -> bool
        ensures { result ≡ side_full side (state_of self.now) }
    {
        self.sides.on(side).is_full()
    }

    // Whether no route can be opened.
    pub fn has_no_route(&self) -> bool
        ensures { result ≡ no_route (state_of self.now) }
    {
        self.routes.is_full() || self.next == 0
    }

    // Whether no resting order of a side bears this number.
    fn is_free_on(&self, side: Side, number: u32) -> bool
        ensures { result ≡ every (λ p. not (resting_bears number p)) (on side (state_of self.now)) }
    {
        self.sides.on(side).lacks(|p| p.number == number)
    }

    // Whether this number stands nowhere.
    fn is_free(&self, number: u32) -> bool
        ensures { result ≡ free number (state_of self.now) }
    {
        self.is_free_on(Side::Buy, number)
            && self.is_free_on(Side::Sell, number)
            && self.routes.lacks(|r| r.number == number)
    }

    // Whether an order of this number may be worked: the number is given, and stands nowhere yet.
    pub fn may_work(&self, number: u32) -> bool
        ensures { result ≡ fits number (state_of self.now) }
    {
        was_given(number, self.next) && self.is_free(number)
    }

    // The place on a side of the resting order of this user and number.
    fn find_on(&self, side: Side, user: u32, number: u32) -> Option<usize>
        ensures { Found (owned user number) (on side (state_of self.now)) result }
    {
        self.sides
            .on(side)
            .find(|p| p.number == number && p.user == user)
    }

    // Where the resting order of this user and number stands.
    pub fn find(&self, user: u32, number: u32) -> Option<Standing>
        ensures { Located user number (state_of self.now) result }
    {
        let stands = |side| self
            .find_on(side, user, number)
            .map(|place| Standing { side, place });
        stands(Side::Buy).or_else(|| stands(Side::Sell))
    }

    // Where the open route of this number stands.
    pub fn find_route(&self, number: u32) -> Option<usize>
        ensures { Found (route_bears number) (state_of self.now).routes result }
    {
        self.routes.find(|r| r.number == number)
    }
}
