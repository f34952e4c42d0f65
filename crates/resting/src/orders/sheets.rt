// The rank sheet and the route list: all that a comparison of two books covers, with the next number.
ghost use Rattle.std.specs.Prelude.{◌≡◌, Decides};
ghost use Rattle.std.specs.List.{slice_get};
ghost use Rattle.market.specs.States.{on};
ghost use Rattle.market.specs.Sheets.{sheet, Equal};
ghost use Rattle.resting.specs.Orders.{state_of};
ghost use Rattle.resting.specs.Sheets.{same_sheet};
ghost use Rattle.std.specs.Cmp.Rules.{comparing};
ghost use Rattle.market.specs.contracts.types.RestingPartialEq.TheImpl.Laws as resting;
ghost use Rattle.market.specs.contracts.types.RoutePartialEq.TheImpl.Laws as route;

use super::OpenOrders;
use market::types::{Resting, Route, Side};

impl OpenOrders {
    // A line of the rank sheet, or none past the end. Its show is the next show.
    pub fn sheet_line(&self, side: Side, place: usize) -> Option<Resting>
        ensures { result ≡ slice_get (on side (sheet (state_of self.now))) place }
    {
        self.line_on(side, place).map(Resting::on_sheet)
    }

    // A line of the route list, or none past the end. Its show is at most the shares out.
    pub fn listed_route(&self, place: usize) -> Option<Route>
        ensures { result ≡ slice_get (sheet (state_of self.now)).routes place }
    {
        self.route_line(place).map(Route::on_list)
    }

    // Whether a side of the rank sheet is the same. The counts are compared first, since two sides of unequal length need no look at their lines.
    fn has_the_side_of(&self, other: &OpenOrders, side: Side) -> bool
        ensures { Decides result (on side (sheet (state_of self.now)) ≡ on side (sheet (state_of other.now))) }
    {
        let ours = self.sides.on(side).as_slice();
        let theirs = other.sides.on(side).as_slice();
        ours.len() == theirs.len()
            && ours
                .iter()
                .copied()
                .map(Resting::on_sheet)
                .eq(theirs.iter().copied().map(Resting::on_sheet))
    }

    // Whether the route list is the same.
    fn has_the_routes_of(&self, other: &OpenOrders) -> bool
        ensures { Decides result ((sheet (state_of self.now)).routes ≡ (sheet (state_of other.now)).routes) }
    {
        let ours = self.routes.as_slice();
        let theirs = other.routes.as_slice();
        ours.len() == theirs.len()
            && ours
                .iter()
                .copied()
                .map(Route::on_list)
                .eq(theirs.iter().copied().map(Route::on_list))
    }

    // Whether two are equal, in the words of the model.
    pub fn equals(&self, other: &OpenOrders) -> bool
        ensures { Decides result (Equal (state_of self.now) (state_of other.now)) }
    {
        self == other
    }
}

// Two are equal where their rank sheets, route lists and next numbers are, whatever else differs.
impl PartialEq for OpenOrders {
    ghost eq = { same_sheet };

    ghost laws = { Prim.search (comparing, resting.laws-law, route.laws-law) depth 14 };

    fn eq(&self, other: &OpenOrders) -> bool {
        self.next == other.next
            && self.has_the_side_of(other, Side::Buy)
            && self.has_the_side_of(other, Side::Sell)
            && self.has_the_routes_of(other)
    }
}
