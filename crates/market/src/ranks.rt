// Which of two lines stands first.
ghost use Rattle.std.specs.Prelude.{◌≡◌};
ghost use Rattle.market.specs.Sides.{ahead, across_of, resting_before, quotation_before, route_before, within};
ghost use Rattle.std.proofs.Common.{rules};

use crate::types::{Quotation, Resting, Route, Side};
use ranking::rank::Rank;

impl Side {
    // The opposite side.
    pub fn across(self) -> Side
        ensures { result ≡ across_of self }
    {
        match self {
            Side::Buy => Side::Sell,
            Side::Sell => Side::Buy,
        }
    }

    // Whether the first price is better than the second on this side.
    pub fn is_ahead(self, a: u32, b: u32) -> bool
        ensures { result ≡ ahead self a b }
    {
        match self {
            Side::Buy => a > b,
            Side::Sell => a < b,
        }
    }

    // Whether a price is within the limit of an order of this side.
    pub fn is_within(self, limit: u32, price: u32) -> bool
        ensures { result ≡ within self limit price }
    {
        match self {
            Side::Buy => price <= limit,
            Side::Sell => limit <= price,
        }
    }
}

impl Rank<Resting> for Side {
    ghost before = { resting_before };

    ghost irreflexive = { Prim.search rules };

    ghost transitive = { Prim.search rules };

    ghost level = { Prim.search rules };

    fn stands_before(&self, x: &Resting, y: &Resting) -> bool {
        self.is_ahead(x.price, y.price)
    }
}

impl Rank<Quotation> for Side {
    ghost before = { quotation_before };

    ghost irreflexive = { Prim.search rules };

    ghost transitive = { Prim.search rules };

    ghost level = { Prim.search rules };

    fn stands_before(&self, x: &Quotation, y: &Quotation) -> bool {
        self.is_ahead(x.price, y.price) || x.price == y.price && x.venue < y.venue
    }
}

// Open routes go by number.
#[derive(Clone, Copy)]
pub struct ByNumber;

impl Rank<Route> for ByNumber {
    ghost before = { λ _. route_before };

    ghost irreflexive = { Prim.search rules };

    ghost transitive = { Prim.search rules };

    ghost level = { Prim.search rules };

    fn stands_before(&self, x: &Route, y: &Route) -> bool {
        x.number < y.number
    }
}
