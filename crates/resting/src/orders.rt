// All that a book has: both sides in rank, the open routes and the next number.
ghost use Rattle.ranking.specs.Lists.{lines_of};
ghost use Rattle.market.specs.States.{state};
ghost use Rattle.market.specs.Sound.{Sound};

use market::sides::Sides;
use market::types::{Resting, Route};
use ranking::limit::AtMost;
use ranking::list::RankedList;

pub mod looks;
pub mod moves;
pub mod sheets;

// The resting orders of one side.
pub(crate) type RestingList = RankedList<Resting, AtMost<256>>;

// No value of this type is out of rank, overfull or crossed, displays 0, or has a number twice or not yet given.
#[derive(Drop)]
pub struct OpenOrders {
    sides: Sides<RestingList>,
    routes: RankedList<Route, AtMost<64>>,
    // 0 says that all numbers are used up. As an Option this would have two values for that, None and Some(0).
    next: u32,
    ghost sound: { Sound (state (lines_of sides.buy) (lines_of sides.sell) (lines_of routes) next) },
}
