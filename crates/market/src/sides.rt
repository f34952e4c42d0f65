// Two values of one kind, one for each side of the market.
ghost use Rattle.std.specs.Prelude.{◌≡◌};
ghost use Rattle.std.specs.Borrow.{sem};
ghost use Rattle.market.specs.Sides.{pick};
ghost use Rattle.market.specs.Pairs.{LendsSide};

use crate::types::Side;

#[derive(Drop)]
pub struct Sides<T> {
    pub buy: T,
    pub sell: T,
}

impl<T> Sides<T> {
    // The value of a side.
    pub fn on(&self, side: Side) -> &T
        ensures { result.now ≡ pick side self.now.buy self.now.sell }
    {
        match side {
            Side::Buy => &self.buy,
            Side::Sell => &self.sell,
        }
    }

    // Lends the value of a side, to be changed where it stands.
    pub fn on_mut(&mut self, side: Side) -> &mut T
        ensures* writes_back { sem 𝓛 (LendsSide T.row side self.entry result) }
        ensures value { result.now ≡ pick side self.old.buy self.old.sell }
    {
        match side {
            Side::Buy => &mut self.buy,
            Side::Sell => &mut self.sell,
        }
    }
}
