// The band layer: the lines below with a price from low to high, both included.
ghost use Rattle.std.specs.Prelude.{◌≡◌};
ghost use Rattle.layers.specs.Shows.{in_band};
ghost use Rattle.std.proofs.Common.{rules};

use crate::layer::Layer;
use crate::screens::Screen;
use market::types::Quotation;

// A low above the high holds no price.
#[derive(Clone, Copy)]
pub struct Prices {
    low: u32,
    high: u32,
}

impl Screen for Prices {
    ghost passes = { in_band };

    ghost sizeless = { Prim.search rules };

    fn lets_through(&self, q: Quotation) -> bool {
        (self.low..=self.high).contains(&q.price)
    }
}

pub type Band<B> = Layer<B, Prices>;

impl<B> Band<B> {
    pub fn over(below: B, low: u32, high: u32) -> Band<B>
        ensures below { result.below ≡ below }
        ensures low { result.screen.low ≡ low }
        ensures high { result.screen.high ≡ high }
    {
        Layer {
            below,
            screen: Prices { low, high },
        }
    }
}
