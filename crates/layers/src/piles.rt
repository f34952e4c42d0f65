// Piles of layers are boards again: what is asked of any board can be asked of them.
ghost use Rattle.std.specs.Prelude.{◌≡◌};
ghost use Rattle.ranking.specs.Place.{those};
ghost use Rattle.market.specs.declared.types.Side.TheVariants.{Buy};
ghost use Rattle.market.specs.States.{quotes_of, quoted};
ghost use Rattle.market.specs.Steps.{any_better};
ghost use Rattle.table_board.specs.Quoting.{lists_of, Quoted};
ghost use Rattle.layers.specs.Shows.{unmarked, in_band};

use crate::band::Band;
use crate::self_help::SelfHelp;
use board::Board;
use board::looks::first_better;
use market::types::{Quotation, Refusal, Side};
use table_board::table::TableBoard;

// Whether a bid is better than this price, three layers above a table.
pub fn bid_better(pile: &SelfHelp<Band<SelfHelp<TableBoard>>>, price: u32) -> bool
    ensures { result ≡ any_better Buy price (those (unmarked pile.now.screen) (those (in_band pile.now.below.screen) (those (unmarked pile.now.below.below.screen) (lists_of pile.now.below.below.below).bids))) }
{
    first_better(pile, Side::Buy, price)
}

// Whether a line is better than this price, two layers above any board.
pub fn layered_better<B: Board>(pile: &SelfHelp<Band<B>>, side: Side, price: u32) -> bool
    ensures { result ≡ any_better side price (those (unmarked pile.now.screen) (those (in_band pile.now.below.screen) (quoted side (quotes_of (B.bids pile.now.below.below) (B.offers pile.now.below.below))))) }
{
    first_better(pile, side, price)
}

// Quotes on the table at the bottom of a pile, whose layers stay as they are.
pub fn quote_under(
    pile: &mut SelfHelp<Band<TableBoard>>,
    side: Side,
    q: Quotation,
) -> Result<(), Refusal>
    ensures table { Quoted side q (lists_of pile.old.below.below) (lists_of pile.new.below.below) result }
    ensures marks { pile.new.screen ≡ pile.old.screen }
    ensures band { pile.new.below.screen ≡ pile.old.below.screen }
{
    pile.below.below.quote(side, q)
}
