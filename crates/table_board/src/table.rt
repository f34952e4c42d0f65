// The table board: its two lists, and what holds of them.
ghost use Rattle.ranking.specs.Lists.{lines_of};
ghost use Rattle.market.specs.States.{quotes_of};
ghost use Rattle.market.specs.Quotes.{Shown};

use market::sides::Sides;
use market::types::Quotation;
use ranking::limit::AtMost;
use ranking::list::RankedList;

pub mod methods;

// The quotations of one side: room for a line of each of the 64 venues is reserved when it is made.
pub(crate) type QuotationList = RankedList<Quotation, AtMost<64>>;

#[derive(Drop)]
pub struct TableBoard {
    lists: Sides<QuotationList>,
    ghost shown: { Shown (quotes_of (lines_of lists.buy) (lines_of lists.sell)) },
}
