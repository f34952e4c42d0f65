// What is asked of any board.
ghost use Rattle.std.specs.Prelude.{◌≡◌};
ghost use Rattle.ranking.specs.Place.{head_of};
ghost use Rattle.market.specs.States.{quotes_of, quoted};
ghost use Rattle.market.specs.Steps.{any_better};
ghost use Rattle.board.specs.Lines.{of_venue};

use crate::Board;
use crate::lines::Lines;
use market::types::{Quotation, Side};

// The lines of a side, the first first.
pub fn lines<B: Board>(board: &B, side: Side) -> Lines<'_, B>
    ensures { result ≡ quoted side (quotes_of (B.bids board.now) (B.offers board.now)) }
{
    Lines {
        board,
        side,
        place: 0,
    }
}

// The first line of a side.
pub fn first_line<B: Board>(board: &B, side: Side) -> Option<Quotation>
    ensures { result ≡ head_of (quoted side (quotes_of (B.bids board.now) (B.offers board.now))) }
{
    board.line(side, 0)
}

// Whether a line is better than this price: the lines stand in rank, so the first says it.
pub fn first_better<B: Board>(board: &B, side: Side, price: u32) -> bool
    ensures { result ≡ any_better side price (quoted side (quotes_of (B.bids board.now) (B.offers board.now))) }
{
    first_line(board, side).is_some_and(|q| side.is_ahead(q.price, price))
}

// The line of a venue, if it has one on this side.
pub fn line_of<B: Board>(board: &B, side: Side, venue: u32) -> Option<Quotation>
    ensures { result ≡ of_venue venue (quoted side (quotes_of (B.bids board.now) (B.offers board.now))) }
{
    lines(board, side).find(|q| q.venue == venue)
}
