// Which lines a layer shows, and how it answers for them: said once for every kind of layer.
ghost use Rattle.std.specs.Prelude.{◌≡◌, ℕ, Bool};
ghost use Rattle.std.specs.List.{slice_get};
ghost use Rattle.ranking.specs.Place.{those};
ghost use Rattle.market.specs.declared.types.Quotation.{Quotation};
ghost use Rattle.market.specs.States.{quotes_of, quoted};
ghost use Rattle.market.specs.Quotes.{resized, Taken};
ghost use Rattle.layers.specs.Shows.{TakenBelow};

use board::Board;
use board::looks::{line_of, lines};
use market::types::{Quotation, Refusal, Side};

pub trait Screen {
    // Whether a line is shown.
    ghost passes: { Self → Quotation → Bool };

    fn lets_through(&self, q: Quotation) -> bool
        ensures { result ≡ passes self.now q };

    // The size does not count, so a line that was lessened is still shown.
    ghost sizeless: { (s : Self) (q : Quotation) (n : ℕ) → passes s (resized n q) ≡ passes s q };
}

// The line at a place among those that are shown.
pub fn screened_line<B: Board, S: Screen>(
    board: &B,
    screen: &S,
    side: Side,
    place: usize,
) -> Option<Quotation>
    ensures { result ≡ slice_get (those (S.passes screen.now) (quoted side (quotes_of (B.bids board.now) (B.offers board.now)))) place }
{
    lines(board, side)
        .filter(|q| screen.lets_through(*q))
        .nth(place)
}

// Takes shares from a line that is shown; the board below answers.
pub fn screened_take<B: Board, S: Screen>(
    board: &mut B,
    screen: &S,
    side: Side,
    venue: u32,
    shares: u32,
) -> Result<(), Refusal>
    ensures shown { Taken side venue shares (quotes_of (those (S.passes screen.now) (B.bids board.old)) (those (S.passes screen.now) (B.offers board.old))) (quotes_of (those (S.passes screen.now) (B.bids board.new)) (those (S.passes screen.now) (B.offers board.new))) result }
    ensures below { TakenBelow (S.passes screen.now) side venue shares (quotes_of (B.bids board.old) (B.offers board.old)) (quotes_of (B.bids board.new) (B.offers board.new)) result }
{
    if line_of(board, side, venue).is_some_and(|q| screen.lets_through(q)) {
        board.take(side, venue, shares)
    } else {
        Err(Refusal::NoSuchLine)
    }
}
