// The looks: what may be read of a book at any time. They need no pass and change nothing.
ghost use Rattle.std.specs.Prelude.{◌≡◌, Decides};
ghost use Rattle.std.specs.List.{slice_get};
ghost use Rattle.market.specs.States.{on};
ghost use Rattle.market.specs.Sheets.{sheet, Equal};
ghost use Rattle.laws.specs.Equal.{Foretells, ToldExactly};
ghost use Rattle.book.specs.Outcomes.{book_state};

use super::Book;
use market::types::{Resting, Route, Side};

impl Book {
    // A line of the rank sheet, by side and place, or none past the end. Its show is the next show: what the next refresh would display.
    pub fn sheet_line(&self, side: Side, place: usize) -> Option<Resting>
        ensures { result ≡ slice_get (on side (sheet (book_state self.now))) place }
    {
        self.orders.sheet_line(side, place)
    }

    // A line of the route list, or none past the end. Its show is at most the shares out.
    pub fn route_line(&self, place: usize) -> Option<Route>
        ensures { result ≡ slice_get (sheet (book_state self.now)).routes place }
    {
        self.orders.listed_route(place)
    }

    // The number that the next order or route gets, or 0 once all are used up.
    pub fn next_number(&self) -> u32
        ensures { result ≡ (book_state self.now).next }
    {
        self.orders.next_number()
    }

    // Whether two books are equal: exactly when no later trading tells them apart.
    pub fn equals(&self, other: &Book) -> bool
        ensures equal { Decides result (Equal (book_state self.now) (book_state other.now)) }
        ensures foretells { Foretells result (book_state self.now) (book_state other.now) }
        ensures exactly { ToldExactly result (book_state self.now) (book_state other.now) }
    {
        self.orders.equals(&other.orders)
    }
}
