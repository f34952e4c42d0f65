// The house, which gives each book that it makes a number of its own.
ghost use Rattle.std.specs.Prelude.{◌≡◌, ◌+◌, ◌<◌};
ghost use Rattle.book.specs.declared.house.NotMade.TheVariants.{Memory};
ghost use Rattle.book.specs.Houses.{Makes};

use crate::book::Book;
use crate::passes::Ready;
use std::alloc::{AllocError, Global};
use std::marker::Model;

// How many books the house has made: the number of the last.
#[derive(Drop)]
pub struct House {
    made: u32,
}

// Clauses see that number.
impl Model for House {
    ghost use Rattle.std.specs.Prelude.{ℕ};

    ghost Value = { ℕ };

    ghost view = { λ h. h.made };
}

// Why no book is made.
#[derive(Clone, Copy, PartialEq, Eq, Debug)]
pub enum NotMade {
    Memory(AllocError),
    BookNumbersUsedUp,
}

impl From<AllocError> for NotMade {
    ghost from_gives = { λ e why. why ≡ Memory e };

    fn from(e: AllocError) -> NotMade {
        NotMade::Memory(e)
    }
}

impl House {
    // A house that has made no book.
    pub fn open() -> House
        ensures { result ≡ 0 }
    {
        House { made: 0 }
    }

    // A new book, whose first order gets the number `first`, and its one pass.
    pub fn make_book(&mut self, heap: Global, first: u32) -> Result<(Book, Ready), NotMade>
        ensures { Makes self.old self.new first result }
    {
        let id = self.made.checked_add(1).ok_or(NotMade::BookNumbersUsedUp)?;
        let new = Book::make(heap, id, first)?;
        self.made = id;
        Ok(new)
    }
}
