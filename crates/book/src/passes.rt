// The passes: who may call next. None is copied or dropped, so each is handed on once. Ready and Ended hold the same, and are two types
// because they admit different calls: one type with a parameter for the state would say no more.
ghost use Rattle.std.specs.Prelude.{◌≡◌, true, IfSome};
ghost use Rattle.market.specs.Calls.{held_by};
ghost use Rattle.market.specs.Sound.{able};

use market::types::{Order, Refusal};

// The book waits for a call.
pub struct Ready {
    pub(crate) book: u32,
}

// An order is in hand, and is worked before anything else.
pub struct InHand {
    pub(crate) book: u32,
    pub(crate) order: Order,
    ghost fit: { able order ≡ true },
}

// Trading is over: replies and expiries alone.
pub struct Ended {
    pub(crate) book: u32,
}

// The pass once an order was worked, or a route came back. Both cases hold a pass and neither is a failure, so this is no Result.
pub enum Next {
    // No share is in hand.
    Done(Ready),
    More(InHand),
}

// A call that is refused hands its pass back.
pub struct Refused<P> {
    pub why: Refusal,
    pub pass: P,
}

impl Ready {
    ghost use Rattle.book.specs.Outcomes.{or_back};

    // The answer of a call that read this pass: a refusal hands the pass back, and anything else uses it up.
    pub(crate) fn used_up<T>(self, answer: Result<T, Refusal>) -> Result<T, Refused<Ready>>
        ensures { result ≡ or_back self answer }
    {
        match answer {
            Err(why) => Err(Refused { why, pass: self }),
            Ok(done) => {
                let Ready { book: _ } = self;
                Ok(done)
            }
        }
    }
}

impl InHand {
    ghost use Rattle.book.specs.Outcomes.{next_pass, next_book, left_in};

    // The order in hand.
    pub fn order(&self) -> Order
        ensures { result ≡ self.now.order }
    {
        self.order
    }

    // The pass once a step has left so much of the order in hand.
    pub(crate) fn hand_on(self, left: Option<Order>) -> Next
        requires { IfSome left (λ o. able o ≡ true) }
        ensures pass { next_pass result ≡ held_by left }
        ensures left { left_in result ≡ left }
        ensures book { next_book result ≡ self.book }
    {
        let InHand { book, order: _ } = self;
        Next::with(book, left)
    }
}

impl Next {
    ghost use Rattle.book.specs.Outcomes.{next_pass, next_book, left_in};

    // The pass of a book when this is left in hand.
    pub(crate) fn with(book: u32, left: Option<Order>) -> Next
        requires { IfSome left (λ o. able o ≡ true) }
        ensures pass { next_pass result ≡ held_by left }
        ensures left { left_in result ≡ left }
        ensures book { next_book result ≡ book }
    {
        match left {
            None => Next::Done(Ready { book }),
            Some(order) => Next::More(InHand { book, order }),
        }
    }
}
