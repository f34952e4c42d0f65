// What is legal: prices, sizes, users, venues and displays; and which numbers were given.
ghost use Rattle.std.specs.Prelude.{◌≡◌};
ghost use Rattle.market.specs.Legal.{legal_price, legal_size, legal_user, legal_venue, legal_show, goes_out, trades_past, never_rests, never_locks};
ghost use Rattle.market.specs.Numbers.{given, after};

use crate::types::Kind;

// From 1 to 2,000,000,000, and from a dollar on whole cents.
pub fn is_legal_price(price: u32) -> bool
    ensures { result ≡ legal_price price }
{
    (1..=2_000_000_000).contains(&price) && (price < 10_000 || price % 100 == 0)
}

pub fn is_legal_size(size: u32) -> bool
    ensures { result ≡ legal_size size }
{
    (1..=999_999).contains(&size)
}

pub fn is_legal_user(user: u32) -> bool
    ensures { result ≡ legal_user user }
{
    (1..=9_999).contains(&user)
}

pub fn is_legal_venue(venue: u32) -> bool
    ensures { result ≡ legal_venue venue }
{
    (1..=64).contains(&venue)
}

// All is displayed; or at least a round lot and no more than the size, of an order that may rest.
pub fn is_legal_show(size: u32, show: u32, kind: Kind) -> bool
    ensures { result ≡ legal_show size show kind }
{
    show == size || !kind.never_rests() && (100..=size).contains(&show)
}

impl Kind {
    // Whether it is sent out to away quotations.
    pub fn goes_out(self) -> bool
        ensures { result ≡ goes_out self }
    {
        matches!(self, Kind::Limit)
    }

    // Whether it may trade past a better away quotation.
    pub fn trades_past(self) -> bool
        ensures { result ≡ trades_past self }
    {
        matches!(self, Kind::Sweep)
    }

    // Whether what it cannot trade at once is taken off.
    pub fn never_rests(self) -> bool
        ensures { result ≡ never_rests self }
    {
        matches!(self, Kind::Immediate | Kind::Sweep)
    }

    // Whether it is taken off where it would lock or cross.
    pub fn never_locks(self) -> bool
        ensures { result ≡ never_locks self }
    {
        matches!(self, Kind::BookOnly)
    }
}

// Whether a number was given, where `next` is the next; a next of 0 says that all are used up.
pub fn was_given(number: u32, next: u32) -> bool
    ensures { result ≡ given number next }
{
    1 <= number && (number < next || next == 0)
}

// The number after this one, or 0 once all are used up.
pub fn number_after(number: u32) -> u32
    ensures { result ≡ after number }
{
    number.checked_add(1).unwrap_or(0)
}
