// The plain values of the market. A price counts ten-thousandths of a dollar.
#[derive(Clone, Copy, PartialEq, Eq, Debug)]
pub enum Side {
    Buy,
    Sell,
}

// What an order does with the shares that it cannot trade at once: L, B, I and S in an order file.
#[derive(Clone, Copy, PartialEq, Eq, Debug)]
pub enum Kind {
    // L: goes out to better away quotations, and rests.
    Limit,
    // B: stays on this book; it rests unless it would lock or cross.
    BookOnly,
    // I: trades at once or not at all, behind better away quotations.
    Immediate,
    // S: trades at once or not at all, whatever is quoted away.
    Sweep,
}

// An order that rests: displayed shares, and a reserve that is held back.
#[derive(Clone, Copy, PartialEq, Eq, Debug)]
pub struct Resting {
    pub number: u32,
    pub user: u32,
    pub price: u32,
    pub shown: u32,
    pub held: u32,
    // The most that is displayed at one time.
    pub show: u32,
}

// Shares sent out to an away quotation, until the reply comes.
#[derive(Clone, Copy, PartialEq, Eq, Debug)]
pub struct Route {
    pub number: u32,
    pub user: u32,
    pub side: Side,
    pub limit: u32,
    pub show: u32,
    // The price at which the shares were sent.
    pub price: u32,
    pub venue: u32,
    pub out: u32,
}

// An away quotation: one line of a board.
#[derive(Clone, Copy, PartialEq, Eq, Debug)]
pub struct Quotation {
    pub venue: u32,
    pub price: u32,
    pub size: u32,
}

// An order in hand: accepted, and not yet worked to its end.
#[derive(Clone, Copy, PartialEq, Eq, Debug)]
pub struct Order {
    pub number: u32,
    pub user: u32,
    pub side: Side,
    pub limit: u32,
    pub shares: u32,
    pub show: u32,
    pub kind: Kind,
}

// The terms of an entry or a replacement.
#[derive(Clone, Copy, PartialEq, Eq, Debug)]
pub struct Terms {
    pub price: u32,
    pub size: u32,
    pub show: u32,
    pub kind: Kind,
    pub user: u32,
}

// What a report tells of, with what only that kind of report tells.
#[derive(Clone, Copy, PartialEq, Eq, Debug)]
pub enum What {
    // An order was accepted.
    In,
    // The order in hand traded with a resting order: that one's number.
    Trade { resting: u32 },
    // Shares were sent to a venue.
    Sent { venue: u32 },
    // The order in hand came to rest: the shares that it holds back.
    Rest { held: u32 },
    // Shares were taken off.
    Off(Reason),
    // A venue replied: the shares that it did not fill.
    Back { unfilled: u32, venue: u32 },
}

// One report. The number of a trade is that of the order in hand.
#[derive(Clone, Copy, PartialEq, Eq, Debug)]
pub struct Report {
    pub what: What,
    pub number: u32,
    pub user: u32,
    pub side: Side,
    pub price: u32,
    pub shares: u32,
}

// Why shares were taken off, and the number that stands for it.
#[derive(Clone, Copy, PartialEq, Eq, Debug)]
pub enum Reason {
    Cancelled = 1,
    Cut = 2,
    Replaced = 3,
    Expired = 4,
    // An order that does not rest found nothing more to trade.
    Unfilled = 5,
    // A book-only order would have locked or crossed.
    WouldLock = 6,
    // No route could be opened: 64 are open, or the numbers are used up.
    NoRoute = 7,
    SideFull = 8,
}

// Why a call is refused, and the number that stands for it.
#[derive(Clone, Copy, PartialEq, Eq, Debug)]
pub enum Refusal {
    WrongPass = 1,
    User = 2,
    Size = 3,
    Price = 4,
    Show = 5,
    NotResting = 6,
    CutTooLarge = 7,
    NotOut = 8,
    ReplyTooLarge = 9,
    NumbersUsedUp = 10,
    Venue = 11,
    NoSuchLine = 12,
    NothingResting = 13,
    // The program has no pass for this call now.
    NoPass = 47,
}

// What one step of work does: the first rule that applies.
#[derive(Clone, Copy, PartialEq, Eq, Debug)]
pub enum Move {
    // Trade with the first resting order across: its number, price and displayed shares.
    Trade { number: u32, price: u32, shown: u32 },
    // Send to the first quotation across.
    Send(Quotation),
    // Take the remainder off.
    TakeOff(Reason),
    Rest,
}

// One call on a book. Work is one step of the order in hand.
#[derive(Clone, Copy, PartialEq, Eq, Debug)]
pub enum Call {
    Enter(Side, Terms),
    Work,
    Cut { size: u32, user: u32, number: u32 },
    Cancel { user: u32, number: u32 },
    Replace(Terms, u32),
    Reply { size: u32, number: u32 },
    Close,
    Expire,
}
