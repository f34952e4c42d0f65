// What each report tells, and how sides, kinds, reports and refusals are written.
ghost use Rattle.std.specs.Prelude.{◌≡◌, ◌≤◌, ℕ, ◌∷◌, ◌++◌, Some, decimal};
ghost use Rattle.market.specs.Reports.{refusal_number, held_told, other_told, in_report, trade_report, sent_report, rest_report, off_report, off_hand, back_report};
ghost use Rattle.market.specs.Written.{side_word, kind_word, what_word, report_line, refusal_line};

use crate::types::{Kind, Order, Quotation, Reason, Refusal, Report, Resting, Route, Side, What};
use std::fmt;

impl fmt::Display for Side {
    ghost output = { λ s. Some (side_word s) };

    fn fmt<W: fmt::Write>(&self, f: &mut fmt::Formatter<W>) -> fmt::Result {
        match self {
            Side::Buy => write!(f, "B"),
            Side::Sell => write!(f, "S"),
        }
    }
}

impl fmt::Display for Kind {
    ghost output = { λ k. Some (kind_word k) };

    fn fmt<W: fmt::Write>(&self, f: &mut fmt::Formatter<W>) -> fmt::Result {
        match self {
            Kind::Limit => write!(f, "L"),
            Kind::BookOnly => write!(f, "B"),
            Kind::Immediate => write!(f, "I"),
            Kind::Sweep => write!(f, "S"),
        }
    }
}

impl fmt::Display for What {
    ghost output = { λ w. Some (what_word w) };

    fn fmt<W: fmt::Write>(&self, f: &mut fmt::Formatter<W>) -> fmt::Result {
        match self {
            What::In => write!(f, "in"),
            What::Trade { .. } => write!(f, "trade"),
            What::Sent { .. } => write!(f, "sent"),
            What::Rest { .. } => write!(f, "rest"),
            What::Off(_) => write!(f, "off"),
            What::Back { .. } => write!(f, "back"),
        }
    }
}

impl Report {
    // An order was accepted.
    pub fn entered(o: Order) -> Report
        ensures { result ≡ in_report o }
    {
        Report {
            what: What::In,
            number: o.number,
            user: o.user,
            side: o.side,
            price: o.limit,
            shares: o.shares,
        }
    }

    // k shares of the order in hand traded at a price with the resting order of a number.
    pub fn traded(o: Order, resting: u32, price: u32, k: u32) -> Report
        ensures { result ≡ trade_report o resting price k }
    {
        Report {
            what: What::Trade { resting },
            price,
            shares: k,
            ..Report::entered(o)
        }
    }

    // k shares were sent to a quotation under a number of their own.
    pub fn sent(o: Order, q: Quotation, number: u32, k: u32) -> Report
        ensures { result ≡ sent_report o q number k }
    {
        Report {
            what: What::Sent { venue: q.venue },
            number,
            price: q.price,
            shares: k,
            ..Report::entered(o)
        }
    }

    // The order in hand came to rest.
    pub fn rested(o: Order) -> Report
        ensures { result ≡ rest_report o }
    {
        let p = Resting::from(o);
        Report {
            what: What::Rest { held: p.held },
            shares: p.shown,
            ..Report::entered(o)
        }
    }

    // k shares of a resting order were taken off.
    pub fn taken_off(why: Reason, k: u32, side: Side, p: Resting) -> Report
        ensures { result ≡ off_report why k side p }
    {
        Report {
            what: What::Off(why),
            number: p.number,
            user: p.user,
            side,
            price: p.price,
            shares: k,
        }
    }

    // All that is in hand was taken off.
    pub fn off_hand(why: Reason, o: Order) -> Report
        ensures { result ≡ off_hand why o }
    {
        let whole = Report::entered(o);
        Report {
            what: What::Off(why),
            ..whole
        }
    }

    // A venue replied that it filled so many shares of a route.
    pub fn replied(filled: u32, r: Route) -> Report
        requires { filled ≤ r.out }
        ensures { result ≡ back_report filled r }
    {
        Report {
            what: What::Back {
                unfilled: r.out - filled,
                venue: r.venue,
            },
            number: r.number,
            user: r.user,
            side: r.side,
            price: r.price,
            shares: filled,
        }
    }

    // The shares held back by an order that comes to rest, or left unfilled by a reply; else 0.
    pub fn held(&self) -> u32
        ensures { result ≡ held_told self.now.what }
    {
        match self.what {
            What::Rest { held } => held,
            What::Back { unfilled, .. } => unfilled,
            What::In | What::Trade { .. } | What::Sent { .. } | What::Off(_) => 0,
        }
    }

    // The resting number of a trade, the venue of a send or a reply, the reason's number of a take-off; else 0.
    pub fn other(&self) -> u32
        ensures { result ≡ other_told self.now.what }
    {
        match self.what {
            What::Trade { resting } => resting,
            What::Sent { venue } | What::Back { venue, .. } => venue,
            What::Off(why) => why.into(),
            What::In | What::Rest { .. } => 0,
        }
    }
}

// A report as its line, without the line's end. The kind of report says which fields are blank.
impl fmt::Display for Report {
    ghost output = { λ r. Some (report_line r) };

    fn fmt<W: fmt::Write>(&self, f: &mut fmt::Formatter<W>) -> fmt::Result {
        let Report {
            what,
            number,
            user,
            side,
            price,
            shares,
        } = *self;
        write!(f, "{what} {number} {user} {side} {price} {shares} ")?;
        match what {
            What::In => write!(f, "- -"),
            What::Trade { resting } => write!(f, "- {resting}"),
            What::Sent { venue } => write!(f, "- {venue}"),
            What::Rest { held } => write!(f, "{held} -"),
            What::Off(why) => write!(f, "- {}", u32::from(why)),
            What::Back { unfilled, venue } => write!(f, "{unfilled} {venue}"),
        }
    }
}

// A refusal as its line, without the line's end.
impl fmt::Display for Refusal {
    ghost output = { λ r. Some (refusal_line (refusal_number r)) };

    fn fmt<W: fmt::Write>(&self, f: &mut fmt::Formatter<W>) -> fmt::Result {
        write!(f, "no - - - - - - {}", u32::from(*self))
    }
}
