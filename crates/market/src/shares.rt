// What happens to the shares of one order: it is displayed, refreshed, cut, sent out and returned.
ghost use Rattle.std.specs.Prelude.{◌≡◌, ◌≤◌};
ghost use Rattle.market.specs.Orders.{due, refresh, rested, remaining, entered, returned, routed, next_show};
ghost use Rattle.market.specs.Sheets.{line, route_line};

use crate::types::{Kind, Order, Quotation, Resting, Route, Side, Terms};

impl Resting {
    // Whether the display is to be renewed.
    pub fn is_due(self) -> bool
        ensures { result ≡ due self }
    {
        self.shown == 0 && self.held > 0
    }

    // The order with its display renewed from all that is left.
    pub fn refreshed(self) -> Resting
        requires { self.shown ≡ 0 }
        ensures { result ≡ refresh self }
    {
        let shown = self.next_show();
        Resting {
            shown,
            held: self.held - shown,
            ..self
        }
    }

    // What a refresh would display: the smaller of the show and the held shares.
    pub fn next_show(self) -> u32
        ensures { result ≡ next_show self }
    {
        self.show.min(self.held)
    }

    // The order as the rank sheet has it: its show is the next show.
    pub fn on_sheet(self) -> Resting
        ensures { result ≡ line self }
    {
        Resting {
            show: self.next_show(),
            ..self
        }
    }
}

// An order as it comes to rest.
impl From<Order> for Resting {
    ghost from_gives = { λ o p. p ≡ rested o };

    fn from(o: Order) -> Resting {
        let shown = o.show.min(o.shares);
        Resting {
            number: o.number,
            user: o.user,
            price: o.limit,
            shown,
            held: o.shares - shown,
            show: o.show,
        }
    }
}

impl Order {
    // An entry as an order in hand.
    pub fn entered(side: Side, t: Terms, number: u32) -> Order
        ensures { result ≡ entered side t number }
    {
        Order {
            number,
            user: t.user,
            side,
            limit: t.price,
            shares: t.size,
            show: t.show,
            kind: t.kind,
        }
    }

    // What remains of the order once k shares are gone, if any does.
    pub fn remaining_after(self, k: u32) -> Option<Order>
        requires { k ≤ self.shares }
        ensures { result ≡ remaining k self }
    {
        let shares = self.shares - k;
        (shares != 0).then_some(Order { shares, ..self })
    }

    // k shares of the order as a route to a quotation.
    pub fn to_route(self, q: Quotation, number: u32, k: u32) -> Route
        ensures { result ≡ routed self q number k }
    {
        Route {
            number,
            user: self.user,
            side: self.side,
            limit: self.limit,
            show: self.show,
            price: q.price,
            venue: q.venue,
            out: k,
        }
    }
}

impl Route {
    // The route as the route list has it: its show is at most the shares out, since no more can come back.
    pub fn on_list(self) -> Route
        ensures { result ≡ route_line self }
    {
        Route {
            show: self.show.min(self.out),
            ..self
        }
    }

    // The shares that come back once some are filled, as an order in hand.
    pub fn come_back(self, filled: u32) -> Order
        requires { filled ≤ self.out }
        ensures { result ≡ returned filled self }
    {
        Order {
            number: self.number,
            user: self.user,
            side: self.side,
            limit: self.limit,
            shares: self.out - filled,
            show: self.show,
            kind: Kind::Limit,
        }
    }
}
