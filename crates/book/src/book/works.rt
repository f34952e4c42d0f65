// Working the order in hand: one step, or steps one after another.
ghost use Rattle.std.specs.Prelude.{◌≡◌, ◌<◌, ◌≤◌, true, false, length, Some, IfSome, ◌≢◌};
ghost use Rattle.ranking.specs.Place.{head_of};
ghost use Rattle.market.specs.declared.types.Call.TheVariants.{Work};
ghost use Rattle.market.specs.declared.types.Move.TheVariants.{Trade, Send, Rest};
ghost use Rattle.market.specs.Sides.{across_of};
ghost use Rattle.market.specs.States.{quotes_of, no_quotes, quoted, on, fits};
ghost use Rattle.market.specs.Steps.{ends, resting_near, move_of, act, step};
ghost use Rattle.market.specs.Calls.{in_hand};
ghost use Rattle.market.specs.Sound.{able};
ghost use Rattle.resting.specs.Sides.{first_shown};
ghost use Rattle.book.specs.Outcomes.{book_state, own_call, worked_as};
ghost use Rattle.book.specs.Works.{Did, WorksOn, Accepted};

use super::Book;
use crate::passes::{InHand, Next, Refused};
use board::Board;
use board::looks::{first_better, first_line};
use market::types::{Kind, Move, Order, Quotation, Reason, Refusal, Report};

// Rules 3 to 6: what becomes of an order that neither trades nor is sent.
fn ending(near: bool, full: bool, kind: Kind) -> Move
    ensures { result ≡ ends near full kind }
{
    if kind.never_rests() {
        Move::TakeOff(Reason::Unfilled)
    } else if kind.never_locks() && near {
        Move::TakeOff(Reason::WouldLock)
    } else if full {
        Move::TakeOff(Reason::SideFull)
    } else {
        Move::Rest
    }
}

impl Book {
    // Which rule applies first.
    fn decide<B: Board>(&self, o: Order, board: &B) -> Move
        ensures { result ≡ move_of (book_state self.now) (quotes_of (B.bids board.now) (B.offers board.now)) o }
    {
        let across = o.side.across();
        let is_near = |price| o.side.is_within(o.limit, price);
        let resting = self.orders.first_on(across);
        let quotation = first_line(board, across);
        if let Some(p) = resting
            && is_near(p.price)
            && (o.kind.trades_past() || !first_better(board, across, p.price))
        {
            return Move::Trade {
                number: p.number,
                price: p.price,
                shown: p.shown,
            };
        }
        if let Some(q) = quotation
            && o.kind.goes_out()
            && is_near(q.price)
        {
            if self.orders.has_no_route() {
                return Move::TakeOff(Reason::NoRoute);
            }
            return Move::Send(q);
        }
        ending(
            resting.is_some_and(|p| is_near(p.price))
                || quotation.is_some_and(|q| is_near(q.price)),
            self.orders.is_full(o.side),
            o.kind,
        )
    }

    fn trade(&mut self, o: Order, number: u32, price: u32, shown: u32) -> (Report, Option<Order>)
        requires { shown ≤ first_shown (on (across_of o.side) (book_state self.old)) }
        ensures { Did (act (Trade number price shown) (book_state self.old) no_quotes o) self.old self.new no_quotes result }
    {
        let k = o.shares.min(shown);
        self.orders.trade(o.side.across(), k);
        (Report::traded(o, number, price, k), o.remaining_after(k))
    }

    // The board's line is lessened, and a route is opened, by the same shares.
    fn send<B: Board>(
        &mut self,
        hand: &InHand,
        q: Quotation,
        board: &mut B,
    ) -> (Report, Option<Order>)
        requires first { Some q ≡ head_of (quoted (across_of hand.now.order.side) (quotes_of (B.bids board.old) (B.offers board.old))) }
        requires room { length (book_state self.old).routes < 64 }
        requires left { (book_state self.old).next ≢ 0 }
        ensures { Did (act (Send q) (book_state self.old) (quotes_of (B.bids board.old) (B.offers board.old)) hand.now.order) self.old self.new (quotes_of (B.bids board.new) (B.offers board.new)) result }
    {
        let o = hand.order;
        let k = o.shares.min(q.size);
        let _ = board.take(o.side.across(), q.venue, k);
        let number = self.orders.open_route(o, q, k);
        (Report::sent(o, q, number, k), o.remaining_after(k))
    }

    fn rest(&mut self, hand: &InHand) -> (Report, Option<Order>)
        requires number { fits hand.now.order.number (book_state self.old) ≡ true }
        requires room { length (on hand.now.order.side (book_state self.old)) < 256 }
        requires clear { resting_near hand.now.order (head_of (on (across_of hand.now.order.side) (book_state self.old))) ≡ false }
        ensures { Did (act Rest (book_state self.old) no_quotes hand.now.order) self.old self.new no_quotes result }
    {
        let o = hand.order;
        self.orders.rest(o.side, o.into());
        (Report::rested(o), None)
    }

    // Does what the first rule that applies says: the report, and what is left in hand.
    fn act<B: Board>(&mut self, hand: &InHand, board: &mut B) -> (Report, Option<Order>)
        requires { fits hand.now.order.number (book_state self.old) ≡ true }
        ensures did { Did (step (book_state self.old) (quotes_of (B.bids board.old) (B.offers board.old)) hand.now.order) self.old self.new (quotes_of (B.bids board.new) (B.offers board.new)) result }
        ensures able { IfSome result.1 (λ o. able o ≡ true) }
    {
        let o = hand.order;
        match self.decide(o, board) {
            Move::Trade {
                number,
                price,
                shown,
            } => self.trade(o, number, price, shown),
            Move::Send(q) => self.send(hand, q, board),
            Move::TakeOff(why) => (Report::off_hand(why, o), None),
            Move::Rest => self.rest(hand),
        }
    }

    // The pass, where it is this book's and its order may be worked.
    fn accepted(&self, pass: InHand) -> Result<InHand, Refused<InHand>>
        ensures { Accepted self.now pass result }
    {
        if pass.book == self.id && self.orders.may_work(pass.order.number) {
            return Ok(pass);
        }
        Err(Refused {
            why: Refusal::WrongPass,
            pass,
        })
    }

    // Does one step of the order in hand.
    pub fn work<B: Board>(
        &mut self,
        pass: InHand,
        board: &mut B,
    ) -> Result<(Next, Report), Refused<InHand>>
        ensures { worked_as result self.new (quotes_of (B.bids board.new) (B.offers board.new)) ≡ own_call self.old pass.book (quotes_of (B.bids board.old) (B.offers board.old)) Work (in_hand pass.order) }
    {
        let hand = self.accepted(pass)?;
        let (report, left) = self.act(&hand, board);
        Ok((hand.hand_on(left), report))
    }

    // Does steps, and writes their reports from the front of the list, until the order is done or the list is full.
    pub fn work_on<B: Board>(
        &mut self,
        pass: InHand,
        board: &mut B,
        reports: &mut [Report],
    ) -> Result<(Next, usize), Refused<InHand>>
        ensures { WorksOn pass self.old self.new (quotes_of (B.bids board.old) (B.offers board.old)) (quotes_of (B.bids board.new) (B.offers board.new)) reports.old reports.new result }
    {
        let mut hand = self.accepted(pass)?;
        for (n, slot) in reports.iter_mut().enumerate() {
            let (report, left) = self.act(&hand, board);
            *slot = report;
            match hand.hand_on(left) {
                Next::Done(ready) => return Ok((Next::Done(ready), n + 1)),
                Next::More(more) => hand = more,
            }
        }
        Ok((Next::More(hand), reports.len()))
    }
}
