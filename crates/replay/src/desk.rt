// The desk: it follows the instructions of a day over one book and a table board, and notes what is reported.
ghost use Rattle.std.specs.Prelude.{◌≡◌, [], ◌∷◌};
ghost use Rattle.market.specs.Reports.{refusal_number};
ghost use Rattle.market.specs.declared.types.Call.TheVariants.{Enter, Replace, Cut, Cancel, Reply, Close, Expire};
ghost use Rattle.order_file.specs.declared.instructions.Instruction.TheVariants.{Quote as Quote'};
ghost use Rattle.replay.specs.Days.{refusal};
ghost use Rattle.replay.specs.Records.{Noted};
ghost use Rattle.replay.specs.Desks.{IsOwn, MayWork, Finished, Performed, Followed};

use crate::record::{Line, Record};
use book::book::Book;
use book::passes::{Ended, InHand, Next, Ready, Refused};
use market::types::{Quotation, Refusal, Side, Terms};
use order_file::instructions::Instruction;
use table_board::table::TableBoard;

// The pass between two instructions: no order is in hand then. Both cases hold a pass and neither is a failure, so this is no Result.
pub enum Stage {
    Open(Ready),
    Over(Ended),
}

// A book and a board, and what was noted of them. The pass is no field: each method takes its own kind, which a field could not say.
#[derive(Drop)]
pub(crate) struct Desk {
    pub(crate) book: Book,
    pub(crate) board: TableBoard,
    pub(crate) log: Record,
}

impl Desk {
    // Notes why a call was refused, and gives the pass that it handed back.
    fn turned_down(&mut self, refused: Refused<Ready>) -> Ready
        ensures pass { result ≡ refused.pass }
        ensures noted { Noted (refusal (refusal_number refused.why) ∷ []) self.old.log self.new.log }
        ensures book { self.new.book ≡ self.old.book }
        ensures board { self.new.board ≡ self.old.board }
    {
        let Refused { why, pass } = refused;
        self.log.note(Line(Err(why)));
        pass
    }

    // Works the order in hand to its end.
    fn finish(&mut self, hand: InHand) -> Ready
        requires { MayWork self.old hand }
        ensures { Finished self.old hand self.new result }
    {
        let mut hand = hand;
        loop {
            // Not let-else: what it lets go would hold the pass that a refusal hands back, and a pass is not dropped.
            let (next, report) = match self.book.work(hand, &mut self.board) {
                Ok(worked) => worked,
                Err(_) => unreachable!(),
            };
            self.log.note(Line(Ok(report)));
            match next {
                Next::Done(ready) => return ready,
                Next::More(rest) => hand = rest,
            }
        }
    }

    fn enter(&mut self, pass: Ready, side: Side, t: Terms) -> Ready
        requires { IsOwn self.old (Stage.Open pass) }
        ensures { Performed (Enter side t) self.old (Stage.Open pass) self.new (Stage.Open result) }
    {
        match self.book.enter(pass, side, t) {
            Err(refused) => self.turned_down(refused),
            Ok((hand, report)) => {
                self.log.note(Line(Ok(report)));
                self.finish(hand)
            }
        }
    }

    fn replace(&mut self, pass: Ready, t: Terms, number: u32) -> Ready
        requires { IsOwn self.old (Stage.Open pass) }
        ensures { Performed (Replace t number) self.old (Stage.Open pass) self.new (Stage.Open result) }
    {
        match self.book.replace(pass, t, number) {
            Err(refused) => self.turned_down(refused),
            Ok((hand, off, entered)) => {
                self.log.note(Line(Ok(off)));
                self.log.note(Line(Ok(entered)));
                self.finish(hand)
            }
        }
    }

    fn reply(&mut self, pass: Ready, filled: u32, number: u32) -> Ready
        requires { IsOwn self.old (Stage.Open pass) }
        ensures { Performed (Reply filled number) self.old (Stage.Open pass) self.new (Stage.Open result) }
    {
        match self.book.reply(pass, filled, number) {
            Err(refused) => self.turned_down(refused),
            Ok((next, report)) => {
                self.log.note(Line(Ok(report)));
                match next {
                    Next::Done(back) => back,
                    Next::More(hand) => self.finish(hand),
                }
            }
        }
    }

    fn cut(&mut self, pass: &Ready, size: u32, user: u32, number: u32)
        requires { IsOwn self.old (Stage.Open pass.now) }
        ensures { Performed (Cut size user number) self.old (Stage.Open pass.now) self.new (Stage.Open pass.now) }
    {
        self.log.note(Line(self.book.cut(pass, size, user, number)));
    }

    fn cancel(&mut self, pass: &Ready, user: u32, number: u32)
        requires { IsOwn self.old (Stage.Open pass.now) }
        ensures { Performed (Cancel user number) self.old (Stage.Open pass.now) self.new (Stage.Open pass.now) }
    {
        self.log.note(Line(self.book.cancel(pass, user, number)));
    }

    fn expire(&mut self, pass: &Ended)
        requires { IsOwn self.old (Stage.Over pass.now) }
        ensures { Performed Expire self.old (Stage.Over pass.now) self.new (Stage.Over pass.now) }
    {
        self.log.note(Line(self.book.expire(pass)));
    }

    fn late_reply(&mut self, pass: &Ended, filled: u32, number: u32)
        requires { IsOwn self.old (Stage.Over pass.now) }
        ensures { Performed (Reply filled number) self.old (Stage.Over pass.now) self.new (Stage.Over pass.now) }
    {
        match self.book.late_reply(pass, filled, number) {
            Err(why) => self.log.note(Line(Err(why))),
            Ok((report, off)) => {
                self.log.note(Line(Ok(report)));
                if let Some(unfilled) = off {
                    self.log.note(Line(Ok(unfilled)));
                }
            }
        }
    }

    fn close(&mut self, pass: Ready) -> Stage
        requires { IsOwn self.old (Stage.Open pass) }
        ensures { Performed Close self.old (Stage.Open pass) self.new result }
    {
        match self.book.close(pass) {
            Ok(ended) => Stage::Over(ended),
            Err(refused) => Stage::Open(self.turned_down(refused)),
        }
    }

    fn quote(&mut self, side: Side, q: Quotation)
        ensures { (p : Stage) → Followed (Quote' side q) self.old p self.new p }
    {
        if let Err(why) = self.board.quote(side, q) {
            self.log.note(Line(Err(why)));
        }
    }

    // An instruction while trading is open.
    fn while_open(&mut self, pass: Ready, i: Instruction) -> Stage
        requires { IsOwn self.old (Stage.Open pass) }
        ensures { Followed i self.old (Stage.Open pass) self.new result }
    {
        match i {
            Instruction::Enter(side, t) => Stage::Open(self.enter(pass, side, t)),
            Instruction::Replace(t, number) => Stage::Open(self.replace(pass, t, number)),
            Instruction::Reply { size, number } => Stage::Open(self.reply(pass, size, number)),
            Instruction::Cut { size, user, number } => {
                self.cut(&pass, size, user, number);
                Stage::Open(pass)
            }
            Instruction::Cancel { user, number } => {
                self.cancel(&pass, user, number);
                Stage::Open(pass)
            }
            Instruction::Quote(side, q) => {
                self.quote(side, q);
                Stage::Open(pass)
            }
            Instruction::Close => self.close(pass),
            Instruction::Expire => {
                self.log.note(Line(Err(Refusal::NoPass)));
                Stage::Open(pass)
            }
        }
    }

    // An instruction once trading is over.
    fn once_over(&mut self, pass: Ended, i: Instruction) -> Stage
        requires { IsOwn self.old (Stage.Over pass) }
        ensures { Followed i self.old (Stage.Over pass) self.new result }
    {
        match i {
            Instruction::Reply { size, number } => self.late_reply(&pass, size, number),
            Instruction::Expire => self.expire(&pass),
            Instruction::Quote(side, q) => self.quote(side, q),
            Instruction::Enter(..)
            | Instruction::Replace(..)
            | Instruction::Cut { .. }
            | Instruction::Cancel { .. }
            | Instruction::Close => self.log.note(Line(Err(Refusal::NoPass))),
        }
        Stage::Over(pass)
    }

    // Follows one instruction, with the order that it takes in hand worked to its end.
    pub(crate) fn follow(&mut self, stage: Stage, i: Instruction) -> Stage
        requires { IsOwn self.old stage }
        ensures { Followed i self.old stage self.new result }
    {
        match stage {
            Stage::Open(pass) => self.while_open(pass, i),
            Stage::Over(pass) => self.once_over(pass, i),
        }
    }
}
