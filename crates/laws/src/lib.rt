// The laws of one call and of whole runs, each on the contract of a function.
#![tactic(auto)]

ghost use Rattle.laws.specs.Equal.{EqualAnswerAlike, EqualOrToldApart, EqualExactly};
ghost use Rattle.laws.specs.Happens.{NothingElse};
ghost use Rattle.laws.specs.Reached.{ReachedSound};
ghost use Rattle.laws.specs.Dealings.{SentWithin, BoardElseUnmoved, NoTradeThrough, RemainderNeverGrows, RefusalsChangeNothing, RefusedExactly};
ghost use Rattle.laws.specs.Conserve.{SharesConserved};
ghost use Rattle.laws.specs.Priority.{TimePriority};

// Two books are equal exactly when no further string of calls tells them apart.
pub fn equal_exactly()
    ensures alike { EqualAnswerAlike }
    ensures apart { EqualOrToldApart }
    ensures exactly { EqualExactly }
{}

// Every call does one of the things that can happen, and nothing else.
pub fn nothing_else_happens()
    ensures { NothingElse }
{}

// Every call deals fairly: what its reports say of the board, of prices and of what is left in hand holds, and a refusal changes nothing.
pub fn calls_deal_fairly()
    ensures sent { SentWithin }
    ensures board { BoardElseUnmoved }
    ensures through { NoTradeThrough }
    ensures remainder { RemainderNeverGrows }
    ensures refusals { RefusalsChangeNothing }
    ensures refused { RefusedExactly }
{}

// Every book that is reached from a new one is sound.
pub fn reached_sound()
    ensures { ReachedSound }
{}

// No share is lost, from a new book through any calls.
pub fn shares_conserved()
    ensures { SharesConserved }
{}

// From a new book through any calls, no trade takes a latecomer while an earlier order at its side and price is still there.
pub fn time_priority()
    ensures { TimePriority }
{}
