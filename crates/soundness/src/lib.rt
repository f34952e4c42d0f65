// Every call keeps a sound book sound, and every step makes the move of its rule.
#![tactic(auto)]

ghost use Rattle.soundness.specs.Kept.{SoundKept};
ghost use Rattle.soundness.specs.Rules.{MovesByRule};

// Whatever a board may show and whatever call is made, a sound book stays sound, and the pass that comes back may be borne on it.
pub fn sound_kept()
    ensures { SoundKept }
{}

// The move of every step is the one that the rules make, and they make no other.
pub fn moves_by_rule()
    ensures { MovesByRule }
{}
