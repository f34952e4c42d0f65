// The checks that refuse, and the numbers of refusals and of reasons.
ghost use Rattle.std.specs.Prelude.{◌≡◌};
ghost use Rattle.market.specs.Reports.{refusal_number, reason_number};
ghost use Rattle.market.specs.Calls.{unless, verdict};

use crate::types::{Reason, Refusal};

impl Refusal {
    // Refuses with this, unless what is checked holds.
    pub fn unless(self, holds: bool) -> Result<(), Refusal>
        ensures { result ≡ verdict (unless holds self) }
    {
        if holds { Ok(()) } else { Err(self) }
    }
}

impl From<Refusal> for u32 {
    ghost from_gives = { λ why n. n ≡ refusal_number why };

    fn from(why: Refusal) -> u32 {
        why as u32
    }
}

impl From<Reason> for u32 {
    ghost from_gives = { λ why n. n ≡ reason_number why };

    fn from(why: Reason) -> u32 {
        why as u32
    }
}
