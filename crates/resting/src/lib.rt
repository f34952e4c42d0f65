// The state under a book: both sides, the open routes and the next number.
#![tactic(auto)]

pub mod orders;
pub mod sides;
