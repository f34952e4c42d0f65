// The terms of the market: what is bought and sold, what is legal, and what is said of it.
#![tactic(auto)]

pub mod legal;
pub mod ranks;
pub mod refusals;
pub mod reports;
pub mod shares;
pub mod sides;
pub mod types;
pub mod written;
