// Lists kept in rank, written once for every kind of line.
#![tactic(auto)]

pub mod limit;
pub mod list;
pub mod rank;
