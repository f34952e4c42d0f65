// A price-time book of one stock: the house that makes it, its passes and its calls.
#![tactic(auto)]

pub mod book;
mod checks;
pub mod house;
pub mod passes;
