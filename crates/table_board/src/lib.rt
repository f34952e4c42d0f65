// A board that keeps its quotations in a table, a line for each venue and side.
#![tactic(auto)]

mod lists;
pub mod table;
