// The order file: its instructions, its reader, its writer and its faults.
#![tactic(auto)]

pub mod faults;
mod fields;
pub mod instructions;
mod lines;
pub mod reader;
pub mod writer;
