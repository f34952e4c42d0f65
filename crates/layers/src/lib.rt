// Boards that stand over another board, and show only some of its lines.
#![tactic(auto)]

pub mod band;
pub mod layer;
mod marks;
pub mod piles;
pub mod screens;
pub mod self_help;
