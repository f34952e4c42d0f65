// A whole session, from the bytes of an order file to the text of its reports.
#![tactic(auto)]

pub mod day;
pub mod desk;
pub mod record;
