#![tactic(auto)]

pub mod accumulator;
pub mod blanks;
pub mod shows;
pub mod span;
