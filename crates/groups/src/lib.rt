#![tactic(auto)]

pub mod checks;
pub mod emit;
pub mod groups_accumulator;
pub mod limits;
pub mod marks;
pub mod moves;
pub mod null_state;
