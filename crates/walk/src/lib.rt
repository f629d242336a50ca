#![tactic(auto)]

pub mod accumulate;
pub mod columns;
