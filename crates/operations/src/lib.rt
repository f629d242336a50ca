#![tactic(auto)]

pub mod boolean;
pub mod bounded;
pub mod laws;
pub mod operation;
pub mod shows;
