#![tactic(auto)]

pub mod hash;
pub mod key;
