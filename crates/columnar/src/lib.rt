#![tactic(auto)]

pub mod bits;
pub mod column;
pub mod filter;
pub mod items;
pub mod list;
pub mod packing;
pub mod refusal;
pub mod rows;
pub mod validity;
