#![tactic(auto)]

pub mod admitted;
pub mod buffers;
pub mod front;
pub mod nulls;
pub mod pack;
pub mod source;
pub mod writable;
