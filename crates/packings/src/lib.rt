//! A packing beside the library's own two, and a caller that takes any packing that can be written.
#![tactic(auto)]

pub mod any;
pub mod bytes;
