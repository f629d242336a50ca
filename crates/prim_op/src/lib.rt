#![tactic(auto)]

pub mod any_packing;
pub mod bool_op;
pub mod op_groups;
pub mod prim_op;
pub mod walked;
