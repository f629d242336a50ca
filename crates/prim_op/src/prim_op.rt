use crate::op_groups::OpGroupsAccumulator;
use columnar::packing::Plain;

/// The accumulator of an operation over primitive columns.
pub type PrimitiveGroupsAccumulator<'m, T, O> = OpGroupsAccumulator<'m, T, O, Plain, T>;
