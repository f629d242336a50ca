use crate::op_groups::OpGroupsAccumulator;
use columnar::packing::Packed;

/// The accumulator of an operation over packed boolean columns.
pub type BooleanGroupsAccumulator<'m, O> = OpGroupsAccumulator<'m, bool, O, Packed, u8>;
