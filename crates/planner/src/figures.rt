//! The nine figures of a day's groups.
use crate::day::Day;
use crate::fault::Fault;
use crate::feed::{follow_with, lead_with};
use crate::plan::Plan;
use columnar::packing::{Packed, Plain};
use operations::boolean::{And, Or};
use operations::operation::{Latest, Max, Min, Stamp, Sum};
use std::alloc::Global;

/// A figure for each group, in the order of their opening.
// A list for each figure: so the accumulators answer, one after another, and so the table has its columns.
#[derive(Drop)]
pub struct Figures {
    pub all_signed: Vec<Option<bool>>,
    pub any_signed: Vec<Option<bool>>,
    pub grams: Vec<Option<i64>>,
    pub parcels: Vec<Option<u64>>,
    pub least_floor: Vec<Option<i32>>,
    pub greatest_floor: Vec<Option<i32>>,
    pub least_altitude: Vec<Option<i64>>,
    pub greatest_altitude: Vec<Option<i64>>,
    pub latest: Vec<Option<Stamp>>,
}

impl Figures {
    /// Feeds one accumulator after another. The first makes the plan, and the others follow it.
    // The heap is a handle of its own, and a plan is made of a day: neither is part of it.
    pub fn new(heap: Global, day: &Day, plan: &mut Plan) -> Result<Figures, Fault> {
        let rows = day.rows.as_slice();
        let grams = lead_with::<Plain, i64, _, _>(heap, Sum, rows, |row| row.grams, plan)?;
        Ok(Figures {
            all_signed: follow_with::<Packed, u8, _, _>(heap, And, rows, |row| row.signed, plan)?,
            any_signed: follow_with::<Packed, u8, _, _>(heap, Or, rows, |row| row.signed, plan)?,
            grams,
            parcels: follow_with::<Plain, u64, _, _>(heap, Sum, rows, |row| row.parcels, plan)?,
            least_floor: follow_with::<Plain, i32, _, _>(heap, Min, rows, |row| row.floor, plan)?,
            greatest_floor: follow_with::<Plain, i32, _, _>(
                heap,
                Max,
                rows,
                |row| row.floor,
                plan,
            )?,
            least_altitude: follow_with::<Plain, i64, _, _>(
                heap,
                Min,
                rows,
                |row| row.altitude,
                plan,
            )?,
            greatest_altitude: follow_with::<Plain, i64, _, _>(
                heap,
                Max,
                rows,
                |row| row.altitude,
                plan,
            )?,
            latest: follow_with::<Plain, Stamp, _, _>(heap, Latest, rows, |row| row.moment, plan)?,
        })
    }
}
