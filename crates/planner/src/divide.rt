//! A day's grams divided between two accumulators, the state of one merged into the other.
use crate::day::Day;
use crate::fault::Fault;
use crate::feed::{Memory, close, feed};
use crate::pack::{Series, Ticks};
use crate::part::Part;
use crate::plan::{Batches, Plan};
use crate::row::Row;
use buffers::buffers::PrimitiveBuffers;
use columnar::column::PrimitiveColumn;
use columnar::items::{Items, Mask};
use columnar::packing::Plain;
use columnar::refusal::Refusal;
use groups::emit::EmitTo;
use groups::groups_accumulator::GroupsAccumulator;
use indexmap::IndexSet;
use operations::operation::Sum;
use std::alloc::Global;

/// What came of it: the rows of each part, the state rows merged, the groups in the end, and the first that differs.
#[derive(Clone, Copy)]
pub struct Division {
    pub first: usize,
    pub second: usize,
    pub states: usize,
    pub groups: usize,
    pub differs: Option<usize>,
}

/// State rows as they were written, and the group that each is merged into.
// The buffers borrow the memory, so that what they say of the answer is kept beside it, and the groups as a call takes them.
#[derive(Drop)]
struct States {
    memory: Memory<Plain, i64>,
    len: usize,
    masked: bool,
    indices: Vec<usize>,
}

impl States {
    /// The state rows, read where they were written.
    fn column(&self) -> Result<PrimitiveColumn<'_, i64>, Refusal> {
        let values = Items::from(self.memory.shown.get(0..self.len).unwrap_or(&[]));
        if !self.masked {
            return Ok(PrimitiveColumn::plain(values));
        }
        let mask = Mask::new(self.memory.bits.as_slice(), 0, values.len)?;
        PrimitiveColumn::new(values, mask)
    }
}

/// A part as an accumulator is handed it.
#[derive(Drop)]
struct Share<'x> {
    series: Series<Plain, i64>,
    ticks: &'x Ticks,
    part: &'x Part,
}

impl<'x> Share<'x> {
    fn new(heap: Global, rows: &[Row], plan: &'x Plan, part: &'x Part) -> Result<Share<'x>, Fault> {
        Ok(Share {
            series: Series::pack(heap, rows, |row| row.grams, 0i64)?,
            ticks: &plan.ticks,
            part,
        })
    }
}

/// Hands a part over.
fn feed_part<'a, T: GroupsAccumulator<'a, Values = PrimitiveColumn<'a, i64>>>(
    acc: &mut T,
    share: &'a Share<'_>,
) -> Result<(), Refusal>
    requires { T.GroupsAccumulator.sound acc.old }
    ensures { T.GroupsAccumulator.sound acc.new }
{
    let part = share.part;
    for turn in part.turns.iter() {
        feed(
            acc,
            &share.series,
            share.ticks,
            part.indices.as_slice(),
            *turn,
        )?;
    }
    Ok(())
}

/// A part's state rows, to be merged into these groups.
fn states_of(heap: Global, share: &Share<'_>, indices: Vec<usize>) -> Result<States, Fault> {
    let groups = share.part.groups.len();
    let mut memory = Memory::<Plain, i64>::new(heap, 0i64, groups)?;
    let (mut acc, mut out) = memory.lend(Sum);
    feed_part(&mut acc, share)?;
    acc.peek(EmitTo::All, &mut out)?;
    let len = out.len;
    let masked = out.masked;
    Ok(States {
        memory,
        len,
        masked,
        indices,
    })
}

/// Merges state rows.
fn merge_states<'a, T: GroupsAccumulator<'a, States = PrimitiveColumn<'a, i64>>>(
    acc: &mut T,
    states: &'a States,
    total: usize,
) -> Result<(), Refusal>
    requires { T.GroupsAccumulator.sound acc.old }
    ensures { T.GroupsAccumulator.sound acc.new }
{
    let column = states.column()?;
    acc.merge_batch(&column, states.indices.as_slice(), total)
}

/// What a part's groups show once the state rows are merged into them.
fn merged(heap: Global, share: &Share<'_>, states: &States) -> Result<Vec<Option<i64>>, Fault> {
    let groups = share.part.groups.len();
    let mut memory = Memory::<Plain, i64>::new(heap, 0i64, groups)?;
    let (mut acc, mut out) = memory.lend(Sum);
    feed_part(&mut acc, share)?;
    merge_states(&mut acc, states, groups)?;
    let mut shown = Vec::new(heap);
    close(&mut acc, EmitTo::All, &mut out, &mut shown)?;
    Ok(shown)
}

/// Finds the groups of one part in another, where those that are new get the next numbers.
fn open_all(heap: Global, part: &mut Part, groups: &IndexSet<usize>) -> Result<Vec<usize>, Fault> {
    let mut indices = Vec::new(heap);
    for group in groups {
        indices.push(part.open(*group)?)?;
    }
    Ok(indices)
}

/// The first group for which a part does not show the day's figure.
fn first_other(part: &Part, shown: &[Option<i64>], grams: &[Option<i64>]) -> Option<usize> {
    grams.iter().enumerate().position(|(group, figure)| {
        let number = part.groups.get_index_of(&group);
        number.and_then(|number| shown.get(number)) != Some(figure)
    })
}

/// Divides the day's rows at the middle, and compares what the two parts make together with the undivided day's grams.
// The heap is a handle of its own, and a plan is made of a day: neither is part of it.
pub fn divide(
    heap: Global,
    day: &Day,
    plan: &Plan,
    grams: &[Option<i64>],
) -> Result<Division, Fault> {
    let rows = day.rows.as_slice();
    let middle = rows.len() / 2;
    let mut first = Part::new(heap, day, plan, 0..middle)?;
    let second = Part::new(heap, day, plan, middle..rows.len())?;
    let indices = open_all(heap, &mut first, &second.groups)?;
    let states = states_of(heap, &Share::new(heap, rows, plan, &second)?, indices)?;
    let merged_rows = states.len;
    let shown = merged(heap, &Share::new(heap, rows, plan, &first)?, &states)?;
    Ok(Division {
        first: first.batches(rows).len(),
        second: second.batches(rows).len(),
        states: merged_rows,
        groups: shown.len(),
        differs: first_other(&first, shown.as_slice(), grams),
    })
}
