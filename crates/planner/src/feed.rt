//! An accumulator over a day: fed batch by batch, and closed group by group.
ghost use Rattle.prim_op.specs.Means.{Sound};

use crate::fault::Fault;
use crate::pack::{Series, Ticks};
use crate::plan::{Plan, Turn};
use crate::row::Row;
use buffers::buffers::ColumnBuffers;
use buffers::pack::bytes_for;
use buffers::writable::Writable;
use columnar::column::FlatColumn;
use columnar::refusal::Refusal;
use columnar::rows::Rows;
use groups::emit::EmitTo;
use groups::groups_accumulator::GroupsAccumulator;
use groups::limits::MOST;
use operations::operation::Operation;
use prim_op::op_groups::OpGroupsAccumulator;
use std::alloc::{AllocError, Global};
use walk::columns::Accumulate;

/// Memory to lend: an accumulator's, and an answer's.
// Lists side by side, as the library borrows them.
#[derive(Drop)]
pub struct Memory<L: Writable<S>, S> {
    pub values: Vec<L::Item>,
    pub marks: Vec<bool>,
    pub shown: Vec<S>,
    pub bits: Vec<u8>,
}

impl<L: Writable<S>, S: Clone + Default + Drop> Memory<L, S>
where
    L::Item: Copy,
{
    /// For so many groups.
    pub fn new(heap: Global, start: L::Item, groups: usize) -> Result<Memory<L, S>, AllocError> {
        Ok(Memory {
            values: vec![in heap; start; groups]?,
            marks: vec![in heap; false; groups]?,
            shown: vec![in heap; S::default(); L::places(groups)]?,
            bits: vec![in heap; 0u8; bytes_for(groups)]?,
        })
    }
}

impl<L: Writable<S>, S> Memory<L, S>
where
    L::Item: Copy,
{
    /// An accumulator of no groups in this memory, and buffers for its answers.
    pub fn lend<O: Operation<L::Item>>(
        &mut self,
        op: O,
    ) -> (
        OpGroupsAccumulator<'_, L::Item, O, L, S>,
        ColumnBuffers<'_, L, S>,
    )
        ensures { Sound O.Operation.start result.0 }
    {
        (
            OpGroupsAccumulator::new(&mut self.values, &mut self.marks, op, MOST, MOST),
            ColumnBuffers::new(&mut self.shown, &mut self.bits),
        )
    }
}

// That an accumulator is sound stands at each function: a struct with this as its ghost field is not covered, as a bound
// of it has ghost members.
/// Hands a batch over.
pub fn feed<
    'a,
    S: Clone + Default + Drop,
    L: Writable<S>,
    T: GroupsAccumulator<'a, Values = FlatColumn<'a, L, S>>,
>(
    acc: &mut T,
    series: &'a Series<L, S>,
    ticks: &Ticks,
    indices: &[usize],
    turn: Turn,
) -> Result<(), Refusal>
where
    L::Item: Copy,
    requires { T.GroupsAccumulator.sound acc.old }
    ensures { T.GroupsAccumulator.sound acc.new }
{
    let column = series.column(turn)?;
    let filter = ticks.filter(turn)?;
    acc.update_batch(&column, turn.of(indices), &filter, turn.total)
}

/// Hands a batch over, unless it was refused when the plan was made.
// A function of its own: that the accumulator is sound is lost where an `if` joins before a call.
fn feed_counted<
    'a,
    S: Clone + Default + Drop,
    L: Writable<S>,
    T: GroupsAccumulator<'a, Values = FlatColumn<'a, L, S>>,
>(acc: &mut T, series: &'a Series<L, S>, plan: &Plan, turn: Turn) -> Result<(), Refusal>
where
    L::Item: Copy,
    requires { T.GroupsAccumulator.sound acc.old }
    ensures { T.GroupsAccumulator.sound acc.new }
{
    if !turn.is_counted() {
        return Ok(());
    }
    feed(acc, series, &plan.ticks, plan.indices.as_slice(), turn)
}

/// Reads an answer back from its buffers.
fn take_answer<'a, S, L: Writable<S>>(
    out: &ColumnBuffers<'a, L, S>,
    shown: &mut Vec<Option<L::Item>>,
) -> Result<(), Fault>
where
    L::Item: Copy,
{
    let column = out.column();
    shown.extend((0..column.len()).filter_map(|j| column.row(j)))?;
    Ok(())
}

/// Closes groups, and adds what they show.
pub fn close<'a, S, L: Writable<S>, T: GroupsAccumulator<'a, Answers = ColumnBuffers<'a, L, S>>>(
    acc: &mut T,
    emit_to: EmitTo,
    out: &mut ColumnBuffers<'a, L, S>,
    shown: &mut Vec<Option<L::Item>>,
) -> Result<(), Fault>
where
    L::Item: Copy,
    requires { T.GroupsAccumulator.sound acc.old }
    ensures { T.GroupsAccumulator.sound acc.new }
{
    acc.evaluate(emit_to, out)?;
    take_answer(out, shown)
}

/// Each group's figure, in the order of their opening, by the accumulator that makes the plan: what it refuses is handed
/// to none.
pub fn lead_with<
    L: Writable<S> + Accumulate<S>,
    S: Clone + Default + Drop,
    O: Operation<L::Item> + Drop,
    F: Fn(&Row) -> Option<L::Item>,
>(
    heap: Global,
    op: O,
    rows: &[Row],
    cell: F,
    plan: &mut Plan,
) -> Result<Vec<Option<L::Item>>, Fault>
where
    L::Item: Copy,
    requires { F.IsAlwaysCallable cell }
{
    let start = O::starting_value();
    let series: Series<L, S> = Series::pack(heap, rows, cell, start)?;
    let mut memory: Memory<L, S> = Memory::new(heap, start, plan.most_groups)?;
    let (mut acc, mut out) = memory.lend(op);
    let mut shown = Vec::new(heap);
    for part in rows.chunks(plan.size.get()) {
        let turn = plan.propose(part)?;
        let indices = plan.indices.as_slice();
        let refusal = feed(&mut acc, &series, &plan.ticks, indices, turn).err();
        let closes = plan.settle(turn, refusal)?;
        close(&mut acc, EmitTo::First(closes), &mut out, &mut shown)?;
    }
    close(&mut acc, EmitTo::All, &mut out, &mut shown)?;
    Ok(shown)
}

/// Each group's figure, in the order of their opening, by a plan that stands: the batches that were refused are not handed
/// over.
// Alike but for its loop: one function for both would take the loop as a closure over accumulator, buffers and plan, and
// be no plainer.
pub fn follow_with<
    L: Writable<S> + Accumulate<S>,
    S: Clone + Default + Drop,
    O: Operation<L::Item> + Drop,
    F: Fn(&Row) -> Option<L::Item>,
>(heap: Global, op: O, rows: &[Row], cell: F, plan: &Plan) -> Result<Vec<Option<L::Item>>, Fault>
where
    L::Item: Copy,
    requires { F.IsAlwaysCallable cell }
{
    let start = O::starting_value();
    let series: Series<L, S> = Series::pack(heap, rows, cell, start)?;
    let mut memory: Memory<L, S> = Memory::new(heap, start, plan.most_groups)?;
    let (mut acc, mut out) = memory.lend(op);
    let mut shown = Vec::new(heap);
    for turn in plan.turns.iter() {
        feed_counted(&mut acc, &series, plan, *turn)?;
        close(&mut acc, EmitTo::First(turn.closes), &mut out, &mut shown)?;
    }
    close(&mut acc, EmitTo::All, &mut out, &mut shown)?;
    Ok(shown)
}
