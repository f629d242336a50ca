//! Batches at the limits of an accumulator: what is accepted, and by which number the others are refused.
#![tactic(auto)]

use buffers::buffers::PrimitiveBuffers;
use columnar::column::PrimitiveColumn;
use columnar::filter::Filter;
use columnar::items::Items;
use columnar::refusal::Refusal;
use groups::emit::EmitTo;
use groups::groups_accumulator::GroupsAccumulator;
use operations::operation::Sum;
use prim_op::prim_op::PrimitiveGroupsAccumulator;
use std::alloc::{AllocError, Global};
use std::io;

/// Values of any type, and the group of each, of so many groups in all.
#[derive(Drop)]
struct Batch<'a, V> {
    column: PrimitiveColumn<'a, V>,
    indices: &'a [usize],
    groups: usize,
}

/// One batch into an accumulator.
fn hand_over<'a, V: Copy, T: GroupsAccumulator<'a, Values = PrimitiveColumn<'a, V>>>(
    acc: &mut T,
    batch: &Batch<'a, V>,
) -> Result<(), Refusal>
    requires { T.GroupsAccumulator.sound acc.old }
    ensures { T.GroupsAccumulator.sound acc.new }
{
    acc.update_batch(&batch.column, batch.indices, &Filter::none(), batch.groups)
}

/// One batch into an accumulator, and all its groups shown.
fn add_up<
    'a,
    V: Copy,
    T: GroupsAccumulator<'a, Values = PrimitiveColumn<'a, V>, Answers = PrimitiveBuffers<'a, V>>,
>(sums: &mut T, batch: &Batch<'a, V>, out: &mut PrimitiveBuffers<'a, V>) -> Result<(), Refusal>
    requires { T.GroupsAccumulator.sound sums.old }
{
    hand_over(sums, batch)?;
    sums.evaluate(EmitTo::All, out)
}

/// The figure of the first group shown.
fn first_of<V: Copy>(out: &PrimitiveBuffers<'_, V>) -> Option<V> {
    out.column().row(0).flatten()
}

/// The sum of so many rows of 1 in so many groups, row j in group j modulo their number: that of the first group.
fn sum_of_first(
    heap: Global,
    rows: usize,
    groups: usize,
) -> Result<Result<Option<i64>, Refusal>, AllocError> {
    let ones = vec![in heap; 1i64; rows]?;
    let indices = (0..groups).cycle().take(rows).collect::<Vec<usize>>(heap)?;
    let mut values = vec![in heap; 0i64; 70_000]?;
    let mut marks = vec![in heap; false; 70_000]?;
    let mut shown = vec![in heap; 0i64; 70_000]?;
    let mut bits = vec![in heap; 0u8; 9_000]?;
    let mut sums = PrimitiveGroupsAccumulator::new(
        values.as_mut_slice(),
        marks.as_mut_slice(),
        Sum,
        100_000,
        100_000,
    );
    let batch = Batch {
        column: PrimitiveColumn::plain(Items::from(ones.as_slice())),
        indices: indices.as_slice(),
        groups,
    };
    let mut out = PrimitiveBuffers::new(shown.as_mut_slice(), bits.as_mut_slice());
    let added = add_up(&mut sums, &batch, &mut out);
    Ok(added.map(|()| first_of(&out)))
}

fn report(rt: &HostRuntime, rows: usize, groups: usize) -> io::Result<()> {
    match sum_of_first(rt.alloc(), rows, groups)? {
        Ok(Some(sum)) => println!(rt;
            "{rows} rows, {groups} groups: accepted, the first group shows {sum}"
        ),
        Ok(None) => println!(rt; "{rows} rows, {groups} groups: accepted, no group"),
        Err(refusal) => println!(rt; "{rows} rows, {groups} groups: refused by {refusal}"),
    }
}

fn main(rt: HostRuntime) -> io::Result<()> {
    for (rows, groups) in [
        (0, 0),
        (1, 1),
        (65_535, 7),
        (65_536, 1),
        (65_537, 1),
        (65_536, 65_536),
        (65_536, 65_537),
        (8, 9),
    ] {
        report(&rt, rows, groups)?;
    }
    Ok(())
}
