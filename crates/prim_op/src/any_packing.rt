ghost use Rattle.std.specs.Prelude.{◌≡◌, min, length};
ghost use Rattle.groups.specs.Limits.{cap};
ghost use Rattle.groups.specs.Tally.{fresh};
ghost use Rattle.operations.proofs.Credits.{primitive_laws};
ghost use Rattle.prim_op.specs.Means.{kind_of, meaning_of, Sound};

use crate::op_groups::OpGroupsAccumulator;
use crate::walked::{Walked, as_walked};
use buffers::buffers::ColumnBuffers;
use buffers::writable::Writable;
use columnar::column::FlatColumn;
use columnar::filter::Filter;
use columnar::refusal::Refusal;
use groups::emit::EmitTo;
use groups::groups_accumulator::{Commuting, GroupsAccumulator};
use operations::operation::Operation;
use std::marker::PhantomData;
use walk::accumulate::Visitor;

/// The accumulator of an operation over columns of any packing that can be written: of the packing no more is asked.
// `OpGroupsAccumulator` asks besides how columns are walked, since packed booleans have a walk of their own; this one walks all
// by `accumulate`. Its calls are the other's, over the same rows.
#[derive(Drop)]
pub struct PackingGroupsAccumulator<'m, T, O, L, S> {
    pub(crate) inner: OpGroupsAccumulator<'m, T, O, Walked<L>, S>,
}

impl<'m, T: Copy, O: Operation<T>, L, S> PackingGroupsAccumulator<'m, T, O, L, S> {
    /// An accumulator of no groups, as `OpGroupsAccumulator::new` makes one.
    pub fn new(
        values: &'m mut [T],
        marks: &'m mut [bool],
        op: O,
        max_rows: usize,
        max_groups: usize,
    ) -> PackingGroupsAccumulator<'m, T, O, L, S>
        ensures sound { Sound O.Operation.start result.inner }
        ensures fresh { meaning_of result.inner ≡ fresh (kind_of O.Operation) (record { rows = min max_rows cap; groups = min (min max_groups cap) (min (length values.old) (length marks.old)); pairs = 0 }) }
    {
        PackingGroupsAccumulator {
            inner: OpGroupsAccumulator::new(values, marks, op, max_rows, max_groups),
        }
    }
}

/// The accumulator that is given, of the same memory, whatever the walk of its packing is.
impl<'m, T: Copy, O: Operation<T>, L, S> From<OpGroupsAccumulator<'m, T, O, L, S>>
    for PackingGroupsAccumulator<'m, T, O, L, S> {
    ghost from_gives = { λ acc any. (meaning_of any.inner ≡ meaning_of acc) × ((Sound O.Operation.start acc → Sound O.Operation.start any.inner) × ((any.inner.values ≡ acc.values) × ((any.inner.marks ≡ acc.marks) × (any.inner.limits ≡ acc.limits)))) };

    fn from(acc: OpGroupsAccumulator<'m, T, O, L, S>) -> PackingGroupsAccumulator<'m, T, O, L, S> {
        PackingGroupsAccumulator {
            inner: OpGroupsAccumulator {
                values: acc.values,
                marks: acc.marks,
                limits: acc.limits,
                op: acc.op,
                packing: PhantomData,
            },
        }
    }
}

/// A visit is that of the accumulator inside.
impl<'m, T: Copy, O: Operation<T>, L, S> Visitor<T> for PackingGroupsAccumulator<'m, T, O, L, S> {
    ghost Model = { ⟦<OpGroupsAccumulator<'m, T, O, Walked<L>, S> as Visitor<T>>⟧.Model };

    ghost model = { λ s. ⟦<OpGroupsAccumulator<'m, T, O, Walked<L>, S> as Visitor<T>>⟧.model s.inner };

    ghost fixed = { λ s. ⟦<OpGroupsAccumulator<'m, T, O, Walked<L>, S> as Visitor<T>>⟧.fixed s.inner };

    ghost after = { ⟦<OpGroupsAccumulator<'m, T, O, Walked<L>, S> as Visitor<T>>⟧.after };

    ghost fit = { ⟦<OpGroupsAccumulator<'m, T, O, Walked<L>, S> as Visitor<T>>⟧.fit };

    fn visit(&mut self, group: usize, value: T) {
        self.inner.visit(group, value)
    }
}

impl<'a, 'm, T: Copy + 'a, O: Operation<T>, L: Writable<S, Item = T> + 'a, S: 'a> GroupsAccumulator<
    'a,
> for PackingGroupsAccumulator<'m, T, O, L, S> {
    type Value = T;

    type State = T;

    type Out = T;

    type Values = FlatColumn<'a, L, S>;

    type States = FlatColumn<'a, L, S>;

    type Answers = ColumnBuffers<'a, L, S>;

    type StateBuffers = ColumnBuffers<'a, L, S>;

    ghost kind = { kind_of O.Operation };

    ghost laws = { primitive_laws O.Operation.combines O.Operation.start };

    ghost meaning = { λ s. meaning_of s.inner };

    ghost sound = { λ s. Sound O.Operation.start s.inner };

    fn update_batch(
        &mut self,
        values: &FlatColumn<'a, L, S>,
        group_indices: &[usize],
        opt_filter: &Filter<'_>,
        total_num_groups: usize,
    ) -> Result<(), Refusal> {
        let rows = as_walked(values);
        self.inner
            .update_rows(&rows, group_indices, opt_filter, total_num_groups)
    }

    fn merge_batch(
        &mut self,
        values: &FlatColumn<'a, L, S>,
        group_indices: &[usize],
        total_num_groups: usize,
    ) -> Result<(), Refusal> {
        let states = as_walked(values);
        self.inner
            .merge_rows(&states, group_indices, total_num_groups)
    }

    fn merge_written(
        &mut self,
        written: &ColumnBuffers<'a, L, S>,
        group_indices: &[usize],
        total_num_groups: usize,
    ) -> Result<(), Refusal> {
        let states = written.column();
        let rows = as_walked(&states);
        self.inner
            .merge_rows(&rows, group_indices, total_num_groups)
    }

    fn convert_to_state(
        &self,
        values: &FlatColumn<'a, L, S>,
        opt_filter: &Filter<'_>,
        out: &mut ColumnBuffers<'a, L, S>,
    ) -> Result<(), Refusal> {
        self.inner.convert_rows(values, opt_filter, out)
    }

    fn evaluate(
        &mut self,
        emit_to: EmitTo,
        out: &mut ColumnBuffers<'a, L, S>,
    ) -> Result<(), Refusal> {
        self.inner.emit(emit_to, out)
    }

    fn peek(&self, emit_to: EmitTo, out: &mut ColumnBuffers<'a, L, S>) -> Result<(), Refusal> {
        self.inner.show(emit_to, out)
    }

    fn forget(&mut self, emit_to: EmitTo) -> Result<(), Refusal> {
        self.inner.forget_groups(emit_to)
    }
}

impl<'a, 'm, T: Copy + 'a, O: Operation<T>, L: Writable<S, Item = T> + 'a, S: 'a> Commuting<'a>
    for PackingGroupsAccumulator<'m, T, O, L, S> {
    fn commutes() {}
}
