ghost use Rattle.std.specs.Prelude.{◌≡◌, ℕ, ◌-◌, ◌<◌, ◌≤◌, min, Bool, true, false, not, ◌&&◌, List, [], ◌∷◌, ◌++◌, length, take, replicate, IfSome, if◌then◌else◌, slice_index_or, slice_set};
ghost use Rattle.groups.specs.Seen.{is_plain};
ghost use Rattle.std.specs.Result.{result_err};
ghost use Rattle.columnar.specs.Columns.{rows_of};
ghost use Rattle.columnar.specs.Views.{ticks};
ghost use Rattle.groups.specs.Emits.{count_of};
ghost use Rattle.buffers.specs.Places.{places};
ghost use Rattle.groups.specs.Handing.{HandsOut};
ghost use Rattle.groups.specs.Limits.{cap};
ghost use Rattle.groups.specs.Tally.{fresh, unless, update_refusal, updated, merge_refusal, merged, evaluate_refusal, answer, forget_refusal, removed, convert_refusal, converted};
ghost use Rattle.operations.proofs.Credits.{primitive_laws};
ghost use Rattle.prim_op.specs.Means.{marks_of, values_of, kind_of, meaning_of, Sound};

use buffers::buffers::{Buffers, ColumnBuffers, FlatBuffers};
use buffers::writable::Writable;
use columnar::column::FlatColumn;
use columnar::filter::Filter;
use columnar::refusal::Refusal;
use columnar::rows::{FlatRows, Rows};
use groups::checks::Batch;
use groups::emit::EmitTo;
use groups::groups_accumulator::{Commuting, GroupsAccumulator};
use groups::limits::{BatchLimits, MOST};
use groups::marks::Marks;
use groups::moves::{fill_part, move_down};
use operations::operation::Operation;
use std::marker::PhantomData;
use walk::accumulate::Visitor;
use walk::columns::Accumulate;

/// A value and a mark for each kept group, in lent memory, under an operation: the accumulator of the primitive and the
/// boolean kinds, which differ in how the items of rows and answers are packed.
// Values and marks lie side by side, as the memory is lent.
#[derive(Drop)]
pub struct OpGroupsAccumulator<'m, T, O, L, S> {
    pub(crate) values: &'m mut [T],
    pub(crate) marks: Marks<'m>,
    pub(crate) limits: BatchLimits,
    pub(crate) op: O,
    pub(crate) packing: PhantomData<(L, S)>,
}

// It holds no slots of its packing, so nothing is asked of them where it crosses to another thread or is shared with one.
unsafe impl<'m, T: Send, O: Send, L: Send, S> Send for OpGroupsAccumulator<'m, T, O, L, S> {}

unsafe impl<'m, T: Sync, O: Sync, L: Sync, S> Sync for OpGroupsAccumulator<'m, T, O, L, S> {}

impl<'m, T: Copy, O: Operation<T>, L, S> OpGroupsAccumulator<'m, T, O, L, S> {
    /// An accumulator of no groups, over lent memory with a place and a mark for each group that it may keep. Its limits are
    /// the least of the number asked for, the cap and, for groups, the places given.
    pub fn new(
        values: &'m mut [T],
        marks: &'m mut [bool],
        op: O,
        max_rows: usize,
        max_groups: usize,
    ) -> OpGroupsAccumulator<'m, T, O, L, S>
        ensures sound { Sound O.Operation.start result }
        ensures fresh { meaning_of result ≡ fresh (kind_of O.Operation) (record { rows = min max_rows cap; groups = min (min max_groups cap) (min (length values.old) (length marks.old)); pairs = 0 }) }
    {
        let limits = BatchLimits {
            rows: max_rows.min(MOST),
            groups: max_groups.min(MOST).min(values.len().min(marks.len())),
        };
        OpGroupsAccumulator {
            values,
            marks: Marks::new(marks),
            limits,
            op,
            packing: PhantomData,
        }
    }
}

/// A visit combines the value into its group's, and marks the group once the switch is marked.
impl<'m, T: Copy, O: Operation<T>, L, S> Visitor<T> for OpGroupsAccumulator<'m, T, O, L, S> {
    ghost Model = { List T × (List Bool × Bool) };

    ghost model = { λ s. (s.values.now, (s.marks.slots.now, is_plain s.marks.null_state.seen_values)) };

    ghost fixed = { λ s. (min (length s.values.now) (length s.marks.slots.now), length s.values.now ∷ (length s.marks.slots.now ∷ (s.marks.null_state.kept ∷ (s.limits.rows ∷ (s.limits.groups ∷ []))))) };

    ghost after = { λ m k x. (slice_set m.0 k (O.Operation.rule (slice_index_or m.0 k O.Operation.start) x), ((if m.1.1 then m.1.0 else slice_set m.1.0 k true), m.1.1)) };

    ghost fit = { λ x. O.Operation.rule O.Operation.start x ≡ x };

    fn visit(&mut self, group: usize, value: T) {
        let old = self.values[group];
        self.values[group] = O::combine(old, value);
        self.marks.mark(group);
    }
}

impl<'m, T: Copy, O: Operation<T>, L: Writable<S, Item = T> + Accumulate<S>, S> OpGroupsAccumulator<
    'm,
    T,
    O,
    L,
    S,
> {
    /// Opens groups up to the total: the new ones have the start value and no mark.
    fn open(&mut self, total: usize, turns: bool)
        requires order { self.old.marks.null_state.kept ≤ total }
        requires values { total ≤ length self.old.values.now }
        requires marks { total ≤ length self.old.marks.slots.now }
        ensures kept { self.new.marks.null_state.kept ≡ total }
        ensures switch { is_plain self.new.marks.null_state.seen_values ≡ (is_plain self.old.marks.null_state.seen_values && not turns) }
        ensures values { take total self.new.values.now ≡ values_of self.old ++ replicate (total - self.old.marks.null_state.kept) O.Operation.start }
        ensures marks { is_plain self.new.marks.null_state.seen_values ≡ false → take total self.new.marks.slots.now ≡ marks_of self.old ++ replicate (total - self.old.marks.null_state.kept) false }
        ensures limits { self.new.limits ≡ self.old.limits }
        ensures values_len { length self.new.values.now ≡ length self.old.values.now }
        ensures marks_len { length self.new.marks.slots.now ≡ length self.old.marks.slots.now }
    {
        let kept = self.marks.null_state.kept;
        let start = O::starting_value();
        fill_part(self.values, kept, total, start);
        self.marks.open(total, turns);
    }

    /// Joins each row's credit to its group's, after opening groups up to the total; or a refusal, and nothing changed.
    pub(crate) fn update_rows(
        &mut self,
        values: &FlatColumn<'_, L, S>,
        group_indices: &[usize],
        opt_filter: &Filter<'_>,
        total: usize,
    ) -> Result<(), Refusal>
        requires { Sound O.Operation.start self.old }
        ensures stays { Sound O.Operation.start self.new }
        ensures answer { result_err result ≡ update_refusal (kind_of O.Operation) (meaning_of self.old) (rows_of L.PackingOf.items values.now) (ticks opt_filter.now) group_indices.now total }
        ensures after { meaning_of self.new ≡ unless (result_err result) (meaning_of self.old) (updated (kind_of O.Operation) (meaning_of self.old) (rows_of L.PackingOf.items values.now) (ticks opt_filter.now) group_indices.now total) }
    {
        let kept = self.marks.null_state.kept;
        let limits = self.limits;
        let batch = Batch {
            rows: values.len(),
            group_indices,
            ticked: opt_filter.ticked(),
            total,
        };
        batch.refuse(limits, kept, self.marks.slots)?;
        let turns = opt_filter.given() | (values.null_count() > 0);
        self.open(total, turns);
        L::accumulate(group_indices, values, opt_filter, self);
        Ok(())
    }

    /// Writes what the groups asked for show; or a refusal, and nothing written.
    pub(crate) fn show<B: FlatBuffers<T>>(
        &self,
        emit_to: EmitTo,
        out: &mut B,
    ) -> Result<(), Refusal>
        requires { Sound O.Operation.start self.now }
        ensures answer { result_err result ≡ evaluate_refusal (kind_of O.Operation) B.Buffers.layout (meaning_of self.now) emit_to (places B.Buffers out.old) }
        ensures written { HandsOut B.Buffers (result_err result) (answer (kind_of O.Operation) (meaning_of self.now) emit_to) out.old out.new }
    {
        let kept = self.marks.null_state.kept;
        let rows = emit_to.count(kept);
        if rows > kept {
            return Err(Refusal::TooManyGroups);
        }
        let masked = self.marks.is_marked();
        if !out.fits(rows, masked) {
            return Err(Refusal::ShortBuffer);
        }
        out.put(self.values, self.marks.slots, rows, masked);
        Ok(())
    }

    /// Removes the groups asked for, of which there are enough.
    pub(crate) fn remove(&mut self, emit_to: EmitTo)
        requires sound { Sound O.Operation.start self.old }
        requires few { count_of emit_to self.old.marks.null_state.kept ≤ self.old.marks.null_state.kept }
        ensures stays { Sound O.Operation.start self.new }
        ensures after { meaning_of self.new ≡ removed (kind_of O.Operation) (meaning_of self.old) emit_to }
    {
        let kept = self.marks.null_state.kept;
        let rows = emit_to.count(kept);
        move_down(self.values, rows, kept);
        self.marks.remove(emit_to);
    }

    /// Shows the groups asked for and removes them; or a refusal, and nothing changed.
    pub(crate) fn emit<B: FlatBuffers<T>>(
        &mut self,
        emit_to: EmitTo,
        out: &mut B,
    ) -> Result<(), Refusal>
        requires { Sound O.Operation.start self.old }
        ensures stays { Sound O.Operation.start self.new }
        ensures answer { result_err result ≡ evaluate_refusal (kind_of O.Operation) B.Buffers.layout (meaning_of self.old) emit_to (places B.Buffers out.old) }
        ensures after { meaning_of self.new ≡ unless (result_err result) (meaning_of self.old) (removed (kind_of O.Operation) (meaning_of self.old) emit_to) }
        ensures written { HandsOut B.Buffers (result_err result) (answer (kind_of O.Operation) (meaning_of self.old) emit_to) out.old out.new }
    {
        self.show(emit_to, out)?;
        self.remove(emit_to);
        Ok(())
    }

    /// Joins each state row's credit to its group's: a state row is a row, and no filter is given.
    pub(crate) fn merge_rows(
        &mut self,
        values: &FlatColumn<'_, L, S>,
        group_indices: &[usize],
        total: usize,
    ) -> Result<(), Refusal>
        requires { Sound O.Operation.start self.old }
        ensures stays { Sound O.Operation.start self.new }
        ensures answer { result_err result ≡ merge_refusal (kind_of O.Operation) (meaning_of self.old) (rows_of L.PackingOf.items values.now) group_indices.now total }
        ensures after { meaning_of self.new ≡ unless (result_err result) (meaning_of self.old) (merged (kind_of O.Operation) (meaning_of self.old) (rows_of L.PackingOf.items values.now) group_indices.now total) }
    {
        let none = Filter::none();
        self.update_rows(values, group_indices, &none, total)
    }

    /// Removes the groups asked for; or a refusal, and nothing changed.
    pub(crate) fn forget_groups(&mut self, emit_to: EmitTo) -> Result<(), Refusal>
        requires { Sound O.Operation.start self.old }
        ensures stays { Sound O.Operation.start self.new }
        ensures answer { result_err result ≡ forget_refusal (kind_of O.Operation) (meaning_of self.old) emit_to }
        ensures after { meaning_of self.new ≡ unless (result_err result) (meaning_of self.old) (removed (kind_of O.Operation) (meaning_of self.old) emit_to) }
    {
        let kept = self.marks.null_state.kept;
        if emit_to.count(kept) > kept {
            return Err(Refusal::TooManyGroups);
        }
        self.remove(emit_to);
        Ok(())
    }

    /// Writes each row as a state row, null over the start value where it is null or not let through; or a refusal, and
    /// nothing written.
    pub(crate) fn convert_rows<C: FlatRows<T>, B: FlatBuffers<T>>(
        &self,
        values: &C,
        opt_filter: &Filter<'_>,
        out: &mut B,
    ) -> Result<(), Refusal>
        ensures answer { result_err result ≡ convert_refusal (kind_of O.Operation) B.Buffers.layout (meaning_of self.now) (C.Rows.cells values.now) (ticks opt_filter.now) (places B.Buffers out.old) }
        ensures written { HandsOut B.Buffers (result_err result) (converted (kind_of O.Operation) (C.Rows.cells values.now) (ticks opt_filter.now)) out.old out.new }
    {
        let rows = values.len();
        if rows > self.limits.rows {
            return Err(Refusal::TooManyRows);
        }
        if opt_filter.ticked().unwrap_or(rows) != rows {
            return Err(Refusal::FilterLength);
        }
        if !out.fits(rows, true) {
            return Err(Refusal::ShortBuffer);
        }
        out.put_rows(values, opt_filter, O::starting_value());
        Ok(())
    }
}

impl<
    'a,
    'm,
    T: Copy + 'a,
    O: Operation<T>,
    L: Writable<S, Item = T> + Accumulate<S> + 'a,
    S: 'a,
> GroupsAccumulator<'a> for OpGroupsAccumulator<'m, T, O, L, S> {
    type Value = T;

    type State = T;

    type Out = T;

    type Values = FlatColumn<'a, L, S>;

    type States = FlatColumn<'a, L, S>;

    type Answers = ColumnBuffers<'a, L, S>;

    type StateBuffers = ColumnBuffers<'a, L, S>;

    ghost kind = { kind_of O.Operation };

    ghost laws = { primitive_laws O.Operation.combines O.Operation.start };

    ghost meaning = { meaning_of };

    ghost sound = { Sound O.Operation.start };

    fn update_batch(
        &mut self,
        values: &FlatColumn<'a, L, S>,
        group_indices: &[usize],
        opt_filter: &Filter<'_>,
        total_num_groups: usize,
    ) -> Result<(), Refusal> {
        self.update_rows(values, group_indices, opt_filter, total_num_groups)
    }

    fn merge_batch(
        &mut self,
        values: &FlatColumn<'a, L, S>,
        group_indices: &[usize],
        total_num_groups: usize,
    ) -> Result<(), Refusal> {
        self.merge_rows(values, group_indices, total_num_groups)
    }

    fn merge_written(
        &mut self,
        written: &ColumnBuffers<'a, L, S>,
        group_indices: &[usize],
        total_num_groups: usize,
    ) -> Result<(), Refusal> {
        let states = written.column();
        self.merge_rows(&states, group_indices, total_num_groups)
    }

    fn convert_to_state(
        &self,
        values: &FlatColumn<'a, L, S>,
        opt_filter: &Filter<'_>,
        out: &mut ColumnBuffers<'a, L, S>,
    ) -> Result<(), Refusal> {
        self.convert_rows(values, opt_filter, out)
    }

    fn evaluate(
        &mut self,
        emit_to: EmitTo,
        out: &mut ColumnBuffers<'a, L, S>,
    ) -> Result<(), Refusal> {
        self.emit(emit_to, out)
    }

    fn peek(&self, emit_to: EmitTo, out: &mut ColumnBuffers<'a, L, S>) -> Result<(), Refusal> {
        self.show(emit_to, out)
    }

    fn forget(&mut self, emit_to: EmitTo) -> Result<(), Refusal> {
        self.forget_groups(emit_to)
    }
}

impl<
    'a,
    'm,
    T: Copy + 'a,
    O: Operation<T>,
    L: Writable<S, Item = T> + Accumulate<S> + 'a,
    S: 'a,
> Commuting<'a> for OpGroupsAccumulator<'m, T, O, L, S> {
    fn commutes() {}
}
