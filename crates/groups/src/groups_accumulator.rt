ghost use Rattle.std.specs.Prelude.{◌≡◌};
ghost use Rattle.std.specs.Result.{result_err};
ghost use Rattle.columnar.specs.Views.{ticks};
ghost use Rattle.groups.specs.Kind.{Kind, Laws, Commutes};
ghost use Rattle.groups.specs.Tally.{Means, unless, update_refusal, updated, merge_refusal, merged, evaluate_refusal, answer, peek_refusal, peeked, forget_refusal, removed, convert_refusal, converted};
ghost use Rattle.buffers.specs.Places.{places, rows_in};
ghost use Rattle.groups.specs.Handing.{HandsOut};

use crate::emit::EmitTo;
use buffers::buffers::Buffers;
use columnar::filter::Filter;
use columnar::refusal::Refusal;
use columnar::rows::Rows;

/// An accumulator of many groups: what it means, and what each call makes of that meaning.
/// A refused call changes nothing, neither the accumulator nor the buffers.
pub trait GroupsAccumulator<'a> {
    /// A row's value, a state row's figure and a shown figure.
    type Value;

    type State;

    type Out;
    /// The views and buffers of these.
    type Values: Rows<Self::Value>;

    type States: Rows<Self::State>;

    type Answers: Buffers<Self::Out>;

    type StateBuffers: Buffers<Self::State>;

    ghost kind: { Kind Self.Value Self.State Self.Out };

    ghost laws: { Laws kind };

    /// A credit for each kept group, the switch and the limits.
    ghost meaning: { Self → Means kind };

    /// How an accumulator's memory lies: a fresh one has this property, and every call keeps it.
    ghost sound: { Self → Type 0 };

    /// Joins each row's credit to its group's, after opening groups up to the total.
    // The parameters of each call are the Rust's own, in its order.
    fn update_batch(
        &mut self,
        values: &Self::Values,
        group_indices: &[usize],
        opt_filter: &Filter<'_>,
        total_num_groups: usize,
    ) -> Result<(), Refusal>
        requires sound { sound self.old }
        ensures stays { sound self.new }
        ensures answer { result_err result ≡ update_refusal kind (meaning self.old) (Self.Values.Rows.cells values.now) (ticks opt_filter.now) group_indices.now total_num_groups }
        ensures after { meaning self.new ≡ unless (result_err result) (meaning self.old) (updated kind (meaning self.old) (Self.Values.Rows.cells values.now) (ticks opt_filter.now) group_indices.now total_num_groups) };

    /// Joins each state row's credit to its group's; a null one is the empty credit.
    fn merge_batch(
        &mut self,
        values: &Self::States,
        group_indices: &[usize],
        total_num_groups: usize,
    ) -> Result<(), Refusal>
        requires sound { sound self.old }
        ensures stays { sound self.new }
        ensures answer { result_err result ≡ merge_refusal kind (meaning self.old) (Self.States.Rows.cells values.now) group_indices.now total_num_groups }
        ensures after { meaning self.new ≡ unless (result_err result) (meaning self.old) (merged kind (meaning self.old) (Self.States.Rows.cells values.now) group_indices.now total_num_groups) };

    /// Joins the state rows that lie written in buffers, as `merge_batch` does those of a view.
    fn merge_written(
        &mut self,
        written: &Self::StateBuffers,
        group_indices: &[usize],
        total_num_groups: usize,
    ) -> Result<(), Refusal>
        requires sound { sound self.old }
        ensures stays { sound self.new }
        ensures answer { result_err result ≡ merge_refusal kind (meaning self.old) (rows_in Self.StateBuffers.Buffers written.now) group_indices.now total_num_groups }
        ensures after { meaning self.new ≡ unless (result_err result) (meaning self.old) (merged kind (meaning self.old) (rows_in Self.StateBuffers.Buffers written.now) group_indices.now total_num_groups) };

    /// Writes each row's credit as a state row, and changes nothing; a row that is not let through gives the empty credit.
    fn convert_to_state(
        &self,
        values: &Self::Values,
        opt_filter: &Filter<'_>,
        out: &mut Self::StateBuffers,
    ) -> Result<(), Refusal>
        requires sound { sound self.now }
        ensures answer { result_err result ≡ convert_refusal kind Self.StateBuffers.Buffers.layout (meaning self.now) (Self.Values.Rows.cells values.now) (ticks opt_filter.now) (places Self.StateBuffers.Buffers out.old) }
        ensures written { HandsOut Self.StateBuffers.Buffers (result_err result) (converted kind (Self.Values.Rows.cells values.now) (ticks opt_filter.now)) out.old out.new };

    /// Shows the groups asked for, and removes them.
    fn evaluate(&mut self, emit_to: EmitTo, out: &mut Self::Answers) -> Result<(), Refusal>
        requires sound { sound self.old }
        ensures stays { sound self.new }
        ensures answer { result_err result ≡ evaluate_refusal kind Self.Answers.Buffers.layout (meaning self.old) emit_to (places Self.Answers.Buffers out.old) }
        ensures after { meaning self.new ≡ unless (result_err result) (meaning self.old) (removed kind (meaning self.old) emit_to) }
        ensures written { HandsOut Self.Answers.Buffers (result_err result) (answer kind (meaning self.old) emit_to) out.old out.new };

    /// Writes the state rows of the groups asked for, and removes nothing.
    fn peek(&self, emit_to: EmitTo, out: &mut Self::StateBuffers) -> Result<(), Refusal>
        requires sound { sound self.now }
        ensures answer { result_err result ≡ peek_refusal kind Self.StateBuffers.Buffers.layout (meaning self.now) emit_to (places Self.StateBuffers.Buffers out.old) }
        ensures written { HandsOut Self.StateBuffers.Buffers (result_err result) (peeked kind (meaning self.now) emit_to) out.old out.new };

    /// Removes the groups asked for, and writes nothing.
    fn forget(&mut self, emit_to: EmitTo) -> Result<(), Refusal>
        requires sound { sound self.old }
        ensures stays { sound self.new }
        ensures answer { result_err result ≡ forget_refusal kind (meaning self.old) emit_to }
        ensures after { meaning self.new ≡ unless (result_err result) (meaning self.old) (removed kind (meaning self.old) emit_to) };
}

/// An accumulator whose kind commutes: the join of two credits is alike in either order. What is credited to a group may
/// then be taken in any order.
pub trait Commuting<'a>: GroupsAccumulator<'a> {
    fn commutes()
        ensures { Commutes Self.GroupsAccumulator.kind };
}

/// Writes the state rows of the groups asked for, and removes them: a peek, and then a forgetting.
// It stands beside the trait, since a trait with a lifetime parameter can give no method its body.
pub fn state<'a, T: GroupsAccumulator<'a>>(
    accumulator: &mut T,
    emit_to: EmitTo,
    out: &mut T::StateBuffers,
) -> Result<(), Refusal>
    requires sound { T.GroupsAccumulator.sound accumulator.old }
    ensures stays { T.GroupsAccumulator.sound accumulator.new }
    ensures answer { result_err result ≡ peek_refusal T.GroupsAccumulator.kind T.StateBuffers.Buffers.layout (T.GroupsAccumulator.meaning accumulator.old) emit_to (places T.StateBuffers.Buffers out.old) }
    ensures after { T.GroupsAccumulator.meaning accumulator.new ≡ unless (result_err result) (T.GroupsAccumulator.meaning accumulator.old) (removed T.GroupsAccumulator.kind (T.GroupsAccumulator.meaning accumulator.old) emit_to) }
    ensures written { HandsOut T.StateBuffers.Buffers (result_err result) (peeked T.GroupsAccumulator.kind (T.GroupsAccumulator.meaning accumulator.old) emit_to) out.old out.new }
{
    accumulator.peek(emit_to, out)?;
    accumulator.forget(emit_to)
}
