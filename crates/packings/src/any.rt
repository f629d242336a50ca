ghost use Rattle.std.specs.Prelude.{◌≡◌};
ghost use Rattle.std.specs.Result.{result_err};
ghost use Rattle.columnar.specs.Columns.{rows_of};
ghost use Rattle.columnar.specs.Views.{ticks};
ghost use Rattle.groups.specs.Tally.{unless, update_refusal, updated};
ghost use Rattle.prim_op.specs.Means.{kind_of, meaning_of, Sound};

use buffers::writable::Writable;
use columnar::column::FlatColumn;
use columnar::filter::Filter;
use columnar::refusal::Refusal;
use groups::groups_accumulator::GroupsAccumulator;
use operations::operation::Operation;
use prim_op::any_packing::PackingGroupsAccumulator;

/// One batch into the accumulator of any packing that is written: no more is asked of it.
pub fn update<'a, 'm, T: Copy + 'a, O: Operation<T>, L: Writable<S, Item = T> + 'a, S: 'a>(
    acc: &mut PackingGroupsAccumulator<'m, T, O, L, S>,
    values: &FlatColumn<'a, L, S>,
    group_indices: &[usize],
    opt_filter: &Filter<'_>,
    total_num_groups: usize,
) -> Result<(), Refusal>
    requires { Sound O.Operation.start acc.old.inner }
    ensures stays { Sound O.Operation.start acc.new.inner }
    ensures answer { result_err result ≡ update_refusal (kind_of O.Operation) (meaning_of acc.old.inner) (rows_of L.PackingOf.items values.now) (ticks opt_filter.now) group_indices.now total_num_groups }
    ensures after { meaning_of acc.new.inner ≡ unless (result_err result) (meaning_of acc.old.inner) (updated (kind_of O.Operation) (meaning_of acc.old.inner) (rows_of L.PackingOf.items values.now) (ticks opt_filter.now) group_indices.now total_num_groups) }
{
    acc.update_batch(values, group_indices, opt_filter, total_num_groups)
}
