ghost use Rattle.std.specs.Prelude.{◌≡◌, ℕ, ◌<◌, List, length, IfSome};
ghost use Rattle.std.specs.List.{All};
ghost use Rattle.columnar.specs.Cells.{passes as let_through};
ghost use Rattle.columnar.specs.Columns.{rows_of};
ghost use Rattle.columnar.specs.Views.{ticks};
ghost use Rattle.walk.specs.Visits.{visits, told_all};

use crate::accumulate::{Visitor, accumulate, accumulate_boolean};
use columnar::column::{BooleanColumn, FlatColumn, PrimitiveColumn};
use columnar::filter::Filter;
use columnar::packing::{Packed, Plain, Readable};

/// A packing whose columns are walked: values by `accumulate`, packed booleans by `accumulate_boolean`. The rule is one.
// A trait of packings and not of columns: an accumulator walks columns of any lifetime.
pub trait Accumulate<S>: Readable<S> {
    /// Tells the visitor the group and the value of each valid row that the filter lets through, in ascending order.
    fn accumulate<V: Visitor<Self::Item>>(
        group_indices: &[usize],
        values: &FlatColumn<'_, Self, S>,
        opt_filter: &Filter<'_>,
        visitor: &mut V,
    )
        requires even { length group_indices.now ≡ length (rows_of Self.PackingOf.items values.now) }
        requires named { All (λ k. k < (V.Visitor.fixed visitor.old).0) group_indices.now }
        requires ticked { IfSome (ticks opt_filter.now) (λ ts. length ts ≡ length group_indices.now) }
        ensures told { V.Visitor.model visitor.new ≡ told_all V.Visitor.after (V.Visitor.model visitor.old) (visits group_indices.now (rows_of Self.PackingOf.items values.now) (let_through (ticks opt_filter.now) (length group_indices.now))) }
        ensures same { V.Visitor.fixed visitor.new ≡ V.Visitor.fixed visitor.old }
        ensures fits { All (λ v. V.Visitor.fit v.1) (visits group_indices.now (rows_of Self.PackingOf.items values.now) (let_through (ticks opt_filter.now) (length group_indices.now))) };
}

impl<T: Copy> Accumulate<T> for Plain {
    fn accumulate<V: Visitor<T>>(
        group_indices: &[usize],
        values: &PrimitiveColumn<'_, T>,
        opt_filter: &Filter<'_>,
        visitor: &mut V,
    ) {
        accumulate(group_indices, values, opt_filter, visitor)
    }
}

impl Accumulate<u8> for Packed {
    fn accumulate<V: Visitor<bool>>(
        group_indices: &[usize],
        values: &BooleanColumn<'_>,
        opt_filter: &Filter<'_>,
        visitor: &mut V,
    ) {
        accumulate_boolean(group_indices, values, opt_filter, visitor)
    }
}
