ghost use Rattle.std.specs.Prelude.{◌≡◌};
ghost use Rattle.columnar.specs.Columns.{rows_of};

use buffers::source::Source;
use buffers::writable::Writable;
use columnar::column::FlatColumn;
use columnar::filter::Filter;
use columnar::items::Items;
use columnar::packing::{Packing, PackingOf, Readable};
use std::marker::PhantomData;
use walk::accumulate::{Visitor, accumulate};
use walk::columns::Accumulate;

/// A packing that can be read, with a walk: its columns are walked by `accumulate`, whatever the packing.
// It reads and writes by the packing's own words. By it the accumulator takes a packing that has no walk of its own.
#[derive(Clone, Copy)]
pub struct Walked<L>(PhantomData<L>);

impl<L: Packing> Packing for Walked<L> {
    ghost holds = { L.Packing.holds };

    ghost places = { L.Packing.places };
}

impl<L: PackingOf<S>, S> PackingOf<S> for Walked<L> {
    type Item = L::Item;

    ghost items = { L.PackingOf.items };

    ghost laid = { L.PackingOf.laid };
}

impl<L: Readable<S>, S> Readable<S> for Walked<L> {
    fn item(slots: &[S], start: usize, j: usize) -> L::Item {
        L::item(slots, start, j)
    }

    ghost counts = { L.Readable.counts };
}

impl<L: Writable<S>, S> Writable<S> for Walked<L> {
    fn places(rows: usize) -> usize {
        L::places(rows)
    }

    fn lacks(slots: usize, rows: usize) -> bool {
        L::lacks(slots, rows)
    }

    fn write<F: Source<L::Item>>(slots: &mut [S], items: &F, n: usize) {
        L::write(slots, items, n)
    }
}

impl<L: Readable<S>, S> Accumulate<S> for Walked<L> {
    fn accumulate<V: Visitor<L::Item>>(
        group_indices: &[usize],
        values: &FlatColumn<'_, Walked<L>, S>,
        opt_filter: &Filter<'_>,
        visitor: &mut V,
    ) {
        accumulate(group_indices, values, opt_filter, visitor)
    }
}

/// The same rows, as a column that is walked so.
pub fn as_walked<'a, L: Readable<S>, S>(
    values: &FlatColumn<'a, L, S>,
) -> FlatColumn<'a, Walked<L>, S>
    ensures { rows_of L.PackingOf.items result ≡ rows_of L.PackingOf.items values.now }
{
    let items = values.values;
    FlatColumn {
        values: Items {
            slots: items.slots,
            start: items.start,
            len: items.len,
            packing: PhantomData,
        },
        validity: values.validity,
        nulls: values.nulls,
    }
}
