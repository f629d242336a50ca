//! Columns of optional cells, packed as the views read them.
use crate::plan::Turn;
use crate::row::Row;
use buffers::writable::Writable;
use columnar::column::FlatColumn;
use columnar::filter::Filter;
use columnar::items::{Items, Mask};
use columnar::packing::Packed;
use columnar::refusal::Refusal;
use std::alloc::{AllocError, Global};
use std::marker::PhantomData;

/// The values of rows in their slots, with a filler under a null, and the mask of the rows that are not null.
// Slots and mask side by side, as the library borrows them.
#[derive(Drop)]
pub struct Series<L: Writable<S>, S> {
    slots: Vec<S>,
    mask: Vec<u8>,
    packing: PhantomData<L>,
}

/// Packed yeses, and the mask of the rows that have one or a no.
pub type Ticks = Series<Packed, u8>;

fn pack_items<S: Clone + Default + Drop, L: Writable<S>>(
    heap: Global,
    items: &[L::Item],
) -> Result<Vec<S>, AllocError>
where
    L::Item: Copy,
{
    let n = items.len();
    let mut slots = vec![in heap; S::default(); L::places(n)]?;
    L::write(slots.as_mut_slice(), &items, n);
    Ok(slots)
}

impl<L: Writable<S>, S: Clone + Default + Drop> Series<L, S>
where
    L::Item: Copy,
{
    /// What each row has in a cell of its own.
    pub fn pack<F: Fn(&Row) -> Option<L::Item>>(
        heap: Global,
        rows: &[Row],
        cell: F,
        filler: L::Item,
    ) -> Result<Series<L, S>, AllocError>
        requires { F.IsAlwaysCallable cell }
    {
        let mut values = Vec::new(heap);
        let mut valid = Vec::new(heap);
        for row in rows {
            let cell = cell(row);
            values.push(cell.unwrap_or(filler))?;
            valid.push(cell.is_some())?;
        }
        let slots = pack_items::<S, L>(heap, values.as_slice())?;
        let mask = pack_items::<u8, Packed>(heap, valid.as_slice())?;
        Ok(Series {
            slots,
            mask,
            packing: PhantomData,
        })
    }

    /// The rows of a batch, or none where the series ends before it.
    pub fn column(&self, turn: Turn) -> Result<FlatColumn<'_, L, S>, Refusal> {
        let slots = self.slots.as_slice();
        let ends = L::lacks(slots.len(), turn.to) || turn.from > turn.to;
        let (start, len) = if ends {
            (0, 0)
        } else {
            (turn.from, turn.to - turn.from)
        };
        let values = Items {
            slots,
            start,
            len,
            packing: PhantomData,
        };
        FlatColumn::new(values, Mask::new(self.mask.as_slice(), start, len)?)
    }
}

impl Series<Packed, u8> {
    /// The rows of a batch as a filter of them.
    pub fn filter(&self, turn: Turn) -> Result<Filter<'_>, Refusal> {
        let rows = turn.to.saturating_sub(turn.from);
        let yes = Mask::new(self.slots.as_slice(), turn.from, rows)?;
        let known = Mask::new(self.mask.as_slice(), turn.from, rows)?;
        Filter::new(yes, known)
    }
}
