ghost use Rattle.std.specs.Prelude.{◌≡◌, ℕ, ◌*◌, ◌≤◌, Bool, false, not, ◌&&◌, ◌||◌, List, length, take, if◌then◌else◌, Some, None, Option, nat_lt};
ghost use Rattle.columnar.specs.Cells.{Column, cells, passes, kept_rows};
ghost use Rattle.columnar.specs.Packed.{bytes_for};
ghost use Rattle.buffers.specs.Memory.{Laid, Room, Layout, flat_layout, stored_mask, values_layout, packed_layout, stored_slots, stored_values, stored_packed, flat_column, stored, mask_after, Shaped, short, held_items, held_values, held_packed, readable_items, readable_values, readable_packed, room_of};
ghost use Rattle.buffers.specs.ReadBack.{LaidAs};
ghost use Rattle.columnar.specs.Columns.{rows_of};
ghost use Rattle.columnar.specs.Views.{ticks};

use crate::admitted::{AdmittedFigures, AdmittedMarks};
use crate::pack::{bytes_for, write_bits};
use crate::source::Source;
use crate::writable::Writable;
use columnar::column::FlatColumn;
use columnar::filter::Filter;
use columnar::items::{Items, Mask};
use columnar::packing::{Packed, PackingOf, Plain};
use columnar::rows::{FlatRows, Rows};
use std::marker::PhantomData;

/// Answer buffers over lent memory: what a column needs of them and leaves in them is fixed here.
pub trait Buffers<X> {
    ghost Memory: { Type 0 };

    ghost memory: { Self → Memory };

    ghost layout: { Layout X };

    ghost room: { Memory → Room };

    ghost masks: { Option (List Bool) → Memory → Memory };

    ghost figures: { List X → Memory → Memory };

    ghost held: { Memory → Column X };

    // The column that a view of such buffers reads: the one held, or one of no rows where a row would lack its figure or bit.
    ghost readable: { Memory → Column X };
}

/// Buffers with one figure a row, written from values and their marks.
// How many rows, and whether they have a mask, are two parameters: as a struct each caller would write both out again.
pub trait FlatBuffers<X: Copy>: Buffers<X> {
    ghost use Rattle.buffers.specs.Places.{places};

    /// Whether a column of so many rows, with a mask or without, finds its places.
    fn fits(&self, rows: usize, masked: bool) -> bool
        ensures { (c : Column X) → Shaped c rows masked → result ≡ not (short Self.Buffers.layout (places Self.Buffers self.now) c) };

    /// Lays down the first `rows` items of a source, and those of a source of marks as their mask or none.
    fn put_from<V: Source<X>, M: Source<bool>>(
        &mut self,
        values: &V,
        marks: &M,
        rows: usize,
        masked: bool,
    )
        requires values { rows ≤ length (V.Source.items values.now) }
        requires marks { rows ≤ length (M.Source.items marks.now) }
        requires room { short Self.Buffers.layout (places Self.Buffers self.old) (flat_column (V.Source.items values.now) (M.Source.items marks.now) rows masked) ≡ false }
        ensures { Self.Buffers.memory self.new ≡ stored Self.Buffers.masks Self.Buffers.figures (flat_column (V.Source.items values.now) (M.Source.items marks.now) rows masked) (Self.Buffers.memory self.old) };

    /// Lays down the first `rows` values, and the marks of these rows as their mask or none.
    fn put(&mut self, values: &[X], marks: &[bool], rows: usize, masked: bool)
        requires values { rows ≤ length values.now }
        requires marks { rows ≤ length marks.now }
        requires room { short Self.Buffers.layout (places Self.Buffers self.old) (flat_column values.now marks.now rows masked) ≡ false }
        ensures { Self.Buffers.memory self.new ≡ stored Self.Buffers.masks Self.Buffers.figures (flat_column values.now marks.now rows masked) (Self.Buffers.memory self.old) }
    {
        self.put_from(&values, &marks, rows, masked);
    }

    /// Lays down the rows of a column under a filter: each that is valid and let through as its value, every other as
    /// null over the filler.
    fn put_rows<C: FlatRows<X>>(&mut self, values: &C, opt_filter: &Filter<'_>, filler: X)
        requires room { short Self.Buffers.layout (places Self.Buffers self.old) (kept_rows filler (passes (ticks opt_filter.now) (length (C.Rows.cells values.now))) (C.Rows.cells values.now)) ≡ false }
        ensures { Self.Buffers.memory self.new ≡ stored Self.Buffers.masks Self.Buffers.figures (kept_rows filler (passes (ticks opt_filter.now) (length (C.Rows.cells values.now))) (C.Rows.cells values.now)) (Self.Buffers.memory self.old) }
    {
        let rows = values.len();
        let marks = AdmittedMarks {
            values,
            opt_filter,
            value: PhantomData,
        };
        let figures = AdmittedFigures {
            values,
            opt_filter,
            filler,
        };
        self.put_from(&figures, &marks, rows, true);
    }
}

// The flag is the caller's word for the answer, as in the trait, here and in the two functions below.
fn has_room(figures: usize, places: usize, bits: usize, bytes: usize, masked: bool) -> bool
    ensures { result ≡ not (nat_lt figures places || nat_lt bits (if masked then bytes else 0)) }
{
    places <= figures && (!masked || bytes <= bits)
}

/// Buffers for a figure a row and a mask, over lent memory: how long the answer in them is, and whether it has a mask.
// The memory is lent and may be longer than the answer, so that its length, and whether the mask is of it, stand beside it.
#[derive(Drop)]
pub struct ColumnBuffers<'b, L: PackingOf<S>, S> {
    pub values: &'b mut [S],
    pub bits: &'b mut [u8],
    pub len: usize,
    pub masked: bool,
    // By this it is known that `L` outlives what is lent: with a bound, as `L: 'b`, the default methods get no proof.
    packing: PhantomData<&'b mut [L]>,
}

/// Buffers for a value a row and a mask.
pub type PrimitiveBuffers<'b, T> = ColumnBuffers<'b, Plain, T>;

/// Buffers for packed booleans and a mask.
pub type BooleanBuffers<'b> = ColumnBuffers<'b, Packed, u8>;

impl<'b, L: PackingOf<S>, S> Buffers<L::Item> for ColumnBuffers<'b, L, S> {
    ghost Memory = { Laid S };

    ghost memory = { λ b. record { figures = b.values.now; bits = b.bits.now; rows = b.len; masked = b.masked } };

    ghost layout = { flat_layout L.Packing.places };

    ghost room = { room_of };

    ghost masks = { stored_mask };

    ghost figures = { stored_slots L.laid };

    ghost held = { held_items L.items };

    ghost readable = { readable_items L.Packing.holds L.items };
}

/// States that buffers of values have room, are written and are read as the words for values say.
pub fn values_lie<'b, T: 'b>()
    ensures { LaidAs ⟦<ColumnBuffers<'b, Plain, T> as Buffers<T>>⟧.layout ⟦<ColumnBuffers<'b, Plain, T> as Buffers<T>>⟧.figures ⟦<ColumnBuffers<'b, Plain, T> as Buffers<T>>⟧.held ⟦<ColumnBuffers<'b, Plain, T> as Buffers<T>>⟧.readable values_layout stored_values held_values readable_values }
{}

/// The same of packed booleans.
pub fn booleans_lie<'b>()
    ensures { LaidAs ⟦<ColumnBuffers<'b, Packed, u8> as Buffers<bool>>⟧.layout ⟦<ColumnBuffers<'b, Packed, u8> as Buffers<bool>>⟧.figures ⟦<ColumnBuffers<'b, Packed, u8> as Buffers<bool>>⟧.held ⟦<ColumnBuffers<'b, Packed, u8> as Buffers<bool>>⟧.readable packed_layout stored_packed held_packed readable_packed }
{}

/// The number of rows, or 0 where so many cannot be read back: one would lack its figure or, under a mask, its bit.
fn readable_rows(lacking: bool, bytes: usize, masked: bool, rows: usize) -> usize
    ensures { result ≡ (if lacking || (masked && nat_lt (8 * bytes) rows) then 0 else rows) }
{
    if lacking || (masked && Packed::lacks(bytes, rows)) {
        return 0;
    }
    rows
}

/// Packs the marks of the first n rows as a mask, or leaves the bytes as they are where there is to be none.
fn write_mask<M: Source<bool>>(bits: &mut [u8], marks: &M, n: usize, masked: bool)
    requires within { n ≤ length (M.Source.items marks.now) }
    requires room { (if masked then bytes_for n else 0) ≤ length bits.old }
    ensures { bits.new ≡ mask_after (if masked then Some (take n (M.Source.items marks.now)) else None) bits.old }
{
    if masked {
        write_bits(bits, marks, n);
    }
}

impl<'b, L: PackingOf<S>, S> ColumnBuffers<'b, L, S> {
    /// Buffers over the lent memory, with no answer in them yet.
    pub fn new(values: &'b mut [S], bits: &'b mut [u8]) -> ColumnBuffers<'b, L, S>
        ensures values { result.values.now ≡ values.old }
        ensures bits { result.bits.now ≡ bits.old }
        ensures len { result.len ≡ 0 }
        ensures masked { result.masked ≡ false }
    {
        ColumnBuffers {
            values,
            bits,
            len: 0,
            masked: false,
            packing: PhantomData,
        }
    }
}

impl<'b, L: Writable<S>, S> ColumnBuffers<'b, L, S> {
    /// The column that lies in the buffers: what an answer has left in them, or no rows where they cannot be read.
    pub fn column(&self) -> FlatColumn<'_, L, S>
        ensures { rows_of L.PackingOf.items result ≡ cells (readable_items L.Packing.holds L.PackingOf.items (record { figures = self.now.values.now; bits = self.now.bits.now; rows = self.now.len; masked = self.now.masked })) }
    {
        let slots: &[S] = self.values;
        let bits: &[u8] = self.bits;
        let len = readable_rows(
            L::lacks(slots.len(), self.len),
            bits.len(),
            self.masked,
            self.len,
        );
        let values: Items<'_, L, S> = Items {
            slots,
            start: 0,
            len,
            packing: PhantomData,
        };
        if !self.masked {
            return FlatColumn::plain(values);
        }
        let mask: Mask<'_> = Items {
            slots: bits,
            start: 0,
            len,
            packing: PhantomData,
        };
        FlatColumn::new(values, mask).unwrap()
    }
}

impl<'b, L: Writable<S>, S> FlatBuffers<L::Item> for ColumnBuffers<'b, L, S>
where
    L::Item: Copy,
{
    fn fits(&self, rows: usize, masked: bool) -> bool {
        has_room(
            self.values.len(),
            L::places(rows),
            self.bits.len(),
            bytes_for(rows),
            masked,
        )
    }

    fn put_from<V: Source<L::Item>, M: Source<bool>>(
        &mut self,
        values: &V,
        marks: &M,
        rows: usize,
        masked: bool,
    ) {
        write_mask(self.bits, marks, rows, masked);
        L::write(self.values, values, rows);
        self.len = rows;
        self.masked = masked;
    }
}
