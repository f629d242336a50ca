ghost use Rattle.std.specs.Prelude.{◌≡◌, ℕ, ◌<◌, List, length, ⊤, Some, None, IfOk};
ghost use Rattle.std.specs.List.{range_with_len, slice_get};
ghost use Rattle.std.specs.Option.{option_map};
ghost use Rattle.std.specs.Result.{result_err};
ghost use Rattle.columnar.specs.Cells.{Cell, seen, nulls as null_rows};
ghost use Rattle.columnar.specs.Refusals.{lengths_refusal};
ghost use Rattle.columnar.specs.Rows.{column_cells};
ghost use Rattle.columnar.specs.Views.{cells_under};

use crate::items::{Items, Mask};
use crate::packing::{Packed, Packing, Plain, Readable};
use crate::refusal::Refusal;
use crate::rows::{FlatRows, Rows};
use crate::validity::Validity;
use std::alloc::AllocError;

/// Items, lent, and which of their rows are valid.
// The Rust keeps the number of nulls beside them too, and by a rule of the project each walk matches on it. They are
// counted by row number: which rows are null does not depend on the items, whose type `L` does not name.
pub struct FlatColumn<'a, L: Packing, S> {
    pub values: Items<'a, L, S>,
    pub validity: Validity<'a>,
    pub nulls: usize,
    ghost even: { validity.len ≡ values.len },
    ghost counted: { nulls ≡ null_rows (cells_under validity (range_with_len 0 values.len)) },
}

// `Clone` cannot be derived for a generic struct with a ghost field.
impl<'a, L: Packing, S> Clone for FlatColumn<'a, L, S> {
    ghost is_clone = { λ old new. new ≡ old };

    ghost is_infallible = { λ _. ⊤ };

    fn clone(&self) -> Result<FlatColumn<'a, L, S>, AllocError> {
        Ok(*self)
    }
}

impl<'a, L: Packing, S> Copy for FlatColumn<'a, L, S> {}

/// Values, lent, a slot for each.
pub type PrimitiveColumn<'a, T> = FlatColumn<'a, Plain, T>;

/// Packed booleans, lent.
pub type BooleanColumn<'a> = FlatColumn<'a, Packed, u8>;

impl<'a, L: Readable<S>, S> FlatColumn<'a, L, S> {
    ghost use Rattle.columnar.specs.Columns.{items_of, rows_of};

    /// A column without a mask.
    pub fn plain(values: Items<'a, L, S>) -> FlatColumn<'a, L, S>
        ensures { rows_of L.PackingOf.items result ≡ column_cells None 0 (items_of L.PackingOf.items values.entry) }
    {
        FlatColumn {
            values,
            validity: Validity::all(values.len),
            nulls: 0,
        }
    }

    /// A column with a mask, or a refusal where the two differ in length.
    pub fn new(values: Items<'a, L, S>, mask: Mask<'a>) -> Result<FlatColumn<'a, L, S>, Refusal>
        ensures refused { result_err result ≡ lengths_refusal mask.entry.len values.entry.len }
        ensures shows { IfOk result (λ c. rows_of L.PackingOf.items c ≡ column_cells (Some mask.entry.slots.now) mask.entry.start (items_of L.PackingOf.items values.entry)) }
    {
        if mask.len != values.len {
            return Err(Refusal::MaskLength);
        }
        let validity = Validity::from(mask);
        Ok(FlatColumn {
            values,
            validity,
            nulls: validity.count_nulls(),
        })
    }

    /// Row j: absent past the end, and in it a value or null.
    pub fn row(&self, j: usize) -> Option<Option<L::Item>>
        ensures { result ≡ option_map seen (slice_get (rows_of L.PackingOf.items self.now) j) }
    {
        if j >= self.values.len {
            return None;
        }
        Some(self.read(j))
    }
}

impl<'a, L: Readable<S>, S> Rows<L::Item> for FlatColumn<'a, L, S> {
    ghost use Rattle.columnar.specs.Columns.{rows_of};

    ghost cells = { rows_of L.PackingOf.items };

    fn len(&self) -> usize {
        self.values.len
    }

    fn null_count(&self) -> usize {
        self.nulls
    }
}

impl<'a, L: Readable<S>, S> FlatRows<L::Item> for FlatColumn<'a, L, S> {
    fn read(&self, j: usize) -> Option<L::Item> {
        if self.validity.valid(j) {
            return Some(self.values.get(j));
        }
        None
    }
}
