ghost use Rattle.std.specs.Prelude.{◌≡◌, ◌+◌, ◌*◌, ◌<◌, ◌≤◌, length, ⊤, slice_index_or, OnOk, IfOk};
ghost use Rattle.std.specs.List.{slice_get};
ghost use Rattle.std.specs.Result.{result_err};
ghost use Rattle.columnar.specs.Packed.{bit_row, unpacked};
ghost use Rattle.columnar.specs.Refusals.{bits_refusal};

use crate::packing::{Packed, Packing, Plain, Readable};
use crate::refusal::Refusal;
use std::alloc::AllocError;
use std::marker::PhantomData;

/// Items of a column, lent, in slots of type `S`: those of `len` rows from the place `start` on.
// A part of a slice would not do: packed rows begin and end within a byte.
pub struct Items<'a, L: Packing, S> {
    pub slots: &'a [S],
    pub start: usize,
    pub len: usize,
    pub packing: PhantomData<L>,
    ghost fits: { start + len ≤ L.holds (length slots.now) },
}

// `Clone` cannot be derived for a generic struct with a ghost field.
impl<'a, L: Packing, S> Clone for Items<'a, L, S> {
    ghost is_clone = { λ old new. new ≡ old };

    ghost is_infallible = { λ _. ⊤ };

    fn clone(&self) -> Result<Items<'a, L, S>, AllocError> {
        Ok(*self)
    }
}

impl<'a, L: Packing, S> Copy for Items<'a, L, S> {}

// Items hold nothing of their packing, so their marker is to ask nothing of it where a bound asks `Send` or `Sync`. That they
// may be sent and shared is proved of the slots, wherever a call asks it, and not taken from here.
unsafe impl<'a, L: Packing, S: Sync> Send for Items<'a, L, S> {}

unsafe impl<'a, L: Packing, S: Sync> Sync for Items<'a, L, S> {}

/// Packed bits, lent: bit `start + j` of the bytes is row j.
pub type Mask<'a> = Items<'a, Packed, u8>;

impl<'a> Items<'a, Packed, u8> {
    /// A view, or a refusal where its last bit would lie past the bytes.
    pub fn new(bytes: &'a [u8], start: usize, len: usize) -> Result<Mask<'a>, Refusal>
        ensures refused { result_err result ≡ bits_refusal (length bytes.now) start len }
        ensures bytes { IfOk result (λ v. v.slots.now ≡ bytes.now) }
        ensures start { IfOk result (λ v. v.start ≡ start) }
        ensures len { IfOk result (λ v. v.len ≡ len) }
    {
        // The sum of the two need not fit a word, nor eight times the bytes.
        if start as u128 + len as u128 > 8 * (bytes.len() as u128) {
            return Err(Refusal::BitsOutOfBytes);
        }
        Ok(Items {
            slots: bytes,
            start,
            len,
            packing: PhantomData,
        })
    }

    /// Row j as a bit of the bytes, absent past the end: what `row` answers, in the words of the format.
    pub fn bit(&self, j: usize) -> Option<bool>
        ensures { result ≡ bit_row self.now.slots.now self.now.start self.now.len j }
    {
        self.row(j)
    }
}

/// All of a slice.
impl<'a, T> From<&'a [T]> for Items<'a, Plain, T> {
    ghost from_gives = { λ xs v. (v.slots.now ≡ xs.now) × ((v.start ≡ 0) × (v.len ≡ length xs.now)) };

    fn from(values: &'a [T]) -> Items<'a, Plain, T> {
        Items {
            slots: values,
            start: 0,
            len: values.len(),
            packing: PhantomData,
        }
    }
}

impl<'a, L: Packing, S> Items<'a, L, S> {
    /// The number of rows.
    pub fn len(&self) -> usize
        ensures { result ≡ self.now.len }
    {
        self.len
    }
}

impl<'a, L: Readable<S>, S> Items<'a, L, S> {
    ghost use Rattle.columnar.specs.Columns.{items_of};

    /// Item j, of those that there are.
    pub fn get(&self, j: usize) -> L::Item
        requires { j < self.now.len }
        ensures { result ≡ slice_index_or (items_of L.PackingOf.items self.now) j result }
    {
        L::item(self.slots, self.start, j)
    }

    /// Row j, absent past the end.
    pub fn row(&self, j: usize) -> Option<L::Item>
        ensures { result ≡ slice_get (items_of L.PackingOf.items self.now) j }
    {
        if j >= self.len {
            return None;
        }
        Some(self.get(j))
    }
}
