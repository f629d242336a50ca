ghost use Rattle.std.specs.Prelude.{◌≡◌, ℕ, ◌+◌, ◌*◌, ◌<◌, ◌≤◌, List, length, take, drop, slice_index_or};
ghost use Rattle.columnar.specs.Packed.{bytes_for, packed, unpacked};
ghost use Rattle.columnar.specs.Packings.{length_plain, length_packed};

use crate::bits::bit;

/// How the items of a column lie in lent slots.
// It names no type of slots, so that the bound of a column's struct is met whatever the column holds, and who is generic
// over that need not repeat it.
pub trait Packing {
    /// How many items so many slots hold.
    ghost holds: { ℕ → ℕ };

    /// How many slots so many items take.
    ghost places: { ℕ → ℕ };
}

/// A packing, by the items that lie in slots of a type.
pub trait PackingOf<S>: Packing {
    type Item;

    /// So many items, from a place on.
    ghost items: { List S → ℕ → ℕ → List Self.Item };

    /// The slots of items, from the first place on.
    ghost laid: { List Self.Item → List S };
}

/// A packing out of whose slots items are read.
pub trait Readable<S>: PackingOf<S> {
    /// Item j of those from the place `start` on.
    fn item(slots: &[S], start: usize, j: usize) -> Self::Item
        requires { start + j < Self.Packing.holds (length slots.now) }
        ensures { (n : ℕ) → j < n → result ≡ slice_index_or (Self.PackingOf.items slots.now start n) j result };

    ghost counts: { (slots : List S) (start n : ℕ) → start + n ≤ Self.Packing.holds (length slots) → length (Self.PackingOf.items slots start n) ≡ n };
}

/// A slot for each item.
#[derive(Clone, Copy)]
pub struct Plain;

impl Packing for Plain {
    ghost holds = { λ n. n };

    ghost places = { λ n. n };
}

impl<T> PackingOf<T> for Plain {
    type Item = T;

    ghost items = { λ xs start n. take n (drop start xs) };

    ghost laid = { λ xs. xs };
}

impl<T: Copy> Readable<T> for Plain {
    fn item(slots: &[T], start: usize, j: usize) -> T {
        slots[start + j]
    }

    ghost counts = { length_plain };
}

/// Booleans packed into bytes, a bit for each.
#[derive(Clone, Copy)]
pub struct Packed;

impl Packing for Packed {
    ghost holds = { λ n. 8 * n };

    ghost places = { bytes_for };
}

impl PackingOf<u8> for Packed {
    type Item = bool;

    ghost items = { unpacked };

    ghost laid = { packed };
}

impl Readable<u8> for Packed {
    fn item(slots: &[u8], start: usize, j: usize) -> bool {
        bit(slots, start, j)
    }

    ghost counts = { length_packed };
}
