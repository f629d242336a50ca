ghost use Rattle.std.specs.Prelude.{◌≡◌, ℕ, ◌≤◌, List, length, take, nat_lt};
ghost use Rattle.columnar.specs.Packed.{bytes_for, packed};
ghost use Rattle.buffers.specs.Memory.{front};

use crate::front::write_front;
use crate::pack::{bytes_for, write_bits};
use crate::source::Source;
use columnar::packing::{Packed, Plain, Readable};

/// A packing into whose slots an answer is written.
pub trait Writable<S>: Readable<S> {
    fn places(rows: usize) -> usize
        ensures { result ≡ Self.Packing.places rows };

    /// Whether so many slots hold fewer than so many rows.
    fn lacks(slots: usize, rows: usize) -> bool
        ensures { result ≡ nat_lt (Self.Packing.holds slots) rows };

    /// Writes the first n items to the front; the slots past them stay.
    fn write<F: Source<Self::Item>>(slots: &mut [S], items: &F, n: usize)
        requires within { n ≤ length (F.Source.items items.now) }
        requires room { Self.Packing.places n ≤ length slots.old }
        ensures { slots.new ≡ front (Self.PackingOf.laid (take n (F.Source.items items.now))) slots.old };
}

impl<T: Copy> Writable<T> for Plain {
    fn places(rows: usize) -> usize {
        rows
    }

    fn lacks(slots: usize, rows: usize) -> bool {
        rows > slots
    }

    fn write<F: Source<T>>(slots: &mut [T], items: &F, n: usize) {
        write_front(slots, n, |j| items.get(j));
    }
}

impl Writable<u8> for Packed {
    fn places(rows: usize) -> usize {
        bytes_for(rows)
    }

    fn lacks(slots: usize, rows: usize) -> bool {
        // Eight times the bytes need not fit a word.
        rows as u128 > 8 * (slots as u128)
    }

    fn write<F: Source<bool>>(slots: &mut [u8], items: &F, n: usize) {
        write_bits(slots, items, n);
    }
}
