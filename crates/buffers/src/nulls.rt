ghost use Rattle.std.specs.Prelude.{◌≡◌, ◌+◌, ◌&&◌, map, length, if◌then◌else◌, Some, None, nat_lt};
ghost use Rattle.std.specs.List.{range_with_len};
ghost use Rattle.std.specs.Result.{result_err};
ghost use Rattle.columnar.specs.declared.refusal.Refusal.TheVariants.{ShortBuffer};
ghost use Rattle.columnar.specs.Cells.{ticked};
ghost use Rattle.columnar.specs.Packed.{bit_at, bytes_for, packed, unpacked};
ghost use Rattle.columnar.specs.Columns.{rows_of};
ghost use Rattle.buffers.specs.Memory.{front};

use crate::pack::{bytes_for, write_bits};
use crate::source::Source;
use columnar::column::BooleanColumn;
use columnar::items::{Items, Mask};
use columnar::refusal::Refusal;
use std::marker::PhantomData;

/// Two rows of packed bits, anded place by place.
#[derive(Drop)]
struct Anded<'a> {
    values: Mask<'a>,
    mask: Mask<'a>,
    ghost even: { mask.len ≡ values.len },
}

impl<'a> Source<bool> for Anded<'a> {
    ghost items = { λ s. map (λ j. bit_at s.mask.slots.now (s.mask.start + j) && bit_at s.values.slots.now (s.values.start + j)) (range_with_len 0 s.values.len) };

    fn get(&self, j: usize) -> bool {
        self.mask.get(j) & self.values.get(j)
    }
}

/// Packs which rows a filter lets through, as a mask over them: those for which it holds a valid yes. A filter without a
/// mask stands as its values alone. The bits after the last row are zeros, and the bytes past them stay; nothing is
/// written where there are too few bytes.
pub fn filter_to_validity(filter: &BooleanColumn<'_>, out: &mut [u8]) -> Result<(), Refusal>
    ensures refused { result_err result ≡ (if nat_lt (length out.old) (bytes_for filter.now.values.len) then Some ShortBuffer else None) }
    ensures out { out.new ≡ (if nat_lt (length out.old) (bytes_for filter.now.values.len) then out.old else front (packed (ticked (rows_of unpacked filter.now) filter.now.values.len)) out.old) }
{
    let values = filter.values;
    let len = values.len;
    if out.len() < bytes_for(len) {
        return Err(Refusal::ShortBuffer);
    }
    let Some(bytes) = filter.validity.mask else {
        write_bits(out, &values, len);
        return Ok(());
    };
    let mask: Mask<'_> = Items {
        slots: bytes,
        start: filter.validity.start,
        len,
        packing: PhantomData,
    };
    write_bits(out, &Anded { values, mask }, len);
    Ok(())
}
