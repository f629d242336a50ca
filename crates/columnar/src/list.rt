ghost use Rattle.std.specs.Prelude.{◌≡◌, ◌<◌, false, length, pos, ◌≤ℤ◌, is_ok, Decides, IfOk};
ghost use Rattle.std.specs.Option.{option_map};
ghost use Rattle.std.specs.Result.{result_err};
ghost use Rattle.columnar.specs.Lists.{OffsetsOk, natural, offset_at, list_row, list_cells};
ghost use Rattle.columnar.specs.Refusals.{offsets_refused, offsets_refusal};

use crate::refusal::Refusal;
use crate::rows::{ListRow, Rows};

/// Lists of items, lent: row j is the items from offset j up to offset j + 1.
#[derive(Drop)]
pub struct ListColumn<'a, T> {
    pub offsets: &'a [i32],
    pub items: &'a [T],
    ghost ordered: { offsets_refused offsets.now (length items.now) ≡ false },
}

/// Whether offsets cannot stand over so many items.
// One loop: with `is_sorted` there would be three tests, of the first offset, of the order and of the last.
fn refused(offsets: &[i32], items: usize) -> bool
    ensures { result ≡ offsets_refused offsets.now items }
{
    if offsets.len() == 0 {
        return true;
    }
    let mut before: i32 = 0;
    for offset in offsets {
        if *offset < before {
            return true;
        }
        before = *offset;
    }
    before as i128 > items as i128
}

/// Offset j, which is not negative.
fn offset(offsets: &[i32], j: usize) -> usize
    requires within { j < length offsets.now }
    requires sign { pos 0 ≤ℤ offset_at offsets.now j }
    ensures { result ≡ natural (offset_at offsets.now j) }
{
    offsets[j] as usize
}

impl<'a, T> ListColumn<'a, T> {
    /// A view, or a refusal where the offsets cannot stand over the items.
    pub fn new(offsets: &'a [i32], items: &'a [T]) -> Result<ListColumn<'a, T>, Refusal>
        ensures refused { result_err result ≡ offsets_refusal offsets.now (length items.now) }
        ensures decides { Decides (is_ok result) (OffsetsOk offsets.now (length items.now)) }
        ensures offsets { IfOk result (λ v. v.offsets.now ≡ offsets.now) }
        ensures items { IfOk result (λ v. v.items.now ≡ items.now) }
    {
        if refused(offsets, items.len()) {
            return Err(Refusal::Offsets);
        }
        Ok(ListColumn { offsets, items })
    }

    /// Row j, absent past the end.
    pub fn row(&self, j: usize) -> Option<&'a [T]>
        ensures { option_map (λ x. x.now) result ≡ list_row self.now.offsets.now self.now.items.now j }
    {
        let offsets = self.offsets;
        let items = self.items;
        if j >= offsets.len() - 1 {
            return None;
        }
        let low = offset(offsets, j);
        let high = offset(offsets, j + 1);
        Some(&items[low..high])
    }
}

impl<'a, T> Rows<ListRow<T>> for ListColumn<'a, T> {
    ghost cells = { λ c. list_cells c.offsets.now c.items.now };

    fn len(&self) -> usize {
        let offsets = self.offsets;
        offsets.len() - 1
    }

    fn null_count(&self) -> usize {
        0
    }
}
