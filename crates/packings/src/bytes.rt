ghost use Rattle.packings.specs.Bytes.{read_bytes, bytes_of, length_read};

use buffers::front::write_front;
use buffers::source::Source;
use buffers::writable::Writable;
use columnar::packing::{Packing, PackingOf, Readable};

/// A byte for each boolean: 0 is false, and any other true.
#[derive(Clone, Copy)]
pub struct Bytes;

impl Packing for Bytes {
    ghost holds = { λ n. n };

    ghost places = { λ n. n };
}

impl PackingOf<u8> for Bytes {
    type Item = bool;

    ghost items = { read_bytes };

    ghost laid = { bytes_of };
}

impl Readable<u8> for Bytes {
    fn item(slots: &[u8], start: usize, j: usize) -> bool {
        slots[start + j] != 0
    }

    ghost counts = { length_read };
}

impl Writable<u8> for Bytes {
    fn places(rows: usize) -> usize {
        rows
    }

    fn lacks(slots: usize, rows: usize) -> bool {
        rows > slots
    }

    fn write<F: Source<bool>>(slots: &mut [u8], items: &F, n: usize) {
        write_front(slots, n, |j| items.get(j) as u8);
    }
}

#[cfg(test)]
mod tests {
    use super::*;
    use crate::any::update;
    use buffers::buffers::ColumnBuffers;
    use columnar::column::FlatColumn;
    use columnar::filter::Filter;
    use columnar::items::{Items, Mask};
    use columnar::refusal::Refusal;
    use groups::emit::EmitTo;
    use groups::groups_accumulator::{Commuting, GroupsAccumulator};
    use operations::boolean::Or;
    use operations::operation::Operation;
    use prim_op::any_packing::PackingGroupsAccumulator;
    use prim_op::op_groups::OpGroupsAccumulator;
    use std::marker::PhantomData;
    use std::test::Fail;
    use walk::accumulate::Visitor;

    fn commutes<'a, A: GroupsAccumulator<'a> + Commuting<'a>>(_acc: &A) {
        A::commutes()
    }

    /// The accumulator of any packing that is written has every call, and its joins commute.
    fn any_packing_commutes<
        'a,
        'm,
        T: Copy + 'a,
        O: Operation<T>,
        L: Writable<S, Item = T> + 'a,
        S: 'a,
    >(acc: &PackingGroupsAccumulator<'m, T, O, L, S>) {
        commutes::<'a, PackingGroupsAccumulator<'m, T, O, L, S>>(acc)
    }

    fn crosses<T: Send + Sync>(_value: &T) {}

    /// Items and columns are `Send` and `Sync` wherever their slots may be shared: their marker asks nothing of the packing.
    fn any_packing_crosses<'a, L: Packing, S: Sync>(
        items: &Items<'a, L, S>,
        column: &FlatColumn<'a, L, S>,
    ) {
        crosses(items);
        crosses(column)
    }

    /// So is the accumulator, of whose slots nothing is asked.
    fn any_slots_cross<'m, T: Send + Sync, O: Send + Sync, L: Send + Sync, S>(
        acc: &PackingGroupsAccumulator<'m, T, O, L, S>,
    ) {
        crosses(acc)
    }

    type AnyTrue<'m> = PackingGroupsAccumulator<'m, bool, Or, Bytes, u8>;

    fn plain<'a>(slots: &'a [u8], len: usize) -> Result<FlatColumn<'a, Bytes, u8>, Refusal> {
        if len > slots.len() {
            return Err(Refusal::BitsOutOfBytes);
        }
        let items: Items<'a, Bytes, u8> = Items {
            slots,
            start: 0,
            len,
            packing: PhantomData,
        };
        any_packing_crosses(&items, &FlatColumn::plain(items));
        Ok(FlatColumn::plain(items))
    }

    /// Bytes 0, 0, 1, 1 and 255, of which row 3 is null and row 2 is not let through. Group 0 has rows 0 and 4, group 1 rows 1
    /// and 3, and group 2 row 2.
    #[test]
    fn rows_are_updated(rt: HostRuntime) -> Result<(), Fail> {
        let slots = [0u8, 0, 1, 1, 255];
        let known = [0b10111u8];
        let ticks = [0b11011u8];
        let column = FlatColumn::new(
            plain(slots.as_slice(), 5)?.values,
            Mask::new(known.as_slice(), 0, 5)?,
        )?;
        let filter = Filter::plain(Mask::new(ticks.as_slice(), 0, 5)?);
        let mut values = [false; 4];
        let mut marks = [false; 4];
        let mut acc: AnyTrue<'_> = PackingGroupsAccumulator::new(
            values.as_mut_slice(),
            marks.as_mut_slice(),
            Or,
            10,
            10,
        );
        update(
            &mut acc,
            &column,
            [0usize, 1, 2, 1, 0].as_slice(),
            &filter,
            3,
        )?;
        let mut shown = [9u8; 5];
        let mut bits = [0u8; 1];
        let mut out: ColumnBuffers<'_, Bytes, u8> = ColumnBuffers::new(
            shown.as_mut_slice(),
            bits.as_mut_slice(),
        );
        acc.evaluate(EmitTo::All, &mut out)?;
        assert_eq!(rt; out.column().row(0), Some(Some(true)));
        assert_eq!(rt; out.column().row(1), Some(Some(false)));
        assert_eq!(rt; out.column().row(2), Some(None));
        Ok(())
    }

    #[test]
    fn rows_are_converted(rt: HostRuntime) -> Result<(), Fail> {
        let slots = [0u8, 7];
        let ticks = [0b10u8];
        let column = plain(slots.as_slice(), 2)?;
        let filter = Filter::plain(Mask::new(ticks.as_slice(), 0, 2)?);
        let mut values = [false; 1];
        let mut marks = [false; 1];
        let acc: AnyTrue<'_> = PackingGroupsAccumulator::new(
            values.as_mut_slice(),
            marks.as_mut_slice(),
            Or,
            10,
            10,
        );
        let mut shown = [9u8; 2];
        let mut bits = [0u8; 1];
        let mut out: ColumnBuffers<'_, Bytes, u8> = ColumnBuffers::new(
            shown.as_mut_slice(),
            bits.as_mut_slice(),
        );
        acc.convert_to_state(&column, &filter, &mut out)?;
        assert_eq!(rt; out.column().row(0), Some(None));
        assert_eq!(rt; out.column().row(1), Some(Some(true)));
        Ok(())
    }

    /// States that are merged, shown, and merged again from the buffers that they were shown in; then the first is forgotten.
    #[test]
    fn states_are_merged(rt: HostRuntime) -> Result<(), Fail> {
        let slots = [0u8, 7];
        let states = plain(slots.as_slice(), 2)?;
        let groups = [1usize, 0];
        let mut values = [false; 2];
        let mut marks = [false; 2];
        let fresh: OpGroupsAccumulator<'_, bool, Or, Bytes, u8> = OpGroupsAccumulator::new(
            values.as_mut_slice(),
            marks.as_mut_slice(),
            Or,
            10,
            10,
        );
        let mut acc: AnyTrue<'_> = PackingGroupsAccumulator::from(fresh);
        acc.merge_batch(&states, groups.as_slice(), 2)?;
        let mut shown = [9u8; 2];
        let mut bits = [0u8; 1];
        let mut out: ColumnBuffers<'_, Bytes, u8> = ColumnBuffers::new(
            shown.as_mut_slice(),
            bits.as_mut_slice(),
        );
        acc.peek(EmitTo::All, &mut out)?;
        acc.merge_written(&out, groups.as_slice(), 2)?;
        acc.forget(EmitTo::First(1))?;
        acc.evaluate(EmitTo::All, &mut out)?;
        assert_eq!(rt; out.column().row(0), Some(Some(true)));
        assert_eq!(rt; out.column().row(1), None);
        Ok(())
    }

    #[test]
    fn a_visit_combines_its_value(rt: HostRuntime) {
        let mut values = [false; 1];
        let mut marks = [false; 1];
        let mut acc: AnyTrue<'_> = PackingGroupsAccumulator::new(
            values.as_mut_slice(),
            marks.as_mut_slice(),
            Or,
            1,
            1,
        );
        any_slots_cross(&acc);
        any_packing_commutes(&acc);
        acc.visit(0, true);
        assert_eq!(rt; values[0], true);
    }
}
