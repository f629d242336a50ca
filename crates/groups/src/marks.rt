ghost use Rattle.std.specs.Prelude.{◌≡◌, ◌-◌, ◌<◌, ◌≤◌, true, false, not, ◌&&◌, ◌++◌, length, take, replicate, if◌then◌else◌, slice_set};
ghost use Rattle.groups.specs.Emits.{count_of, others, resets};
ghost use Rattle.groups.specs.Seen.{is_plain, kept_marks};

use crate::emit::EmitTo;
use crate::null_state::NullState;

/// The marks of groups, one a group, in lent memory, and their state: while the switch is plain they are not read, and each
/// kept group counts as marked.
// The memory may be longer than the groups that are kept, so that their number stands in the state. That it is no shorter is
// asked by each call, and that the marks keep their length promised: as an invariant it was tried, and then an accumulator
// that holds this can lend the marks no more.
#[derive(Drop)]
pub struct Marks<'m> {
    pub slots: &'m mut [bool],
    pub null_state: NullState,
}

impl<'m> Marks<'m> {
    /// No group, and the switch plain, with a mark for each group that may be kept.
    pub fn new(marks: &'m mut [bool]) -> Marks<'m>
        ensures kept { result.null_state.kept ≡ 0 }
        ensures plain { is_plain result.null_state.seen_values ≡ true }
        ensures marks { result.slots.now ≡ marks.old }
    {
        Marks {
            slots: marks,
            null_state: NullState::new(),
        }
    }

    /// Whether answers have a mask: exactly when the switch is marked.
    pub fn is_marked(&self) -> bool
        ensures { result ≡ not (is_plain self.now.null_state.seen_values) }
    {
        self.null_state.is_marked()
    }

    /// Marks a group, once the switch is marked.
    pub fn mark(&mut self, group: usize)
        requires { group < length self.old.slots.now }
        ensures kept { self.new.null_state.kept ≡ self.old.null_state.kept }
        ensures switch { self.new.null_state.seen_values ≡ self.old.null_state.seen_values }
        ensures marks { self.new.slots.now ≡ (if is_plain self.old.null_state.seen_values then self.old.slots.now else slice_set self.old.slots.now group true) }
    {
        if self.is_marked() {
            self.slots[group] = true;
        }
    }

    /// Opens groups up to the total, for a batch that turns the switch to marked or not. The new groups are unmarked.
    pub fn open(&mut self, total: usize, turns: bool)
        requires order { self.old.null_state.kept ≤ total }
        requires within { total ≤ length self.old.slots.now }
        ensures kept { self.new.null_state.kept ≡ total }
        ensures len { length self.new.slots.now ≡ length self.old.slots.now }
        ensures switch { is_plain self.new.null_state.seen_values ≡ (is_plain self.old.null_state.seen_values && not turns) }
        ensures marks { is_plain self.new.null_state.seen_values ≡ false → take total self.new.slots.now ≡ kept_marks self.old ++ replicate (total - self.old.null_state.kept) false }
    {
        self.null_state.open(self.slots, total, turns);
    }

    /// Removes the groups asked for: the others keep their marks, and after all are removed the switch is plain.
    pub fn remove(&mut self, emit_to: EmitTo)
        requires few { count_of emit_to self.old.null_state.kept ≤ self.old.null_state.kept }
        requires within { self.old.null_state.kept ≤ length self.old.slots.now }
        ensures kept { self.new.null_state.kept ≡ self.old.null_state.kept - count_of emit_to self.old.null_state.kept }
        ensures len { length self.new.slots.now ≡ length self.old.slots.now }
        ensures switch { is_plain self.new.null_state.seen_values ≡ (if resets emit_to then true else is_plain self.old.null_state.seen_values) }
        ensures others { kept_marks self.new ≡ others emit_to (kept_marks self.old) }
    {
        self.null_state.remove(self.slots, emit_to);
    }
}
