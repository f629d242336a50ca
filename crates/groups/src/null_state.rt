ghost use Rattle.std.specs.Prelude.{◌≡◌, ◌-◌, ◌≤◌, true, false, not, ◌&&◌, ◌++◌, length, take, replicate, if◌then◌else◌};
ghost use Rattle.groups.specs.Emits.{count_of, others, resets};
ghost use Rattle.groups.specs.Seen.{is_plain, in_force};

use crate::emit::EmitTo;
use crate::moves::{fill_part, move_down};

/// Which groups have seen a value: each that is kept, or those that are marked.
// Two cases and no `bool`: the Rust's own type, under its name.
#[derive(Clone, Copy, PartialEq, Eq, Debug)]
pub enum SeenValues {
    All,
    Marked,
}

/// How many groups are kept, and the switch of their marks. The marks, one a group, lie in memory that each call is lent:
/// while the switch is plain they are not read, and each kept group counts as marked. `Marks` keeps both together.
#[derive(Clone, Copy, PartialEq, Eq, Debug)]
pub struct NullState {
    pub seen_values: SeenValues,
    pub kept: usize,
}

impl NullState {
    /// No group, and the switch plain.
    pub fn new() -> NullState
        ensures kept { result.kept ≡ 0 }
        ensures plain { is_plain result.seen_values ≡ true }
    {
        NullState {
            seen_values: SeenValues::All,
            kept: 0,
        }
    }

    /// Whether answers have a mask: exactly when the switch is marked.
    pub fn is_marked(self) -> bool
        ensures { result ≡ not (is_plain self.seen_values) }
    {
        self.seen_values == SeenValues::Marked
    }

    /// Turns the switch to marked where a batch asks for it: no mark that is in force changes.
    fn turn(&mut self, marks: &mut [bool], turns: bool)
        requires { self.old.kept ≤ length marks.old }
        ensures kept { self.new.kept ≡ self.old.kept }
        ensures switch { is_plain self.new.seen_values ≡ (is_plain self.old.seen_values && not turns) }
        ensures len { length marks.new ≡ length marks.old }
        ensures marks { in_force (is_plain self.new.seen_values) self.old.kept marks.new ≡ in_force (is_plain self.old.seen_values) self.old.kept marks.old }
    {
        if turns && !self.is_marked() {
            let kept = self.kept;
            fill_part(marks, 0, kept, true);
            self.seen_values = SeenValues::Marked;
        }
    }

    /// Opens groups up to the total, for a batch that turns the switch to marked or not. The new groups are unmarked.
    pub fn open(&mut self, marks: &mut [bool], total: usize, turns: bool)
        requires order { self.old.kept ≤ total }
        requires within { total ≤ length marks.old }
        ensures kept { self.new.kept ≡ total }
        ensures switch { is_plain self.new.seen_values ≡ (is_plain self.old.seen_values && not turns) }
        ensures len { length marks.new ≡ length marks.old }
        ensures marks { is_plain self.new.seen_values ≡ false → take total marks.new ≡ in_force (is_plain self.old.seen_values) self.old.kept marks.old ++ replicate (total - self.old.kept) false }
    {
        self.turn(marks, turns);
        if self.is_marked() {
            let kept = self.kept;
            fill_part(marks, kept, total, false);
        }
        self.kept = total;
    }

    /// Removes the groups asked for: the others keep their marks, and after all are removed the switch is plain.
    #[tactic(auto, using(crate::proofs::Marking::forced_moved))]
    pub fn remove(&mut self, marks: &mut [bool], emit_to: EmitTo)
        requires few { count_of emit_to self.old.kept ≤ self.old.kept }
        requires within { self.old.kept ≤ length marks.old }
        ensures kept { self.new.kept ≡ self.old.kept - count_of emit_to self.old.kept }
        ensures len { length marks.new ≡ length marks.old }
        ensures switch { is_plain self.new.seen_values ≡ (if resets emit_to then true else is_plain self.old.seen_values) }
        ensures others { in_force (is_plain self.new.seen_values) self.new.kept marks.new ≡ others emit_to (in_force (is_plain self.old.seen_values) self.old.kept marks.old) }
    {
        let kept = self.kept;
        match emit_to {
            EmitTo::All => {
                self.seen_values = SeenValues::All;
                self.kept = 0;
            }
            EmitTo::First(n) => {
                move_down(marks, n, kept);
                self.kept = kept - n;
            }
        }
    }
}
