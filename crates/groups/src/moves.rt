ghost use Rattle.std.specs.Prelude.{◌≡◌, ◌≤◌, length};
ghost use Rattle.groups.specs.Moves.{refilled, moved_down};

/// Writes `x` over the places from `from` up to `to`.
// Two numbers and no `Range`, which is not `Copy` and would have to be taken apart in each clause.
// The library's `fill` asks that no clone fails, which of a `Copy` type alone is not known.
#[tactic(auto, using(crate::proofs::Fills::filled_more))]
pub fn fill_part<T: Copy>(slots: &mut [T], from: usize, to: usize, x: T)
    requires order { from ≤ to }
    requires within { to ≤ length slots.old }
    ensures { slots.new ≡ refilled slots.old from to x }
{
    for slot in &mut slots[from..to] {
        *slot = x;
    }
}

/// Moves the places from n up to `kept` down to the front; the places past them stay.
pub fn move_down<T: Copy>(slots: &mut [T], n: usize, kept: usize)
    requires order { n ≤ kept }
    requires within { kept ≤ length slots.old }
    ensures { slots.new ≡ moved_down slots.old n kept }
{
    slots.copy_within(n..kept, 0);
}
