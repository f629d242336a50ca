//! Turns of several accumulators of one kind: what comes of them, the book of the rows credited, and the theorem over whole runs.
#![tactic(auto)]

ghost use Rattle.turns.specs.Theorem.{RunsHold, InOrder, InAnyOrder};

use groups::groups_accumulator::{Commuting, GroupsAccumulator};

/// In every run of accumulators of a kind, each closed group shows, and each state row carries, the join of exactly the
/// rows credited to it, in the order of crediting.
pub fn runs_hold<'a, T: GroupsAccumulator<'a>>()
    ensures { RunsHold T.GroupsAccumulator.kind InOrder }
{}

/// Where the kind commutes, the same of the rows taken in any order.
pub fn runs_hold_in_any_order<'a, T: Commuting<'a>>()
    ensures { RunsHold T.GroupsAccumulator.kind InAnyOrder }
{
    T::commutes()
}
