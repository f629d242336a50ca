ghost use Rattle.std.specs.Prelude.{◌≡◌, ◌^◌, ◌-◌, ◌≤ℤ◌, pos, negsuc, refl};
ghost use Rattle.std.proofs.Common.{Ordering};
ghost use Rattle.std.specs.Ordering.{int_cmp};
ghost use Rattle.operations.specs.Orders.{Order, whole_numbers};

/// A type whose values stand in an order, from a least one to a greatest one.
pub trait Bounded: Copy + Ord {
    ghost LEAST: { Self };

    ghost GREATEST: { Self };

    /// The order in the subject's words, and how two values compare by it.
    ghost up_to: { Self → Self → Type 0 };

    ghost rank: { Self → Self → Ordering };

    ghost order: { Order up_to rank };

    const LEAST: Self;

    const GREATEST: Self;

    /// A value is between the two ends. That is owed here, where the value fits its type.
    fn within(self)
        ensures least { up_to LEAST self }
        ensures greatest { up_to self GREATEST };

    /// The order is the one of `cmp`.
    ghost compares: { (a b : Self) → Self.cmp a b ≡ rank a b };
}

// One impl for each type: the constants differ, and what is alike, the order, is named and not written out.
impl Bounded for i32 {
    ghost LEAST = { negsuc (2 ^ 31 - 1) };

    ghost GREATEST = { pos (2 ^ 31 - 1) };

    ghost up_to = { ◌≤ℤ◌ };

    ghost rank = { int_cmp };

    ghost order = { whole_numbers };

    ghost compares = { λ a b. refl };

    const LEAST: i32 = i32::MIN;

    const GREATEST: i32 = i32::MAX;

    fn within(self) {}
}

impl Bounded for i64 {
    ghost LEAST = { negsuc (2 ^ 63 - 1) };

    ghost GREATEST = { pos (2 ^ 63 - 1) };

    ghost up_to = { ◌≤ℤ◌ };

    ghost rank = { int_cmp };

    ghost order = { whole_numbers };

    ghost compares = { λ a b. refl };

    const LEAST: i64 = i64::MIN;

    const GREATEST: i64 = i64::MAX;

    fn within(self) {}
}
