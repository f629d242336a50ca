ghost use Rattle.std.specs.Prelude.{◌≡◌, ◌-◌, ◌^◌, pos, refl};
ghost use Rattle.std.specs.Ordering.{ord_min, ord_max, on, then_cmp, nat_cmp};
ghost use Rattle.operations.specs.Primitive.{Combines};
ghost use Rattle.operations.specs.Rules.{added_i64, added_u64};
ghost use Rattle.operations.specs.Combining.{added_i64_lem, added_u64_lem};
ghost use Rattle.operations.specs.Orders.{UpTo, stamps, least, greatest};

use crate::bounded::Bounded;

/// A start value and a rule that combines two values. An operation is a type without values of its own.
pub trait Operation<T> {
    ghost start: { T };

    ghost rule: { T → T → T };

    ghost combines: { Combines rule };

    /// The value that leaves every other one unchanged.
    fn starting_value() -> T
        ensures { result ≡ start };

    /// Two values by the rule. That the start value changes neither is owed here, where both fit their type.
    fn combine(a: T, b: T) -> T
        ensures value { result ≡ rule a b }
        ensures left { rule start b ≡ b }
        ensures right { rule a start ≡ a };
}

/// Adds up, wrapping at the type's ends.
// One impl for each type: a trait of what wraps would have the members of `Operation` again, and an impl for each type too.
#[derive(Clone, Copy)]
pub struct Sum;

impl Operation<i64> for Sum {
    ghost start = { pos 0 };

    ghost rule = { added_i64 };

    ghost combines = { added_i64_lem };

    fn starting_value() -> i64 {
        0
    }

    #[tactic(auto, using(std::proofs::lemmas::Int::wraps))]
    fn combine(a: i64, b: i64) -> i64 {
        i64::wrapping_add(a, b)
    }
}

impl Operation<u64> for Sum {
    ghost start = { 0 };

    ghost rule = { added_u64 };

    ghost combines = { added_u64_lem };

    fn starting_value() -> u64 {
        0
    }

    fn combine(a: u64, b: u64) -> u64 {
        u64::wrapping_add(a, b)
    }
}

/// The least value.
#[derive(Clone, Copy)]
pub struct Min;

impl<T: Bounded> Operation<T> for Min {
    ghost start = { T.GREATEST };

    ghost rule = { ord_min T.rank };

    ghost combines = { least T.order };

    fn starting_value() -> T {
        T::GREATEST
    }

    fn combine(a: T, b: T) -> T {
        a.within();
        b.within();
        a.min(b)
    }
}

/// The greatest value.
#[derive(Clone, Copy)]
pub struct Max;

impl<T: Bounded> Operation<T> for Max {
    ghost start = { T.LEAST };

    ghost rule = { ord_max T.rank };

    ghost combines = { greatest T.order };

    fn starting_value() -> T {
        T::LEAST
    }

    fn combine(a: T, b: T) -> T {
        a.within();
        b.within();
        a.max(b)
    }
}

/// A moment at a depot: the later second is the later moment, and within a second the higher depot.
#[derive(Clone, Copy, PartialEq, Eq, PartialOrd, Ord, Default, Debug)]
pub struct Stamp {
    pub second: u64,
    pub depot: u32,
}

impl Bounded for Stamp {
    ghost LEAST = { record { second = 0; depot = 0 } };

    ghost GREATEST = { record { second = 2 ^ 64 - 1; depot = 2 ^ 32 - 1 } };

    ghost up_to = { UpTo };

    ghost rank = { then_cmp (on (λ s. s.second) nat_cmp) (on (λ s. s.depot) nat_cmp) };

    ghost order = { stamps };

    ghost compares = { λ a b. refl };

    const LEAST: Stamp = Stamp {
        second: 0,
        depot: 0,
    };

    const GREATEST: Stamp = Stamp {
        second: u64::MAX,
        depot: u32::MAX,
    };

    fn within(self) {}
}

/// The latest stamp is the greatest one.
pub use Max as Latest;
