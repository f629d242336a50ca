ghost use Rattle.std.specs.Prelude.{true, false, ◌&&◌, ◌||◌};
ghost use Rattle.operations.specs.Rules.{odd_of};
ghost use Rattle.operations.specs.Combining.{every, any, odd};

use crate::operation::Operation;

/// Whether all are true.
#[derive(Clone, Copy)]
pub struct And;

impl Operation<bool> for And {
    ghost start = { true };

    ghost rule = { ◌&&◌ };

    ghost combines = { every };

    fn starting_value() -> bool {
        true
    }

    fn combine(a: bool, b: bool) -> bool {
        a & b
    }
}

/// Whether one is true.
#[derive(Clone, Copy)]
pub struct Or;

impl Operation<bool> for Or {
    ghost start = { false };

    ghost rule = { ◌||◌ };

    ghost combines = { any };

    fn starting_value() -> bool {
        false
    }

    fn combine(a: bool, b: bool) -> bool {
        a | b
    }
}

/// Whether an odd number of them is true.
#[derive(Clone, Copy)]
pub struct Xor;

impl Operation<bool> for Xor {
    ghost start = { false };

    ghost rule = { odd_of };

    ghost combines = { odd };

    fn starting_value() -> bool {
        false
    }

    fn combine(a: bool, b: bool) -> bool {
        a ^ b
    }
}
