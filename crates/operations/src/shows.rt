ghost use Rattle.operations.specs.Shown.{ShowsSumI64, ShowsSumU64, ShowsLeast, ShowsGreatest, ShowsAll, ShowsAny, ShowsOdd};
ghost use Rattle.operations.specs.contracts.operation.SumOperationI64.TheImpl.{ghosts as sum_i64};
ghost use Rattle.operations.specs.contracts.operation.SumOperationU64.TheImpl.{ghosts as sum_u64};
ghost use Rattle.operations.specs.contracts.boolean.AndOperationBool.TheImpl.{ghosts as and_bool};
ghost use Rattle.operations.specs.contracts.boolean.OrOperationBool.TheImpl.{ghosts as or_bool};
ghost use Rattle.operations.specs.contracts.boolean.XorOperationBool.TheImpl.{ghosts as xor_bool};

use crate::bounded::Bounded;
use crate::operation::{Max, Min, Operation};

/// Rows are shown as the plain sum of their values, wrapped once.
#[tactic(auto, using(crate::proofs::Folds::shows_sum_i64))]
pub fn sum_i64_shows()
    ensures { ShowsSumI64 sum_i64.start sum_i64.rule }
{}

/// The same of numbers without a sign.
#[tactic(auto, using(crate::proofs::Folds::shows_sum_u64))]
pub fn sum_u64_shows()
    ensures { ShowsSumU64 sum_u64.start sum_u64.rule }
{}

/// A value among them that none is below.
pub fn min_shows<T: Bounded>()
    ensures { ShowsLeast T.up_to ⟦<Min as Operation<T>>⟧.start ⟦<Min as Operation<T>>⟧.rule }
{}

/// A value among them that none is above; of stamps one that none is after.
pub fn max_shows<T: Bounded>()
    ensures { ShowsGreatest T.up_to ⟦<Max as Operation<T>>⟧.start ⟦<Max as Operation<T>>⟧.rule }
{}

/// Whether all of them are true.
pub fn and_shows()
    ensures { ShowsAll and_bool.start and_bool.rule }
{}

/// Whether one of them is true.
pub fn or_shows()
    ensures { ShowsAny or_bool.start or_bool.rule }
{}

/// Whether an odd number of them is true.
pub fn xor_shows()
    ensures { ShowsOdd xor_bool.start xor_bool.rule }
{}
