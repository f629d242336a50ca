ghost use Rattle.std.specs.Prelude.{◌≡◌, map};
ghost use Rattle.groups.specs.Kind.{Commutes, joined};
ghost use Rattle.accumulators.specs.Listed.{Within, seen_at};
ghost use Rattle.accumulators.specs.Shown.{ShowsSpan, WritesSpan, ShowsNulls, ListedRows};
ghost use Rattle.accumulators.specs.Worked.{Worked};
ghost use Rattle.accumulators.specs.contracts.span.SpanAccumulator.TheImpl.{ghosts as span};
ghost use Rattle.accumulators.specs.contracts.blanks.BlanksAccumulator.TheImpl.{ghosts as blanks};

use crate::accumulator::{Accumulator, CommutingAccumulator};
use columnar::rows::FlatRows;

/// Listed rows joined one after another are alike the join of what is seen of them.
#[tactic(auto, using(crate::proofs::RowReads::listed_rows))]
pub fn rows_join<A: Accumulator>()
    ensures { ListedRows A.Accumulator.kind }
{}

/// The join of two credits is alike in either order.
pub fn joins_commute<A: CommutingAccumulator>()
    ensures { Commutes A.Accumulator.kind }
{}

/// What an accumulator shows that is given the listed rows alone: the join of what is seen of them.
#[tactic(auto, using(crate::proofs::RowReads::shown_listed))]
pub fn shown_of<A: Accumulator, C: FlatRows<A::Value>>(values: &C, rows: &[usize]) -> Option<A::Out>
    requires { Within (C.Rows.cells values.now) rows.now }
    ensures { result ≡ A.Accumulator.kind.shown (joined A.Accumulator.kind (map (seen_at (C.Rows.cells values.now)) rows.now)) }
{
    let mut accumulator = A::empty();
    accumulator.update(values, rows);
    accumulator.evaluate()
}

/// Null where there is no value, else how far the farthest two values are apart. The state row has the least and the greatest.
#[tactic(auto, using(crate::proofs::Spreads::shows_span, crate::proofs::Spreads::writes_span))]
pub fn span_shows()
    ensures shown { ShowsSpan span.kind }
    ensures written { WritesSpan span.kind }
{}

/// The number of nulls, capped.
#[tactic(auto, using(crate::proofs::NullSteps::shows_nulls))]
pub fn blanks_shows()
    ensures { ShowsNulls blanks.kind }
{}

/// Rows written out.
pub fn worked()
    ensures { Worked span.kind blanks.kind }
{}
