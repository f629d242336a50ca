ghost use Rattle.std.specs.Prelude.{◌≡◌, if◌then◌else◌, Some, None};
ghost use Rattle.std.specs.Int.{int_min, int_max};
ghost use Rattle.std.specs.Int.Signed.{lt_z};
ghost use Rattle.std.specs.Result.{result_ok, result_err};
ghost use Rattle.columnar.specs.Cells.{over};
ghost use Rattle.groups.specs.Kind.{read};
ghost use Rattle.accumulators.specs.Spans.{ends_of, hulled, spread, recorded, join, span_of, span_kind, span_laws, span_commutes, order_refusal};

use crate::accumulator::{Accumulator, CommutingAccumulator};
use columnar::refusal::Refusal;

/// The least and the greatest of some values, as a state row. In the wrong order the two numbers mean the same span.
#[derive(Clone, Copy, PartialEq, Eq, Debug)]
pub struct SpanRecord {
    pub least: i64,
    pub greatest: i64,
}

impl SpanRecord {
    /// A record of two numbers that are in order.
    pub fn new(least: i64, greatest: i64) -> Result<SpanRecord, Refusal>
        ensures refused { result_err result ≡ order_refusal least greatest }
        ensures made { result_ok result ≡ (if lt_z greatest least then None else Some (record { least = least; greatest = greatest })) }
    {
        if least > greatest {
            return Err(Refusal::SpanOrder);
        }
        Ok(SpanRecord { least, greatest })
    }

    // This, the greater end and the width are alike in form alone, by three laws.
    /// The lesser of the two numbers.
    fn low(self) -> i64
        ensures { result ≡ (ends_of self).least }
    {
        self.least.min(self.greatest)
    }

    /// The greater of the two numbers.
    fn high(self) -> i64
        ensures { result ≡ (ends_of self).greatest }
    {
        self.least.max(self.greatest)
    }

    /// The same span, with its numbers in order.
    fn sorted(self) -> SpanRecord
        ensures { result ≡ recorded (ends_of self) }
    {
        SpanRecord {
            least: self.low(),
            greatest: self.high(),
        }
    }

    /// The greatest minus the least.
    fn width(self) -> u64
        ensures { result ≡ spread (ends_of self) }
    {
        self.greatest.abs_diff(self.least)
    }

    /// The least span that covers both.
    fn hull(self, other: SpanRecord) -> SpanRecord
        ensures least { result.least ≡ int_min (ends_of self).least (ends_of other).least }
        ensures greatest { result.greatest ≡ int_max (ends_of self).greatest (ends_of other).greatest }
    {
        SpanRecord {
            least: self.low().min(other.low()),
            greatest: self.high().max(other.high()),
        }
    }
}

/// The difference of the greatest and the least value; nothing where there is no value.
#[derive(Clone, Copy, PartialEq, Eq, Debug)]
pub struct Span {
    pub ends: Option<SpanRecord>,
}

impl Span {
    /// Widens the span so that it covers another one.
    #[tactic(auto, using(crate::proofs::Spreads::covers_first, crate::proofs::Spreads::covers_more))]
    fn cover(&mut self, other: SpanRecord)
        ensures { span_of self.new.ends ≡ join (span_of self.old.ends) (Some (ends_of other)) }
    {
        self.ends = Some(self.ends.map_or(other, |ends| ends.hull(other)));
    }
}

impl Accumulator for Span {
    type Value = i64;

    type State = SpanRecord;

    type Out = u64;

    ghost kind = { span_kind };

    ghost laws = { span_laws };

    ghost credit = { λ s. span_of s.ends };

    fn empty() -> Span {
        Span { ends: None }
    }

    fn add(&mut self, row: Option<i64>)
        ensures { span_of self.new.ends ≡ join (span_of self.old.ends) (span_kind.of_row row) }
    {
        if let Some(value) = row {
            self.cover(SpanRecord {
                least: value,
                greatest: value,
            });
        }
    }

    fn join_state(&mut self, row: Option<SpanRecord>)
        ensures { span_of self.new.ends ≡ join (span_of self.old.ends) (read span_kind (over span_kind.under row)) }
    {
        if let Some(other) = row {
            self.cover(other);
        }
    }

    fn evaluate(&self) -> Option<u64> {
        self.ends.map(SpanRecord::width)
    }

    fn state(&self) -> Option<SpanRecord> {
        self.ends.map(SpanRecord::sorted)
    }
}

impl CommutingAccumulator for Span {
    ghost commutes = { span_commutes };
}
