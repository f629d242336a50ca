ghost use Rattle.std.specs.Prelude.{◌≡◌, Some};
ghost use Rattle.columnar.specs.Cells.{over};
ghost use Rattle.groups.specs.Kind.{read};
ghost use Rattle.accumulators.specs.NullCounts.{capped, counted, null_count_kind, null_count_laws, null_counts_commute};

use crate::accumulator::{Accumulator, CommutingAccumulator};

/// The number of null rows, which stays at the type's greatest number once it is there.
#[derive(Clone, Copy, PartialEq, Eq, Debug)]
pub struct Blanks {
    pub nulls: u64,
}

impl Blanks {
    /// The count, which is within the type's range.
    fn count(self) -> Option<u64>
        ensures { result ≡ Some (capped self.nulls).count }
    {
        Some(self.nulls)
    }
}

impl Accumulator for Blanks {
    type Value = i64;

    type State = u64;

    type Out = u64;

    ghost kind = { null_count_kind };

    ghost laws = { null_count_laws };

    ghost credit = { λ b. capped b.nulls };

    fn empty() -> Blanks {
        Blanks { nulls: 0 }
    }

    #[tactic(auto, using(crate::proofs::NullSteps::add_null, crate::proofs::NullSteps::add_value))]
    fn add(&mut self, row: Option<i64>)
        ensures { capped self.new.nulls ≡ counted (capped self.old.nulls) (null_count_kind.of_row row) }
    {
        if row.is_none() {
            self.nulls = self.nulls.saturating_add(1);
        }
    }

    #[tactic(auto, using(crate::proofs::NullSteps::add_state))]
    fn join_state(&mut self, row: Option<u64>)
        ensures { capped self.new.nulls ≡ counted (capped self.old.nulls) (read null_count_kind (over null_count_kind.under row)) }
    {
        self.nulls = self.nulls.saturating_add(row.unwrap_or(0));
    }

    fn evaluate(&self) -> Option<u64> {
        self.count()
    }

    fn state(&self) -> Option<u64> {
        self.count()
    }
}

impl CommutingAccumulator for Blanks {
    ghost commutes = { null_counts_commute };
}
