#![tactic(auto)]

ghost use Rattle.groups.specs.Kind.{Laws, Commutes};
ghost use Rattle.distinct.specs.Distinct.{distinct, CountsDifferentValues};

use keys::key::Key;

/// The laws of distinct counts hold at every key.
#[tactic(auto, using(crate::proofs::Laws::distinct_laws, crate::proofs::Laws::distinct_commutes))]
pub fn distinct_lawful<K: Key>()
    ensures laws { Laws (distinct K.Key.same) }
    ensures commutes { Commutes (distinct K.Key.same) }
{}

/// Rows are shown as how many different values are among them.
#[tactic(auto, using(crate::proofs::Shown::counts_different_values))]
pub fn distinct_shows<K: Key>()
    ensures { CountsDifferentValues K.Key.same }
{}
