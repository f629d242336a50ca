ghost use Rattle.groups.specs.Kind.{Laws, Commutes};
ghost use Rattle.operations.specs.Primitive.{primitive, MarkAndValue};

use crate::operation::Operation;

/// The laws of the primitive kind hold at every operation.
#[tactic(auto, using(crate::proofs::Credits::primitive_commutes, crate::proofs::Credits::mark_and_value))]
pub fn lawful<T, O: Operation<T>>()
    ensures laws { Laws (primitive O.Operation.start O.Operation.rule) }
    ensures commutes { Commutes (primitive O.Operation.start O.Operation.rule) }
    ensures credits { MarkAndValue O.Operation.start O.Operation.rule }
{}
