ghost use Rattle.std.specs.Prelude.{◌≡◌};
ghost use Rattle.columnar.specs.Cells.{over};
ghost use Rattle.groups.specs.Kind.{Kind, Laws, Commutes, read};
ghost use Rattle.accumulators.specs.Listed.{Within, after_rows, after_states};

use columnar::rows::FlatRows;

/// An accumulator of one group: it keeps one credit, to which rows and state rows are joined.
///
/// No accumulator refuses a row yet. One that does would answer a `Result` from `add` and `join_state`; `update` and `merge`
/// would then answer the first refusal and leave the accumulator as it was, for which its being `Copy` suffices.
pub trait Accumulator: Copy {
    /// A row's value, a state row's figure and a shown figure.
    type Value;

    type State;

    type Out;

    ghost kind: { Kind Self.Value Self.State Self.Out };

    ghost laws: { Laws kind };

    ghost credit: { Self → kind.Credit };

    /// An accumulator that has been given nothing.
    fn empty() -> Self
        ensures { credit result ≡ kind.empty };

    /// Joins the credit of one row, a value or null.
    fn add(&mut self, row: Option<Self::Value>)
        ensures { credit self.new ≡ kind.join (credit self.old) (kind.of_row row) };

    /// Joins the credit of one state row; a null one is the empty credit.
    fn join_state(&mut self, row: Option<Self::State>)
        ensures { credit self.new ≡ kind.join (credit self.old) (read kind (over kind.under row)) };

    /// What is shown: a value or null.
    fn evaluate(&self) -> Option<Self::Out>
        ensures { result ≡ kind.shown (credit self.now) };

    /// The state row: a figure or null.
    fn state(&self) -> Option<Self::State>
        ensures { result ≡ kind.written (credit self.now) };

    /// Joins the credits of the listed rows, in the order of the list.
    // A struct of a column and listed rows would have their clause at its making, a lifetime and a marker of the row's type
    // besides: no plainer than the clause here, at `merge` and at `shown_of`.
    #[tactic(auto, using(crate::proofs::RowReads::rows_more))]
    fn update<C: FlatRows<Self::Value>>(&mut self, values: &C, rows: &[usize])
        requires { Within (C.Rows.cells values.now) rows.now }
        ensures { credit self.new ≡ after_rows kind (C.Rows.cells values.now) (credit self.old) rows.now }
    {
        for j in rows {
            self.add(values.read(*j));
        }
    }

    /// Joins the credits of the listed state rows, in the order of the list.
    // A twin of `update` in form alone, by another law: one function for both would have that law as a closure's clause.
    #[tactic(auto, using(crate::proofs::RowReads::states_more))]
    fn merge<C: FlatRows<Self::State>>(&mut self, states: &C, rows: &[usize])
        requires { Within (C.Rows.cells states.now) rows.now }
        ensures { credit self.new ≡ after_states kind (C.Rows.cells states.now) (credit self.old) rows.now }
    {
        for j in rows {
            self.join_state(states.read(*j));
        }
    }
}

/// An accumulator whose kind commutes: the join of two credits is alike in either order.
pub trait CommutingAccumulator: Accumulator {
    ghost commutes: { Commutes Self.kind };
}
