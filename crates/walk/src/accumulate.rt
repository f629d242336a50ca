ghost use Rattle.std.specs.Prelude.{◌≡◌, ℕ, ◌<◌, Bool, List, map, length, IfSome};
ghost use Rattle.std.specs.List.{range_with_len, All};
ghost use Rattle.columnar.specs.Cells.{passes as let_through};
ghost use Rattle.columnar.specs.Packed.{unpacked};
ghost use Rattle.columnar.specs.Rows.{cells_from};
ghost use Rattle.columnar.specs.Columns.{items_of, rows_of};
ghost use Rattle.columnar.specs.Views.{ticks};
ghost use Rattle.walk.specs.Visits.{visits, told_all, Tests};

use columnar::column::{BooleanColumn, FlatColumn};
use columnar::filter::{Filter, passes};
use columnar::items::Items;
use columnar::packing::Readable;

/// What a walk tells of each row that counts: a model, and what one visit makes of it.
// A trait and no closure: the model, and that what is borrowed stays, are its ghost members, which a closure has not.
pub trait Visitor<T> {
    ghost Model: { Type 0 };

    ghost model: { Self → Model };

    /// How many groups it takes, and the ghost names of what it borrows: no visit changes either.
    ghost fixed: { Self → ℕ × List ℕ };

    ghost after: { Model → ℕ → T → Model };

    /// What a visit learns of the value that it is told.
    ghost fit: { T → Type 0 };

    fn visit(&mut self, group: usize, value: T)
        requires { group < (fixed self.old).0 }
        ensures told { model self.new ≡ after (model self.old) group value }
        ensures same { fixed self.new ≡ fixed self.old }
        ensures fit { fit value };
}

/// The one rule of every walk: tells the visitor the group and the value of each row that is valid and passes, by tests of
/// its number, in ascending order.
// What is asked and told of the visitor stands at each function here, in the words of its trait.
fn walk<S, L: Readable<S>, P: Fn(usize) -> bool, Q: Fn(usize) -> bool, V: Visitor<L::Item>>(
    group_indices: &[usize],
    values: &Items<'_, L, S>,
    valid: P,
    passes: Q,
    visitor: &mut V,
)
    requires even { length group_indices.now ≡ values.now.len }
    requires named { All (λ k. k < (V.Visitor.fixed visitor.old).0) group_indices.now }
    requires valid { (j : ℕ) → j < length group_indices.now → P.pre valid j }
    requires passes { (j : ℕ) → j < length group_indices.now → Q.pre passes j }
    ensures told { (p q : ℕ → Bool) → Tests (P.post valid) p (length group_indices.now) → Tests (Q.post passes) q (length group_indices.now) → V.Visitor.model visitor.new ≡ told_all V.Visitor.after (V.Visitor.model visitor.old) (visits group_indices.now (cells_from p 0 (items_of L.PackingOf.items values.now)) (map q (range_with_len 0 (length group_indices.now)))) }
    ensures same { V.Visitor.fixed visitor.new ≡ V.Visitor.fixed visitor.old }
    ensures fits { (p q : ℕ → Bool) → Tests (P.post valid) p (length group_indices.now) → Tests (Q.post passes) q (length group_indices.now) → All (λ v. V.Visitor.fit v.1) (visits group_indices.now (cells_from p 0 (items_of L.PackingOf.items values.now)) (map q (range_with_len 0 (length group_indices.now)))) }
{
    for (j, group) in group_indices.iter().enumerate() {
        if valid(j) && passes(j) {
            visitor.visit(*group, values.get(j));
        }
    }
}

/// Tells the visitor the group and the value of each valid row that the filter lets through, in ascending order.
pub fn accumulate<S, L: Readable<S>, V: Visitor<L::Item>>(
    group_indices: &[usize],
    values: &FlatColumn<'_, L, S>,
    opt_filter: &Filter<'_>,
    visitor: &mut V,
)
    requires even { length group_indices.now ≡ length (rows_of L.PackingOf.items values.now) }
    requires named { All (λ k. k < (V.Visitor.fixed visitor.old).0) group_indices.now }
    requires ticked { IfSome (ticks opt_filter.now) (λ ts. length ts ≡ length group_indices.now) }
    ensures told { V.Visitor.model visitor.new ≡ told_all V.Visitor.after (V.Visitor.model visitor.old) (visits group_indices.now (rows_of L.PackingOf.items values.now) (let_through (ticks opt_filter.now) (length group_indices.now))) }
    ensures same { V.Visitor.fixed visitor.new ≡ V.Visitor.fixed visitor.old }
    ensures fits { All (λ v. V.Visitor.fit v.1) (visits group_indices.now (rows_of L.PackingOf.items values.now) (let_through (ticks opt_filter.now) (length group_indices.now))) }
{
    // One match over the four cases, as the Rust has it, which picks the two tests of the one walk.
    // Copies, which a visit cannot change: what lies behind a reference would be read anew for each row.
    let items = values.values;
    let validity = values.validity;
    let at = opt_filter.start;
    let known = opt_filter.validity;
    match (values.nulls, opt_filter.values) {
        (n, None) if n == 0 => walk(group_indices, &items, |_| true, |_| true, visitor),
        (_, None) => walk(
            group_indices,
            &items,
            |j| validity.valid(j),
            |_| true,
            visitor,
        ),
        (n, Some(yes)) if n == 0 => walk(
            group_indices,
            &items,
            |_| true,
            |j| passes(yes, at, &known, j),
            visitor,
        ),
        (_, Some(yes)) => walk(
            group_indices,
            &items,
            |j| validity.valid(j),
            |j| passes(yes, at, &known, j),
            visitor,
        ),
    }
}

/// The same over packed booleans.
// A twin of its own and no call of `accumulate`: the Rust has both functions, each with its match, and both are carried over.
pub fn accumulate_boolean<V: Visitor<bool>>(
    group_indices: &[usize],
    values: &BooleanColumn<'_>,
    opt_filter: &Filter<'_>,
    visitor: &mut V,
)
    requires even { length group_indices.now ≡ length (rows_of unpacked values.now) }
    requires named { All (λ k. k < (V.Visitor.fixed visitor.old).0) group_indices.now }
    requires ticked { IfSome (ticks opt_filter.now) (λ ts. length ts ≡ length group_indices.now) }
    ensures told { V.Visitor.model visitor.new ≡ told_all V.Visitor.after (V.Visitor.model visitor.old) (visits group_indices.now (rows_of unpacked values.now) (let_through (ticks opt_filter.now) (length group_indices.now))) }
    ensures same { V.Visitor.fixed visitor.new ≡ V.Visitor.fixed visitor.old }
    ensures fits { All (λ v. V.Visitor.fit v.1) (visits group_indices.now (rows_of unpacked values.now) (let_through (ticks opt_filter.now) (length group_indices.now))) }
{
    let bits = values.values;
    let known = values.validity;
    let at = opt_filter.start;
    let ticked = opt_filter.validity;
    match (values.nulls, opt_filter.values) {
        (n, None) if n == 0 => walk(group_indices, &bits, |_| true, |_| true, visitor),
        (_, None) => walk(group_indices, &bits, |j| known.valid(j), |_| true, visitor),
        (n, Some(yes)) if n == 0 => walk(
            group_indices,
            &bits,
            |_| true,
            |j| passes(yes, at, &ticked, j),
            visitor,
        ),
        (_, Some(yes)) => walk(
            group_indices,
            &bits,
            |j| known.valid(j),
            |j| passes(yes, at, &ticked, j),
            visitor,
        ),
    }
}
