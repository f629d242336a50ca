ghost use Rattle.std.specs.Prelude.{◌≡◌, ◌<◌, Bool, List, map, length, is_some, Some, None, slice_index_or};
ghost use Rattle.columnar.specs.Cells.{over, passes, admitted_rows};
ghost use Rattle.columnar.specs.Views.{ticks};

use crate::source::Source;
use columnar::filter::Filter;
use columnar::rows::{FlatRows, Rows};
use std::marker::PhantomData;

// A column and a filter over it stay two parameters, as the Rust has them.
/// What is seen of row j where the filter lets it through, else null. A filter lets nothing through past its end.
fn admitted<X, C: FlatRows<X>>(values: &C, opt_filter: &Filter<'_>, j: usize) -> Option<X>
    requires { j < length (C.Rows.cells values.now) }
    ensures { result ≡ slice_index_or (admitted_rows (passes (ticks opt_filter.now) (length (C.Rows.cells values.now))) (C.Rows.cells values.now)) j None }
{
    if opt_filter.row(j).unwrap_or(false) {
        return values.read(j);
    }
    None
}

/// Whether each row is valid and let through.
#[derive(Drop)]
pub struct AdmittedMarks<'c, 'f, 'v, X, C> {
    pub values: &'c C,
    pub opt_filter: &'f Filter<'v>,
    pub value: PhantomData<X>,
}

impl<'c, 'f, 'v, X: Drop, C: FlatRows<X>> Source<bool> for AdmittedMarks<'c, 'f, 'v, X, C> {
    ghost items = { λ s. map is_some (admitted_rows (passes (ticks s.opt_filter.now) (length (C.Rows.cells s.values.now))) (C.Rows.cells s.values.now)) };

    fn get(&self, j: usize) -> bool {
        admitted(self.values, self.opt_filter, j).is_some()
    }
}

/// Each row's value where it is valid and let through, else the filler.
#[derive(Drop)]
pub struct AdmittedFigures<'c, 'f, 'v, X, C> {
    pub values: &'c C,
    pub opt_filter: &'f Filter<'v>,
    pub filler: X,
}

impl<'c, 'f, 'v, X: Copy, C: FlatRows<X>> Source<X> for AdmittedFigures<'c, 'f, 'v, X, C> {
    ghost items = { λ s. map (λ o. (over s.filler o).figure) (admitted_rows (passes (ticks s.opt_filter.now) (length (C.Rows.cells s.values.now))) (C.Rows.cells s.values.now)) };

    fn get(&self, j: usize) -> X {
        admitted(self.values, self.opt_filter, j).unwrap_or(self.filler)
    }
}
