ghost use Rattle.std.specs.Prelude.{◌≡◌, ◌<◌, List, length, Some};
ghost use Rattle.std.specs.List.{slice_get};
ghost use Rattle.std.specs.Option.{option_map};
ghost use Rattle.columnar.specs.Cells.{Cell, seen, nulls};

/// A view as its rows: what a column means to every accumulator is fixed here, on the library's own views.
pub trait Rows<X> {
    ghost cells: { Self → List (Cell X) };

    fn len(&self) -> usize
        ensures { result ≡ length (cells self.now) };

    fn null_count(&self) -> usize
        ensures { result ≡ nulls (cells self.now) };
}

/// A view with one value a row, read row by row.
pub trait FlatRows<X>: Rows<X> {
    /// Row j, of those that there are: a value or null.
    fn read(&self, j: usize) -> Option<X>
        requires { j < length (Self.Rows.cells self.now) }
        ensures { Some result ≡ option_map seen (slice_get (Self.Rows.cells self.now) j) };
}

/// A list row: in a contract an array is the list of its elements. No value of this type is ever made.
pub type ListRow<T> = [T; 1];
