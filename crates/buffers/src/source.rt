ghost use Rattle.std.specs.Prelude.{◌≡◌, ◌<◌, List, length, slice_index_or};
ghost use Rattle.columnar.specs.Columns.{items_of};

use columnar::items::Items;
use columnar::packing::Readable;

/// Items read by place, to write an answer from.
// A trait and no closure: that the items are a list is a ghost member, which each clause names in place of a premise.
pub trait Source<X> {
    ghost items: { Self → List X };

    fn get(&self, j: usize) -> X
        requires { j < length (items self.now) }
        ensures { result ≡ slice_index_or (items self.now) j result };
}

/// Lent items, by place.
impl<'a, L: Readable<S>, S> Source<L::Item> for Items<'a, L, S> {
    ghost items = { items_of L.PackingOf.items };

    fn get(&self, j: usize) -> L::Item {
        Items::get(self, j)
    }
}

impl<'a, X: Copy> Source<X> for &'a [X] {
    ghost items = { λ s. s.now };

    fn get(&self, j: usize) -> X {
        let items = *self;
        items[j]
    }
}
