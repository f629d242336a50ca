ghost use Rattle.std.specs.Prelude.{◌≡◌, ℕ, ◌+◌, ◌*◌, ◌<◌, ◌≤◌, not, length, count_by, Some, None};
ghost use Rattle.std.specs.List.{range_with_len};
ghost use Rattle.std.specs.Option.{option_map};
ghost use Rattle.columnar.specs.Rows.{valid_at, Within};

use crate::bits::bit;
use crate::items::Mask;

/// Which of `len` rows are valid: those that the mask, read from bit `start` on, has as valid, or all where there is none.
// It is the bytes that are optional: by a rule of the project no view with an invariant stands in an `Option`. A start and a
// length stand beside them, since a mask begins and ends within a byte.
#[derive(Clone, Copy)]
pub struct Validity<'a> {
    pub mask: Option<&'a [u8]>,
    pub start: usize,
    pub len: usize,
    ghost fits: { Within (option_map (λ x. x.now) mask) start len },
}

impl<'a> Validity<'a> {
    /// No mask, so that no row is null.
    pub fn all(len: usize) -> Validity<'a>
        ensures mask { result.mask ≡ None }
        ensures len { result.len ≡ len }
    {
        Validity {
            mask: None,
            start: 0,
            len,
        }
    }

    /// Whether row j is valid.
    pub fn valid(&self, j: usize) -> bool
        requires { j < self.now.len }
        ensures { result ≡ valid_at (option_map (λ x. x.now) self.now.mask) self.now.start j }
    {
        let Some(bytes) = self.mask else {
            return true;
        };
        bit(bytes, self.start, j)
    }

    /// How many of the rows are null.
    pub fn count_nulls(&self) -> usize
        ensures { result ≡ count_by (λ j. not (valid_at (option_map (λ x. x.now) self.now.mask) self.now.start j)) (range_with_len 0 self.now.len) }
    {
        // By a loop: as `filter(..).count()` it took four and a half times as long.
        let mut nulls: usize = 0;
        for j in 0..self.len {
            if !self.valid(j) {
                nulls += 1;
            }
        }
        nulls
    }
}

/// A mask over as many rows.
impl<'a> From<Mask<'a>> for Validity<'a> {
    ghost from_gives = { λ m v. (v.mask ≡ Some m.slots) × ((v.start ≡ m.start) × (v.len ≡ m.len)) };

    fn from(mask: Mask<'a>) -> Validity<'a> {
        Validity {
            mask: Some(mask.slots),
            start: mask.start,
            len: mask.len,
        }
    }
}
