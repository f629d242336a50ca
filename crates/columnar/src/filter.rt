ghost use Rattle.std.specs.Prelude.{◌≡◌, ℕ, ◌+◌, ◌*◌, ◌<◌, ◌≤◌, true, ◌&&◌, length, is_some, Some, None, IfOk};
ghost use Rattle.std.specs.List.{slice_get};
ghost use Rattle.std.specs.Option.{option_map, unwrap_or};
ghost use Rattle.std.specs.Result.{result_err};
ghost use Rattle.columnar.specs.Packed.{bit_at};
ghost use Rattle.columnar.specs.Refusals.{lengths_refusal};
ghost use Rattle.columnar.specs.Rows.{Within, boolean_cells, valid_at};

use crate::bits::bit;
use crate::column::BooleanColumn;
use crate::items::Mask;
use crate::refusal::Refusal;
use crate::validity::Validity;

/// A filter that may not be given: then it has no value bytes, and lets every row through. One that is given lets those
/// rows through for which it holds a valid yes.
// A view that says whether it is given, as the project has it, in place of an `Option` of a view: the walk matches on the
// bytes. Their start stands beside them, since packed rows begin within a byte.
#[derive(Clone, Copy)]
pub struct Filter<'a> {
    pub values: Option<&'a [u8]>,
    pub start: usize,
    pub validity: Validity<'a>,
    ghost fits: { Within (option_map (λ x. x.now) values) start validity.len },
}

/// A filter that is given.
impl<'a> From<BooleanColumn<'a>> for Filter<'a> {
    ghost from_gives = { λ c f. (f.values ≡ Some c.values.slots) × ((f.start ≡ c.values.start) × (f.validity ≡ c.validity)) };

    fn from(ticks: BooleanColumn<'a>) -> Filter<'a> {
        Filter {
            values: Some(ticks.values.slots),
            start: ticks.values.start,
            validity: ticks.validity,
        }
    }
}

impl<'a> Filter<'a> {
    ghost use Rattle.columnar.specs.Views.{ticks};

    /// No filter.
    pub fn none() -> Filter<'a>
        ensures { ticks result ≡ None }
    {
        Filter {
            values: None,
            start: 0,
            validity: Validity::all(0),
        }
    }

    /// A filter without a mask.
    pub fn plain(values: Mask<'a>) -> Filter<'a>
        ensures { ticks result ≡ Some (boolean_cells values.entry.slots.now values.entry.start None 0 values.entry.len) }
    {
        Filter::from(BooleanColumn::plain(values))
    }

    /// A filter with a mask, or a refusal where the two differ in length.
    pub fn new(values: Mask<'a>, mask: Mask<'a>) -> Result<Filter<'a>, Refusal>
        ensures refused { result_err result ≡ lengths_refusal mask.entry.len values.entry.len }
        ensures shows { IfOk result (λ f. ticks f ≡ Some (boolean_cells values.entry.slots.now values.entry.start (Some mask.entry.slots.now) mask.entry.start values.entry.len)) }
    {
        // By hand and not of a boolean column, whose making counts its nulls: a filter needs no count.
        if mask.len != values.len {
            return Err(Refusal::MaskLength);
        }
        Ok(Filter {
            values: Some(values.slots),
            start: values.start,
            validity: Validity::from(mask),
        })
    }

    /// Whether a filter is given.
    pub fn given(&self) -> bool
        ensures { result ≡ is_some (ticks self.now) }
    {
        self.values.is_some()
    }

    /// The length of a filter that is given.
    pub fn ticked(&self) -> Option<usize>
        ensures { result ≡ option_map length (ticks self.now) }
    {
        self.given().then_some(self.validity.len)
    }

    /// Whether row j is let through: absent past the end of a filter that is given.
    pub fn row(&self, j: usize) -> Option<bool>
        ensures { result ≡ unwrap_or (option_map (λ ts. option_map (λ t. t.valid && t.figure) (slice_get ts j)) (ticks self.now)) (Some true) }
    {
        let Some(values) = self.values else {
            return Some(true);
        };
        if j >= self.validity.len {
            return None;
        }
        Some(passes(values, self.start, &self.validity, j))
    }
}

/// Whether a filter that is given lets row j through: a valid yes.
pub fn passes(values: &[u8], start: usize, validity: &Validity<'_>, j: usize) -> bool
    requires values { start + j < 8 * length values.now }
    requires mask { j < validity.now.len }
    ensures { result ≡ (valid_at (option_map (λ x. x.now) validity.now.mask) validity.now.start j && bit_at values.now (start + j)) }
{
    validity.valid(j) && bit(values, start, j)
}
