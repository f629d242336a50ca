ghost use Rattle.std.specs.Prelude.{◌≡◌};
ghost use Rattle.columnar.specs.Refusals.{number_of};

use std::fmt;

/// Why a call was refused. The order is that of the numbers, 1 to 14.
#[derive(Clone, Copy, PartialEq, Eq, Debug)]
pub enum Refusal {
    /// A mask's or packed column's start plus length exceeds eight times its bytes.
    BitsOutOfBytes = 1,
    /// A column's mask and values differ in length.
    MaskLength = 2,
    /// A list column has no offset, a negative one, one below its predecessor, or a last one above its items.
    Offsets = 3,
    /// A span record's least exceeds its greatest.
    SpanOrder = 4,
    /// The column has more rows than the accumulator takes.
    TooManyRows = 5,
    /// Its rows differ in number from the group indices.
    IndexCount = 6,
    /// The filter has another length than the rows.
    FilterLength = 7,
    /// The total is below the number of kept groups.
    TotalBelowKept = 8,
    /// The total is above the most groups that the accumulator keeps.
    TotalAboveLimit = 9,
    /// A group index is not below the total.
    IndexAboveTotal = 10,
    /// A group from the kept number up to the total is named by no row.
    GroupNotNamed = 11,
    /// The pairs kept after the call would be too many.
    TooManyPairs = 12,
    /// More groups are asked for than are kept.
    TooManyGroups = 13,
    /// An answer buffer has fewer places than needed.
    ShortBuffer = 14,
}

impl Refusal {
    /// The refusal's number, 1 to 14.
    // A number, since it is by its number that a refusal is known outside.
    pub fn number(self) -> u8
        ensures { result ≡ number_of self }
    {
        self as u8
    }
}

/// Its number and its name.
impl fmt::Display for Refusal {
    fn fmt<W: fmt::Write>(&self, f: &mut fmt::Formatter<W>) -> fmt::Result {
        let number = self.number();
        write!(f, "{number}, {self:?}")
    }
}
