/// The most rows of a batch, and the most groups, of any accumulator.
pub const MOST: usize = 65_536;

/// The most pairs of any accumulator.
pub const MOST_PAIRS: usize = 1_048_576;

/// What a batch is checked against: the most rows of one, and the most groups of its accumulator.
#[derive(Clone, Copy, PartialEq, Eq, Debug)]
pub struct BatchLimits {
    pub rows: usize,
    pub groups: usize,
}
