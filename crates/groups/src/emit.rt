ghost use Rattle.std.specs.Prelude.{◌≡◌};
ghost use Rattle.groups.specs.Emits.{count_of};

/// Which groups an answer has: all, or the first n.
// The Rust's own enum: an `Option` of a number would not say that `All` makes the switch plain again.
#[derive(Clone, Copy, PartialEq, Eq, Debug)]
pub enum EmitTo {
    All,
    First(usize),
}

impl EmitTo {
    /// How many groups are asked for where so many are kept.
    pub fn count(self, kept: usize) -> usize
        ensures { result ≡ count_of self kept }
    {
        match self {
            EmitTo::All => kept,
            EmitTo::First(n) => n,
        }
    }
}
