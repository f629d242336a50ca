ghost use Rattle.std.specs.Prelude.{◌≡◌, ℕ, ◌+◌, ◌*◌, Bool, true, nat_eq, refl};
ghost use Rattle.std.specs.Int.{w64};
ghost use Rattle.std.proofs.Common.{of_z};
ghost use Rattle.std.specs.Ordering.{int_eq};
ghost use Rattle.std.specs.Cmp.{IsEquivalence, nat_eq_equiv, int_eq_equiv};
ghost use Rattle.keys.specs.Hash.{scattered};
ghost use Rattle.keys.specs.Same.{equal_doors, doors, number_hashes, signed_hashes, door_hashes};

use crate::hash::scatter;

/// A value that can be told apart from others and found by a hash number.
pub trait Key: Copy {
    /// Whether two keys count as one.
    ghost same: { Self → Self → Bool };

    ghost equivalence: { IsEquivalence same };

    /// The hash number of a key under a seed.
    ghost hash: { ℕ → Self → ℕ };

    /// Keys that count as one have one hash number.
    ghost hashes: { (seed : ℕ) (a b : Self) → same a b ≡ true → hash seed a ≡ hash seed b };

    fn is(self, other: Self) -> bool
        ensures { result ≡ same self other };

    fn hash_number(self, seed: u64) -> u64
        ensures { result ≡ hash seed self };
}

/// What a value that `==` tells apart needs to be a key.
pub trait Hashed: Copy + Eq {
    /// Whether two values are equal.
    ghost equal: { Self → Self → Bool };

    ghost equivalence: { IsEquivalence equal };

    /// The hash number of a value under a seed.
    ghost number: { ℕ → Self → ℕ };

    /// Equal values have one hash number.
    ghost numbers: { (seed : ℕ) (a b : Self) → equal a b ≡ true → number seed a ≡ number seed b };

    fn number(self, seed: u64) -> u64
        ensures { result ≡ number seed self };

    /// Equal is what `==` finds.
    ghost finds: { (a b : Self) → Self.eq a b ≡ equal a b };
}

impl<K: Hashed> Key for K {
    ghost same = { K.Hashed.equal };

    ghost equivalence = { K.Hashed.equivalence };

    ghost hash = { K.Hashed.number };

    ghost hashes = { K.Hashed.numbers };

    fn is(self, other: K) -> bool {
        self == other
    }

    fn hash_number(self, seed: u64) -> u64 {
        self.number(seed)
    }
}

impl Hashed for i64 {
    ghost equal = { int_eq };

    ghost equivalence = { int_eq_equiv };

    ghost number = { λ seed a. scattered seed (of_z w64 a) };

    ghost numbers = { signed_hashes };

    fn number(self, seed: u64) -> u64 {
        scatter(seed, self.cast_unsigned())
    }

    ghost finds = { λ a b. refl };
}

impl Hashed for u32 {
    ghost equal = { nat_eq };

    ghost equivalence = { nat_eq_equiv };

    ghost number = { scattered };

    ghost numbers = { number_hashes };

    fn number(self, seed: u64) -> u64 {
        scatter(seed, self as u64)
    }

    ghost finds = { λ a b. refl };
}

/// A house in a street.
#[derive(Clone, Copy, PartialEq, Eq, Debug)]
pub struct Door {
    pub street: u32,
    pub house: u16,
}

impl Hashed for Door {
    ghost equal = { equal_doors };

    ghost equivalence = { doors };

    // the street above the 16 bits of the house
    ghost number = { λ seed a. scattered seed (a.street * 65536 + a.house) };

    ghost numbers = { door_hashes };

    fn number(self, seed: u64) -> u64 {
        scatter(seed, self.street as u64 * 65536 + self.house as u64)
    }

    ghost finds = { λ a b. refl };
}
