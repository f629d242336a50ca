ghost use Rattle.std.specs.Prelude.{◌≡◌};
ghost use Rattle.keys.specs.Hash.{mixed, scattered};

/// A product of 64 bits, its high half folded into the low half: the low bits of a product alone are weak, and it is
/// they that pick a slot.
pub fn mix(number: u64, factor: u64) -> u64
    ensures { result ≡ mixed number factor }
{
    let product = number.wrapping_mul(factor);
    product ^ (product >> 32)
}

/// The hash number of some bits under a seed. The seed is in the number and in a factor, so that who does not know it
/// cannot choose bits that share a slot. Every factor is odd, so that no product loses a bit.
pub fn scatter(seed: u64, bits: u64) -> u64
    ensures { result ≡ scattered seed bits }
{
    let first = mix(seed ^ bits, 0x9E37_79B9_7F4A_7C15);
    let second = mix(first, (seed ^ 0xBF58_476D_1CE4_E5B9) | 1);
    mix(second, 0x94D0_49BB_1331_11EB)
}
