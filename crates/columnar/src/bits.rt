ghost use Rattle.std.specs.Prelude.{◌≡◌, ◌+◌, ◌*◌, ◌<◌, length};
ghost use Rattle.columnar.specs.Packed.{bit_at};

/// Bit `start + j` of packed bytes, by parts, since the sum itself need not fit.
pub fn bit(bytes: &[u8], start: usize, j: usize) -> bool
    requires { start + j < 8 * length bytes.now }
    ensures { result ≡ bit_at bytes.now (start + j) }
{
    let low = start % 8 + j % 8;
    let at = start / 8 + j / 8 + low / 8;
    (bytes[at] >> (low % 8)) % 2 == 1
}
