ghost use Rattle.std.specs.Prelude.{◌≡◌, ◌*◌, ◌<◌, ◌≤◌, length, take};
ghost use Rattle.columnar.specs.Packed.{bytes_for, byte_at, packed};
ghost use Rattle.buffers.specs.Memory.{front};
ghost use Rattle.buffers.specs.ReadBack.{WrittenReadsBack};

use crate::front::write_front;
use crate::source::Source;

/// How many bytes n bits take, by parts, since n + 7 need not fit.
pub fn bytes_for(n: usize) -> usize
    ensures { result ≡ bytes_for n }
{
    n / 8 + (n % 8 + 7) / 8
}

/// Byte k of the first n bits, with zeros after the last of them.
fn packed_byte<S: Source<bool>>(bits: &S, n: usize, k: usize) -> u8
    requires within { n ≤ length (S.Source.items bits.now) }
    requires some { 8 * k < n }
    ensures { result ≡ byte_at (take n (S.Source.items bits.now)) k }
{
    let from = 8 * k;
    let width = (n - from).min(8);
    let mut byte: u8 = 0;
    // A `fold` would be no plainer: the number is the bit's place and its weight in either.
    for i in 0..width {
        if bits.get(from + i) {
            byte += 1 << i;
        }
    }
    byte
}

/// Packs the first n bits into the front of `out`, with zeros after the last of them; the bytes past that stay.
pub fn write_bits<S: Source<bool>>(out: &mut [u8], bits: &S, n: usize)
    requires within { n ≤ length (S.Source.items bits.now) }
    requires room { bytes_for n ≤ length out.old }
    ensures { out.new ≡ front (packed (take n (S.Source.items bits.now))) out.old }
{
    write_front(out, bytes_for(n), |k| packed_byte(bits, n, k));
}

/// States that what is written reads back: bits once packed, and columns laid down in buffers.
pub fn written_reads_back<T>()
    ensures { WrittenReadsBack T }
{}
