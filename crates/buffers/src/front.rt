ghost use Rattle.std.specs.Prelude.{◌≡◌, ℕ, ◌<◌, ◌≤◌, List, length, slice_index_or};
ghost use Rattle.buffers.specs.Memory.{front, Makes};

/// Writes the first n items over the front, each made of its number; what lies past them stays.
pub fn write_front<T: Copy, F: Fn(usize) -> T>(out: &mut [T], n: usize, make: F)
    requires room { n ≤ length out.old }
    requires makes { (j : ℕ) → j < n → F.pre make j }
    ensures { (xs : List T) → length xs ≡ n → Makes (F.post make) xs → out.new ≡ front xs out.old }
{
    for (j, slot) in out[0..n].iter_mut().enumerate() {
        *slot = make(j);
    }
}
