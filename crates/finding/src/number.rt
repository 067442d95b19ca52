// Numbers in lent memory.
ghost use Rattle.std.specs.Prelude.{◌≡◌, slice_index};

// The number at place i, 0 beyond the end.
pub fn number_at(numbers: &[u64], i: u64) -> u64
    ensures { result ≡ slice_index numbers.now i }
{
    numbers.get(i as usize).copied().unwrap_or(0)
}
