// Zeros in the first part of lent memory.
ghost use Rattle.std.specs.Prelude.{◌≡◌};
ghost use Rattle.std.proofs.Common.{rules};
ghost use Rattle.finding.specs.Cleared.{ClearedTo};

// A type of numbers. Its zero is copied as itself.
pub trait Zero: Copy {
    ghost ZERO: { Self };

    const ZERO: Self;

    ghost copied: { Self.is_infallible ZERO × ((y : Self) → Self.is_clone ZERO y → y ≡ ZERO) };
}

impl Zero for u8 {
    ghost ZERO = { 0 };

    const ZERO: u8 = 0;

    ghost copied = { Prim.search rules };
}

impl Zero for u16 {
    ghost ZERO = { 0 };

    const ZERO: u16 = 0;

    ghost copied = { Prim.search rules };
}

impl Zero for u64 {
    ghost ZERO = { 0 };

    const ZERO: u64 = 0;

    ghost copied = { Prim.search rules };
}

// The first n numbers become zero; where there are fewer, nothing is changed.
pub fn clear<T: Zero>(items: &mut [T], n: usize)
    ensures { ClearedTo T.ZERO n items.old items.new }
{
    if n <= items.len() {
        items[..n].fill(T::ZERO);
    }
}
