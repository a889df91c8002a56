ghost use Rattle.std.specs.Prelude.{◌≡◌, ◌+◌, ◌<◌, ◌≤◌};
ghost use Rattle.paging.specs.Bits.{field as field_of, bits as bits_of, bit as bit-of};

// Bits high:low of a number, as a number. Two numbers and no range, so that `bits(raw, 51, 12)` reads as the manual's 51:12.
pub(crate) fn field(x: u64, high: u16, low: u16) -> u64
    requires { high < low + 63 }
    ensures { result ≡ field_of high low x }
{
    if low > 63 {
        return 0;
    }
    (x >> low) % (1 << (high + 1).saturating_sub(low))
}

// Bits high:low of a number in their places, the rest zero.
pub(crate) fn bits(x: u64, high: u16, low: u16) -> u64
    requires { (low ≤ high) × (high < 63) }
    ensures { result ≡ bits_of high low x }
{
    field(x, high, low) << low
}

// Whether a bit of a number is set.
pub(crate) fn bit(x: u64, n: u16) -> bool
    requires { n < 64 }
    ensures { result ≡ bit-of n x }
{
    field(x, n, n) == 1
}
