ghost use Rattle.std.specs.Prelude.{◌≡◌};
ghost use Rattle.spaces.specs.Reads.{most};

// How many addresses from the first on a buffer has room for, none above 2^64 - 1.
pub fn most(first: u64, buffer: &[u8]) -> usize
    ensures { result ≡ most first buffer.now }
{
    let addresses = (1 << 64) - first as u128;
    addresses.min(buffer.len() as u128) as usize
}
