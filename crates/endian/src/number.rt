ghost use Rattle.std.specs.Prelude.{◌≡◌};
ghost use Rattle.endian.specs.Little.{bytes_in, number_in};

// The N bytes from a place on, or none if the bytes end before that.
fn bytes_at<const N: usize>(bytes: &[u8], place: usize) -> Option<[u8; N]>
    ensures { result ≡ bytes_in bytes.now place N }
{
    bytes.get(place..)?.first_chunk::<N>().copied()
}

// The number in the four bytes at a place, or none if the bytes end before it does.
pub fn u32_at(bytes: &[u8], place: usize) -> Option<u32>
    ensures { result ≡ number_in bytes.now place 4 }
{
    bytes_at(bytes, place).map(u32::from_le_bytes)
}

// The same of eight bytes.
pub fn u64_at(bytes: &[u8], place: usize) -> Option<u64>
    ensures { result ≡ number_in bytes.now place 8 }
{
    bytes_at(bytes, place).map(u64::from_le_bytes)
}
