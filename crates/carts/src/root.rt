ghost use Rattle.std.specs.Prelude.{◌≡◌};
ghost use Rattle.carts.specs.Carts.{cr3_in};

// How many bytes count of a root file.
pub const ROOT: usize = 8;

// CR3 by a root file: its first eight bytes, the lowest first. Those that are missing are zeros.
pub fn cr3_in(root: &[u8]) -> u64
    ensures { result ≡ cr3_in root.now }
{
    let mut bytes = [0; ROOT];
    let count = root.len().min(ROOT);
    bytes[..count].copy_from_slice(&root[..count]);
    u64::from_le_bytes(bytes)
}
