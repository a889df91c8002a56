// A byte that stands at an address in the place of the one below.
#[derive(Clone, Copy, Debug, Default, PartialEq, Eq)]
pub struct Patch {
    pub address: u64,
    pub byte: u8,
}
