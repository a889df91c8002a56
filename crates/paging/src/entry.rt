// The memory below that an entry maps: its first address and its size.
#[derive(Clone, Copy, Debug, PartialEq, Eq)]
pub struct Page {
    pub base: u64,
    pub size: u64,
}

// Where an entry leads: to the next table, or to a page.
#[derive(Clone, Copy, Debug, PartialEq, Eq)]
pub enum Target {
    Table(u64),
    Leaf(Page),
}

// What an entry that is present tells.
#[derive(Clone, Copy, Debug, PartialEq, Eq)]
pub struct Entry {
    pub target: Target,
}
