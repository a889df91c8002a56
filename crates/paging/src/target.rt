ghost use Rattle.std.specs.Prelude.{◌≡◌, ◌<◌, ◌≤◌};
ghost use Rattle.paging.specs.Schemes.{page as page-in, table as table-in, present as present-in};

use crate::bits::{bit, bits};
use crate::entry::{Entry, Page, Target};

// The page whose base is bits high:low of its entry.
pub(crate) fn page(raw: u64, high: u16, low: u16) -> Target
    requires { (low ≤ high) × (high < 63) }
    ensures { result ≡ page-in high low raw }
{
    Target::Leaf(Page {
        base: bits(raw, high, low),
        size: 1 << low,
    })
}

// The table at bits high:12 of an entry.
pub(crate) fn table(raw: u64, high: u16) -> Target
    requires { (12 ≤ high) × (high < 63) }
    ensures { result ≡ table-in high raw }
{
    Target::Table(bits(raw, high, 12))
}

// An entry that leads to a target, or nothing if its bit 0 says that it is not present.
pub(crate) fn present(raw: u64, target: Target) -> Option<Entry>
    ensures { result ≡ present-in raw target }
{
    bit(raw, 0).then_some(Entry { target })
}
