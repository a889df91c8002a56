ghost use Rattle.std.specs.Prelude.{◌≡◌};
ghost use Rattle.paging.specs.Formats.{Placed};
ghost use Rattle.paging.specs.Paged.{final};

use crate::entry::Page;

// Where an address goes: the final address in the space below, and the size of the page that it lies on.
#[derive(Clone, Copy, Debug, PartialEq, Eq)]
pub struct Translation {
    pub address: u64,
    pub size: u64,
}

impl Translation {
    // Of an address on a page: the page's base plus the address bits below it.
    pub(crate) fn on(page: Page, at: u64) -> Translation
        requires { Placed page }
        ensures { result ≡ final page at }
    {
        Translation {
            address: page.base + at % page.size,
            size: page.size,
        }
    }
}
