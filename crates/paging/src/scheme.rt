ghost use Rattle.std.specs.Prelude.{◌≡◌, ℕ};
ghost use Rattle.paging.specs.Formats.{Format, Sound};

use crate::entry::Entry;

// How a kind of paging leads an address to a page. Each scheme has its own numbers, also where two are alike, so that one
// can change and the others need not be argued again.
pub trait Scheme {
    // The level of the root table; the last level is 1.
    const LEVELS: u8;
    // The bytes of an entry.
    const WIDTH: u8;

    ghost format: { Format };

    // The constants, for proofs.
    ghost LEVELS: { ℕ };

    ghost WIDTH: { ℕ };

    // Whether the scheme has such an address.
    fn lawful(at: u64) -> bool
        ensures { result ≡ format.lawful at };

    // The address of the root table.
    fn root(cr3: u64) -> u64
        ensures { result ≡ format.root cr3 };

    // The place of an address in a table of a level.
    fn index(level: u8, at: u64) -> u64
        ensures { result ≡ format.index level at };

    // What an entry of a level means, or nothing if it is not present.
    fn decode(level: u8, raw: u64) -> Option<Entry>
        ensures { result ≡ format.decoded level raw };

    // The constants are the format's.
    ghost levels: { LEVELS ≡ format.levels };

    ghost width: { WIDTH ≡ format.width };

    ghost sound: { Sound format };
}
