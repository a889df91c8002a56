ghost use Rattle.std.specs.Prelude.{refl};
ghost use Rattle.paging.specs.Schemes.{two_level};
ghost use Rattle.paging.specs.Sounds.{two_sound};

use crate::bits::{bit, bits, field};
use crate::entry::Entry;
use crate::scheme::Scheme;
use crate::target::{page, present, table};

// Two levels of 4-byte entries, for addresses below 2^32.
#[derive(Clone, Copy)]
pub struct TwoLevel;

impl Scheme for TwoLevel {
    const LEVELS: u8 = 2;

    const WIDTH: u8 = 4;

    ghost format = { two_level };

    ghost LEVELS = { two_level.levels };

    ghost WIDTH = { two_level.width };

    ghost levels = { refl };

    ghost width = { refl };

    ghost sound = { two_sound };

    fn lawful(at: u64) -> bool {
        at < 1 << 32
    }

    fn root(cr3: u64) -> u64 {
        bits(cr3, 31, 12)
    }

    fn index(level: u8, at: u64) -> u64 {
        field(at, 10 * level as u16 + 11, 10 * level as u16 + 2)
    }

    fn decode(level: u8, raw: u64) -> Option<Entry> {
        let target = match level {
            1 => page(raw, 31, 12),
            2 if bit(raw, 7) => page(raw, 31, 22),
            _ => table(raw, 31),
        };
        present(raw, target)
    }
}
