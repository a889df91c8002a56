ghost use Rattle.std.specs.Prelude.{refl};
ghost use Rattle.paging.specs.Schemes.{pae};
ghost use Rattle.paging.specs.Sounds.{pae_sound};

use crate::bits::{bit, bits, field};
use crate::entry::Entry;
use crate::scheme::Scheme;
use crate::target::{page, present, table};

// PAE: three levels of 8-byte entries, for addresses below 2^32. The root table has four entries.
#[derive(Clone, Copy)]
pub struct Pae;

impl Scheme for Pae {
    const LEVELS: u8 = 3;

    const WIDTH: u8 = 8;

    ghost format = { pae };

    ghost LEVELS = { pae.levels };

    ghost WIDTH = { pae.width };

    ghost levels = { refl };

    ghost width = { refl };

    ghost sound = { pae_sound };

    fn lawful(at: u64) -> bool {
        at < 1 << 32
    }

    fn root(cr3: u64) -> u64 {
        bits(cr3, 31, 5)
    }

    fn index(level: u8, at: u64) -> u64 {
        field(at, (9 * level as u16 + 11).min(31), 9 * level as u16 + 3)
    }

    fn decode(level: u8, raw: u64) -> Option<Entry> {
        let target = match level {
            1 => page(raw, 51, 12),
            2 if bit(raw, 7) => page(raw, 51, 21),
            _ => table(raw, 51),
        };
        present(raw, target)
    }
}
