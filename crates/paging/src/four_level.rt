ghost use Rattle.std.specs.Prelude.{refl};
ghost use Rattle.paging.specs.Schemes.{four_level};
ghost use Rattle.paging.specs.Sounds.{four_sound};

use crate::bits::{bit, bits, field};
use crate::entry::Entry;
use crate::scheme::Scheme;
use crate::target::{page, present, table};

// Four levels of 8-byte entries, for addresses whose bits 63 to 47 are equal.
#[derive(Clone, Copy)]
pub struct FourLevel;

impl Scheme for FourLevel {
    const LEVELS: u8 = 4;

    const WIDTH: u8 = 8;

    ghost format = { four_level };

    ghost LEVELS = { four_level.levels };

    ghost WIDTH = { four_level.width };

    ghost levels = { refl };

    ghost width = { refl };

    ghost sound = { four_sound };

    fn lawful(at: u64) -> bool {
        let top = field(at, 63, 47);
        top == 0 || top == 0x1ffff
    }

    fn root(cr3: u64) -> u64 {
        bits(cr3, 51, 12)
    }

    fn index(level: u8, at: u64) -> u64 {
        field(at, 9 * level as u16 + 11, 9 * level as u16 + 3)
    }

    fn decode(level: u8, raw: u64) -> Option<Entry> {
        let target = match level {
            1 => page(raw, 51, 12),
            2 if bit(raw, 7) => page(raw, 51, 21),
            3 if bit(raw, 7) => page(raw, 51, 30),
            _ => table(raw, 51),
        };
        present(raw, target)
    }
}
