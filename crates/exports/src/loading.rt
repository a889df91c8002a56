ghost use Rattle.std.specs.Prelude.{◌≡◌};
ghost use Rattle.exports.specs.Loading.{loaded, told_of};

use crate::told::Told;
use carts::RANGES;
use extents::Table;
use images::{LimeRange, load_lime};

// Loads a LiME dump, all of its bytes, with room for so many ranges, 64 at the most. Tells the refusal, the place in the dump
// where loading stopped, and how many ranges were written.
#[unsafe(no_mangle)]
pub extern "C" fn aisle_load(dump: &[u8], room: usize, told: &mut Told)
    ensures { told.new ≡ told_of (loaded room dump.now) }
{
    let mut memory = [LimeRange::default(); RANGES];
    let mut table = Table::new(&mut memory[..room.min(RANGES)]);
    *told = match load_lime(dump, &mut table) {
        Ok(count) => Told::done(0, count),
        Err(not) => Told::refused(not.refusal, not.place, not.written),
    };
}
