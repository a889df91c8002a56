ghost use Rattle.std.specs.Result.{MatchResult};
ghost use Rattle.extents.specs.Tables.{held, room};
ghost use Rattle.images.specs.Loads.{Loads};
ghost use Rattle.images.specs.Raw.{raw, ShowsFile, NoRoom};

use crate::load::NotLoaded;
use crate::raw::RawExtent;
use crate::step::add;
use extents::Table;

// Makes the table hold a raw file's extent.
pub fn load_raw(file: &[u8], table: &mut Table<'_, RawExtent>) -> Result<usize, NotLoaded>
    ensures loads { Loads (raw (room table.old) file.now) table.old table.new result }
    ensures law { MatchResult result (λ _. ShowsFile file.now (held table.new)) (NoRoom file.now (room table.old) (held table.new)) }
{
    table.clear();
    let Some(last) = (file.len() as u64).checked_sub(1) else {
        return Ok(0);
    };
    add(table, RawExtent { last }).map_err(|refusal| NotLoaded {
        refusal,
        place: 0,
        written: 0,
    })?;
    Ok(1)
}
