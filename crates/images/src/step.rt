ghost use Rattle.images.specs.Steps.{Adds};

use crate::refusal::LoadRefusal;
use extents::{Extent, Table};

// One step of a load, whatever the kind of its extents: an extent is added to the table unless it overlaps one that the table
// holds, or there is no room for it; then nothing changes.
pub(crate) fn add<E: Extent + Copy>(table: &mut Table<'_, E>, extent: E) -> Result<(), LoadRefusal>
    ensures { Adds E.Extent.bounds table.old table.new extent result }
{
    if table.overlaps(&extent) {
        return Err(LoadRefusal::Overlap);
    }
    table.push(extent).map_err(|_| LoadRefusal::TableFull)
}
