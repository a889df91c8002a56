ghost use Rattle.std.specs.Prelude.{◌≡◌, ◌<◌, min, length, MatchResult};
ghost use Rattle.extents.specs.Tables.{held, room};
ghost use Rattle.images.specs.Loads.{Loads};
ghost use Rattle.images.specs.Kinds.{lime_bounds};
ghost use Rattle.images.specs.Steps.{AddsNext};
ghost use Rattle.images.specs.Lime.{header_in, header_at, end_of, lime};
ghost use Rattle.images.specs.Shows.{ShowsRanges, StopsAt};

use crate::load::NotLoaded;
use crate::range::LimeRange;
use crate::refusal::LoadRefusal;
use crate::step::add;
use endian::{u32_at, u64_at};
use extents::Table;

const MAGIC: u32 = 0x4C69_4D45;

const HEADER: usize = 32;

// What a header says.
#[derive(Clone, Copy)]
struct Header {
    magic: u32,
    version: u32,
    first: u64,
    last: u64,
}

// The header at a place, or none if the file ends before it does.
fn header_in(file: &[u8], place: usize) -> Option<Header>
    ensures { result ≡ header_in file.now place }
{
    if file.get(place..)?.len() < HEADER {
        return None;
    }
    Some(Header {
        magic: u32_at(file, place)?,
        version: u32_at(file, place + 4)?,
        first: u64_at(file, place + 8)?,
        last: u64_at(file, place + 16)?,
    })
}

// The range whose header stands at a place.
fn header_at(file: &[u8], place: usize) -> Result<LimeRange, LoadRefusal>
    ensures { result ≡ header_at file.now place }
{
    let header = header_in(file, place).ok_or(LoadRefusal::HeaderCut)?;
    if header.magic != MAGIC || header.version != 1 || header.last < header.first {
        return Err(LoadRefusal::BadHeader);
    }
    Ok(LimeRange {
        first: header.first,
        last: header.last,
        place: (place + HEADER) as u64,
    })
}

// The place behind a range's bytes, the file's end at the latest.
fn end_in(file: &[u8], range: &LimeRange) -> usize
    ensures { result ≡ min (end_of range.now) (length file.now) }
{
    let end = range.place as u128 + range.last.saturating_sub(range.first) as u128 + 1;
    end.min(file.len() as u128) as usize
}

// Adds the range whose header stands at a place to the table.
fn add_next(
    file: &[u8],
    place: usize,
    table: &mut Table<'_, LimeRange>,
) -> Result<LimeRange, LoadRefusal>
    ensures { AddsNext lime_bounds (header_at file.now place) table.old table.new result }
{
    let range = header_at(file, place)?;
    add(table, range)?;
    Ok(range)
}

// Reads range after range into the table. A `while`, since a header's place is known only from the range before it. The
// `match` leaves the loop in as few lines as a closure would. Its caller adds what this means for the image: here that would
// have to be argued at each way out.
fn load(file: &[u8], table: &mut Table<'_, LimeRange>) -> Result<usize, NotLoaded>
    ensures { Loads (lime (room table.old) file.now) table.old table.new result }
{
    table.clear();
    let mut place = 0;
    while place < file.len() {
        match add_next(file, place, table) {
            Ok(range) => place = end_in(file, &range),
            Err(refusal) => {
                return Err(NotLoaded {
                    refusal,
                    place,
                    written: table.len(),
                });
            }
        }
    }
    Ok(table.len())
}

// Makes the table hold a LiME file's ranges.
pub fn load_lime(file: &[u8], table: &mut Table<'_, LimeRange>) -> Result<usize, NotLoaded>
    ensures loads { Loads (lime (room table.old) file.now) table.old table.new result }
    ensures law { MatchResult result (λ _. ShowsRanges file.now (held table.new)) (StopsAt file.now (room table.old) (held table.new)) }
{
    load(file, table)
}
