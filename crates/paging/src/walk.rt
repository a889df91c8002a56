ghost use Rattle.std.specs.Prelude.{◌≡◌, ◌+◌, ◌*◌, ◌^◌, ◌<◌, ◌≤◌, IfOk};
ghost use Rattle.spaces.specs.Maps.{raised};
ghost use Rattle.spaces.specs.Piles.{shown};
ghost use Rattle.spaces.specs.Reads.{span, got};
ghost use Rattle.spaces.specs.Walks.{found};
ghost use Rattle.paging.specs.Formats.{Placed};
ghost use Rattle.paging.specs.Paged.{page_of};
ghost use Rattle.paging.specs.Entries.{as_number, entry_found};

use crate::cause::PagingCause;
use crate::entry::{Entry, Page, Target};
use crate::scheme::Scheme;
use spaces::{Fault, FaultCause, Space, climb, fill_below};

// The byte below at an address; a fault comes up one deeper.
pub(crate) fn byte_below<S: Space>(below: &S, at: u64) -> Result<u8, Fault>
    ensures { result ≡ raised (shown (S.Space.meaning below.now) at) }
{
    climb(below.byte(at))
}

// The number in so many bytes below. As `fill` promises, the lowest byte is read first, and the first that is missing is the
// fault.
fn number<S: Space>(below: &S, at: u64, width: u8) -> Result<u64, Fault>
    requires { (width ≤ 8) × (at + width < 2 ^ 64) }
    ensures { result ≡ as_number (got (shown (S.Space.meaning below.now)) (span at width)) }
{
    let mut bytes = [0; 8];
    match fill_below(below, at, &mut bytes[..width as usize]) {
        (_, Some(fault)) => Err(fault),
        (_, None) => Ok(u64::from_le_bytes(bytes)),
    }
}

// The entry of an address in a table of a level.
fn entry<P: Scheme, S: Space>(below: &S, table: u64, level: u8, at: u64) -> Result<Entry, Fault>
    requires { table < 2 ^ 52 }
    ensures { result ≡ entry_found P.Scheme.format (shown (S.Space.meaning below.now)) at level table }
{
    let place = table + P::index(level, at) * P::WIDTH as u64;
    let raw = number(below, place, P::WIDTH)?;
    // an entry that is not present ends the walk, and here alone
    let Some(entry) = P::decode(level, raw) else {
        return Err(PagingCause::Absent(level).at(at));
    };
    Ok(entry)
}

// The page of an address, from the root table down.
pub(crate) fn walk<P: Scheme, S: Space>(below: &S, cr3: u64, at: u64) -> Result<Page, Fault>
    ensures is { result ≡ found at (page_of P.Scheme.format cr3 at) (shown (S.Space.meaning below.now)) }
    ensures placed { IfOk result Placed }
{
    if !P::lawful(at) {
        return Err(PagingCause::Unlawful.at(at));
    }
    let mut table = P::root(cr3);
    for level in (1..=P::LEVELS).rev() {
        let entry = entry::<P, S>(below, table, level, at)?;
        match entry.target {
            Target::Leaf(page) => return Ok(page),
            Target::Table(next) => table = next,
        }
    }
    unreachable!()
}
