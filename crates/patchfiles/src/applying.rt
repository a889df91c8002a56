ghost use Rattle.std.specs.Prelude.{◌≡◌, List, position, is_none, Ok};
ghost use Rattle.patchfiles.specs.Runs.{Mark, Makes, Runs};
ghost use Rattle.patchfiles.specs.Records.{mark_of};
ghost use Rattle.patchfiles.specs.Files.{marks_of, Applies};

use crate::record::{RECORD, Record};
use crate::refusal::PatchFileRefusal;
use crate::stopped::Stopped;
use spaces::Space;

// The first record that is malformed.
fn malformed(records: &[[u8; RECORD]]) -> Option<usize>
    ensures { result ≡ position (λ raw. is_none (mark_of raw)) records.now }
{
    records.iter().position(|raw| Record::parse(raw).is_none())
}

// Makes the edit of a record.
fn make<S: Space>(space: &mut S, raw: &[u8; RECORD]) -> Result<(), PatchFileRefusal>
    ensures { Makes (mark_of raw.now) (S.Space.meaning space.old) (S.Space.meaning space.new) result }
{
    let record = Record::parse(raw).ok_or(PatchFileRefusal::BadRecord)?;
    space.edit(record.depth, record.edit)?;
    Ok(())
}

// Makes the edits of records in order, up to the first refused.
fn run<S: Space>(space: &mut S, records: &[[u8; RECORD]]) -> Result<usize, Stopped>
    ensures { (marks : List Mark) → marks_of 0 records.now ≡ Ok marks → Runs marks (S.Space.meaning space.old) (S.Space.meaning space.new) result }
{
    for (index, raw) in records.iter().enumerate() {
        if let Err(refusal) = make(space, raw) {
            return Err(Stopped { refusal, index });
        }
    }
    Ok(records.len())
}

// Makes the edits of a patch file in order: how many there are, or where it stops. A malformed file changes nothing; of a
// well-formed one the records before the first refused stay.
pub fn apply<S: Space>(space: &mut S, file: &[u8]) -> Result<usize, Stopped>
    ensures { Applies (S.Space.meaning space.old) (S.Space.meaning space.new) file.now result }
{
    let (records, []) = file.as_chunks::<RECORD>() else {
        return Err(Stopped {
            refusal: PatchFileRefusal::BadLength,
            index: 0,
        });
    };
    if let Some(index) = malformed(records) {
        return Err(Stopped {
            refusal: PatchFileRefusal::BadRecord,
            index,
        });
    }
    run(space, records)
}
