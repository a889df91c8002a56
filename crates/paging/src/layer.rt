ghost use Rattle.std.specs.Prelude.{◌≡◌};
ghost use Rattle.spaces.specs.Edits.{setting};
ghost use Rattle.paging.specs.Layers.{paging_on, paging_lawful, Translated, EditsBelow};

use crate::scheme::Scheme;
use crate::translation::Translation;
use crate::walk::{byte_below, walk};
use spaces::{Edit, EditRefusal, Fault, Space, Watched, edit_under, fill_below, most, watched_set};

// A space as the tables in the space below show it, from the root table by CR3 on.
#[derive(Drop)]
pub struct Paging<P, S> {
    scheme: P,
    cr3: u64,
    below: S,
}

impl<P: Scheme, S: Space> Paging<P, S> {
    pub fn new(scheme: P, cr3: u64, below: S) -> Self
        ensures is { result ≡ record { scheme = scheme; cr3 = cr3; below = below } }
        ensures means { ⟦<Self as Space>⟧.meaning result ≡ paging_on P.Scheme.format cr3 (S.Space.meaning below) }
    {
        Paging { scheme, cr3, below }
    }

    // Where an address goes, or what is missing on the way.
    pub fn translate(&self, at: u64) -> Result<Translation, Fault>
        ensures { Translated P.Scheme.format self.now.cr3 (S.Space.meaning self.now.below) (⟦<Self as Space>⟧.meaning self.now) at result }
    {
        let page = walk::<P, S>(&self.below, self.cr3, at)?;
        Ok(Translation::on(page, at))
    }

    // Patches what lies right below, and reads one address before and after. A patch that touches neither a table byte on
    // the address's way nor its final address changes nothing there.
    pub fn patch_below(&mut self, first: u64, bytes: &[u8], at: u64) -> Watched
        ensures { EditsBelow P.Scheme.format self.old.cr3 (S.Space.meaning self.old.below) (⟦<Self as Space>⟧.meaning self.old) (⟦<Self as Space>⟧.meaning self.new) (setting first bytes.now) at result }
    {
        watched_set(self, 1, first, bytes, at)
    }
}

impl<P: Scheme, S: Space> Space for Paging<P, S> {
    ghost meaning = { λ s. paging_on P.Scheme.format s.cr3 (S.Space.meaning s.below) };

    ghost lawful = { λ s. paging_lawful P.Scheme.format s.cr3 _ (S.Space.lawful s.below) };

    fn byte(&self, at: u64) -> Result<u8, Fault> {
        let place = self.translate(at)?.address;
        byte_below(&self.below, place)
    }

    // One translation for each page that the buffer touches: all its addresses translate alike.
    fn fill(&self, first: u64, out: &mut [u8]) -> (usize, Option<Fault>) {
        let room = most(first, out);
        let mut count = 0;
        while count < room {
            let at = first + count as u64;
            let place = match self.translate(at) {
                Ok(place) => place,
                Err(fault) => return (count, Some(fault)),
            };
            let left = place.size - at % place.size;
            let end = count + left.min((room - count) as u64) as usize;
            let (placed, fault) = fill_below(&self.below, place.address, &mut out[count..end]);
            count += placed;
            if count < end {
                return (count, fault);
            }
        }
        (count, None)
    }

    fn edit(&mut self, depth: u8, edit: Edit<'_>) -> Result<(), EditRefusal> {
        edit_under(&mut self.below, depth, edit)
    }
}
