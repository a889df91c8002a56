ghost use Rattle.std.specs.Prelude.{◌≡◌};
ghost use Rattle.extents.specs.Tables.{held};
ghost use Rattle.images.specs.Images.{image_bottom, image_lawful};

use crate::cause::ImageCause;
use extents::{Stored, Table};
use spaces::{Edit, EditRefusal, Fault, FaultCause, Space, no_overlay_here};

// A file's bytes at the addresses of a table of extents.
#[derive(Drop)]
pub struct Image<'t, 'f, E> {
    table: Table<'t, E>,
    file: &'f [u8],
}

impl<'t, 'f, E: Stored + Copy> Image<'t, 'f, E> {
    pub fn new(table: Table<'t, E>, file: &'f [u8]) -> Self
        ensures is { (result.table ≡ table.entry) × (result.file ≡ file.entry) }
        ensures means { ⟦<Self as Space>⟧.meaning result ≡ image_bottom E.Extent.bounds E.Stored.places (held table.entry) file.entry.now }
    {
        Image { table, file }
    }
}

impl<E: Stored + Copy> Space for Image<'_, '_, E> {
    ghost meaning = { λ s. image_bottom E.Extent.bounds E.Stored.places (held s.table) s.file.now };

    ghost lawful = { λ s. image_lawful E.Extent.bounds E.Stored.places (held s.table) s.file.now };

    fn byte(&self, at: u64) -> Result<u8, Fault> {
        let extent = self.table.lookup(at).ok_or(ImageCause::NoExtent.at(at))?;
        let place = extent.place(at).ok_or(ImageCause::NotStored.at(at))?;
        let byte = usize::try_from(place).ok().and_then(|i| self.file.get(i));
        byte.copied().ok_or(ImageCause::NotStored.at(at))
    }

    fn edit(&mut self, depth: u8, edit: Edit<'_>) -> Result<(), EditRefusal> {
        Err(no_overlay_here(edit))
    }
}
