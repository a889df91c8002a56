use spaces::{Edit, EditRefusal, Fault, Space};

// A space that is filled byte by byte, by the trait's own body, however the space within fills a buffer.
#[derive(Drop)]
pub(crate) struct Bytewise<S> {
    pub(crate) within: S,
}

impl<S: Space> Space for Bytewise<S> {
    ghost meaning = { λ s. S.Space.meaning s.within };

    ghost lawful = { λ s. S.Space.lawful s.within };

    fn byte(&self, at: u64) -> Result<u8, Fault> {
        self.within.byte(at)
    }

    fn edit(&mut self, depth: u8, edit: Edit<'_>) -> Result<(), EditRefusal> {
        self.within.edit(depth, edit)
    }
}
