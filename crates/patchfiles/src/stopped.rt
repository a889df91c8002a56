use crate::refusal::PatchFileRefusal;

// Why a patch file goes no further, and the record, counted from 0.
#[derive(Clone, Copy, Debug, PartialEq, Eq)]
pub struct Stopped {
    pub refusal: PatchFileRefusal,
    pub index: usize,
}
