ghost use Rattle.paging.specs.Causes.{cause_number};

use numbers::Numbered;
use spaces::FaultCause;

// Why a walk ends without a page.
#[derive(Clone, Copy, Debug, PartialEq, Eq)]
pub enum PagingCause {
    // The scheme has no such address.
    Unlawful,
    // The page table entry of this level is not present.
    Absent(u8),
}

impl Numbered for PagingCause {
    ghost number = { cause_number };

    fn number(self) -> u8 {
        match self {
            PagingCause::Unlawful => 0x04,
            PagingCause::Absent(level) => level.saturating_add(0x10),
        }
    }
}

impl FaultCause for PagingCause {}
