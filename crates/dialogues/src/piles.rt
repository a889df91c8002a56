use outsiders::{Ramp, Spare, Window};
use overlays::Overlay;

// An overlay over bytes that count up from 0. Behind them the cause is 77, at depth 1.
pub(crate) fn counting(length: u64) -> Overlay<Ramp> {
    Overlay::new(Ramp { length })
}

pub(crate) type Windowed = Overlay<Window<Overlay<Ramp>>>;

// Two overlays, at depths 0 and 2, and between them a window on addresses 4 to 19 of bytes that count up to f. So addresses 0
// to b have 04 to 0f. At c to f the cause is 77, at depth 3 and four addresses further on; from 10 on it is 78, at depth 1.
pub(crate) fn windowed() -> Windowed {
    Overlay::new(Window {
        start: 4,
        length: 16,
        below: counting(16),
    })
}

// Two overlays, at depths 0 and 2, and between them a spare copy 8 addresses on of bytes that count up to f. Where neither an
// address nor its spare has a byte the cause is 77, at depth 3 and at the spare.
pub(crate) fn spared() -> Overlay<Spare<Overlay<Ramp>>> {
    Overlay::new(Spare {
        offset: 8,
        below: counting(16),
    })
}
