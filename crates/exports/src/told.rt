use numbers::Numbered;

// What a call tells: the number of a refusal or 0, where it was met, and a count.
#[derive(Clone, Copy, Debug, PartialEq, Eq)]
#[repr(C)]
pub struct Told {
    pub refusal: u8,
    pub place: usize,
    pub count: usize,
}

impl Told {
    ghost use Rattle.std.specs.Prelude.{◌≡◌};
    ghost use Rattle.exports.specs.Tellings.{done, refused, broke_off};

    // Nothing was refused.
    pub(crate) fn done(place: usize, count: usize) -> Told
        ensures { result ≡ done place count }
    {
        Told {
            refusal: 0,
            place,
            count,
        }
    }

    // Something was.
    pub(crate) fn refused<R: Numbered>(refusal: R, place: usize, count: usize) -> Told
        ensures { result ≡ refused (R.Numbered.number refusal) place count }
    {
        Told {
            refusal: refusal.number(),
            place,
            count,
        }
    }

    // Serving broke off. No refusal has this number.
    pub(crate) fn broke_off() -> Told
        ensures { result ≡ broke_off }
    {
        Told {
            refusal: 0xff,
            place: 0,
            count: 0,
        }
    }
}
