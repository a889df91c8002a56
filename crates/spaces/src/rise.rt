ghost use Rattle.std.specs.Prelude.{◌≡◌};
ghost use Rattle.spaces.specs.Maps.{raised, climbed};
ghost use Rattle.spaces.specs.Piles.{shown};
ghost use Rattle.spaces.specs.Reads.{Fills};

use crate::fault::Fault;
use crate::space::Space;

impl Fault {
    // A fault of the space below, as a layer passes it up: it keeps cause and address and grows deeper by one.
    pub fn climbed(self) -> Fault
        ensures { result ≡ climbed self }
    {
        Fault {
            depth: self.depth.saturating_add(1),
            ..self
        }
    }
}

// An answer of the space below, as a layer passes it up.
pub fn climb(answer: Result<u8, Fault>) -> Result<u8, Fault>
    ensures { result ≡ raised answer }
{
    answer.map_err(Fault::climbed)
}

// A fill by the space below, as a layer passes it up.
pub fn fill_below<S: Space>(below: &S, first: u64, out: &mut [u8]) -> (usize, Option<Fault>)
    ensures { Fills (λ a. raised (shown (S.Space.meaning below.now) a)) first out.old out.new result }
{
    let (count, fault) = below.fill(first, out);
    (count, fault.map(Fault::climbed))
}
