ghost use Rattle.std.specs.Prelude.{map};
ghost use Rattle.sessions.specs.Services.{pile_service};
ghost use Rattle.replays.specs.Replays.{stand, call_meant, slot_meant};
ghost use Rattle.replays.specs.Replays.{Steps, Replays, KeptAllAlong};

use crate::call::{Call, Outcome, Slot};
use packets::Item;
use sessions::{Heard, Owing, PileServer, Waiting, open};
use spaces::Space;

// A talk, whichever call it allows next.
pub enum Stage {
    Waits(Waiting),
    Owes(Owing),
}

// One call, if the talk allows it.
fn step<'a, S: Space>(
    stage: Stage,
    server: &mut PileServer<S>,
    call: Call<'a>,
    slot: &mut Slot<'a>,
) -> Stage
    ensures { Steps pile_service (stand S.Space.meaning stage server.old) (call_meant call.entry)
        (slot_meant slot.old) (slot_meant slot.new) (stand S.Space.meaning result server.new) }
{
    match (stage, call) {
        (Stage::Waits(talk), Call::Hear(received)) => match talk.hear(received) {
            Heard::Packet { owed, payload } => {
                slot.outcome = Outcome::Heard(Item::Packet { payload });
                Stage::Owes(owed)
            }
            Heard::Other { talk, item } => {
                slot.outcome = Outcome::Heard(item);
                Stage::Waits(talk)
            }
        },
        (Stage::Owes(owed), Call::Answer(payload)) => {
            let (talk, count) = server.answer(owed, payload, &mut slot.reply);
            slot.outcome = Outcome::Answered(count);
            Stage::Waits(talk)
        }
        (stage, Call::Apply(file)) => {
            slot.outcome = Outcome::Applied(server.apply(file));
            stage
        }
        (stage, _) => {
            slot.outcome = Outcome::NotAllowed;
            stage
        }
    }
}

fn play<'a, S: Space>(
    space: S,
    calls: &[Call<'a>],
    slots: &mut [Slot<'a>],
) -> (Stage, PileServer<S>)
    ensures { Replays (S.Space.meaning space) (map call_meant calls.now) (map slot_meant slots.old)
        (map slot_meant slots.new) (stand S.Space.meaning result.0 result.1) }
{
    let (talk, mut server) = open(space);
    let mut stage = Stage::Waits(talk);
    for (n, slot) in slots.iter_mut().enumerate() {
        let Some(call) = calls.get(n) else {
            return (stage, server);
        };
        stage = step(stage, &mut server, *call, slot);
    }
    (stage, server)
}

// Makes calls over a new session, one behind the other, as many as there are places for outcomes.
pub fn replay<'a, S: Space>(
    space: S,
    calls: &[Call<'a>],
    slots: &mut [Slot<'a>],
) -> (Stage, PileServer<S>)
    ensures is { Replays (S.Space.meaning space) (map call_meant calls.now)
        (map slot_meant slots.old) (map slot_meant slots.new)
        (stand S.Space.meaning result.0 result.1) }
    ensures kept { KeptAllAlong (S.Space.meaning space) (map call_meant calls.now)
        (map slot_meant slots.old) (map slot_meant slots.new) }
{
    play(space, calls, slots)
}
