ghost use Rattle.std.specs.Prelude.{◌≡◌, ◌≤◌, []};

use packets::REPLY;

// The frame of the latest reply, in front of its buffer. It has no bytes where there is none yet.
#[derive(Drop)]
pub(crate) struct Latest {
    pub(crate) reply: [u8; REPLY],
    pub(crate) count: usize,
    ghost fits: { count ≤ 4100 },
}

impl Latest {
    ghost use Rattle.serving.specs.Servers.{latest};

    pub(crate) fn none() -> Self
        ensures { latest result ≡ [] }
    {
        Latest {
            reply: [0; REPLY],
            count: 0,
        }
    }

    pub(crate) fn bytes(&self) -> &[u8]
        ensures { result.now ≡ latest self.now }
    {
        &self.reply[..self.count]
    }
}
