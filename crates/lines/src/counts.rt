// The counts of a walk between two frames.
ghost use Rattle.std.specs.Prelude.{◌*◌, ◌≤◌, ◌≡◌};
ghost use Rattle.lines.specs.Blocks.{start_of, paused_of};

use format::Reading;
use walk::Walk;

// Where the bytes walked end, how many frames ended before, and how many of these were accepted.
#[derive(Clone, Copy)]
pub(super) struct Counts {
    pub(super) offset: u64,
    pub(super) frames: u64,
    pub(super) accepted: u64,
    ghost two: { 2 * frames ≤ offset },
    ghost counted: { accepted ≤ frames },
}

impl Counts {
    // Those of a walk.
    pub(super) fn of(w: Walk) -> Self
        requires { (2 * w.frames ≤ w.offset) × (w.accepted ≤ w.frames) }
        ensures { (result.offset ≡ w.offset) × (result.frames ≡ w.frames) × (result.accepted ≡ w.accepted) }
    {
        Counts {
            offset: w.offset,
            frames: w.frames,
            accepted: w.accepted,
        }
    }

    // The state between two frames.
    pub(super) fn start(self, reading: Reading) -> Walk
        ensures { result ≡ start_of self.offset self.frames self.accepted reading }
    {
        Walk {
            offset: self.offset,
            seen: 0,
            held: [0u8; 52],
            frames: self.frames,
            accepted: self.accepted,
            reading,
        }
    }

    // The state past the last bytes of a block, which end no frame; at a frame's first byte, if there are none.
    pub(super) fn cut(self, rest: &[u8], reading: Reading) -> Walk
        ensures { result ≡ paused_of (start_of self.offset self.frames self.accepted reading) rest.now }
    {
        Walk {
            seen: rest.len(),
            held: walk::put_in([0u8; 52], 0, rest),
            ..self.start(reading)
        }
    }
}
