// Each call of the stream and the playing slice, by value or over a lent state, its answer as numbers. Who holds a message by value is costly to check, so each
// is a function of its own.
use flat::Flat;
use format::Reading;
use play::Played;
use stream::{Step, Stream};

// How a call is made.
#[derive(Clone, Copy)]
pub enum Way {
    ByValue,
    Lent,
}

// What the playing slice answered, and the position behind it.
#[derive(Clone, Copy)]
pub struct FlatPlayed {
    pub flat: Flat,
    pub at: u64,
}

fn flat_of(p: Played) -> FlatPlayed {
    let state = p.state;
    let answer = p.answer;
    FlatPlayed {
        flat: flat::flatten(Step { state, answer }),
        at: p.at as u64,
    }
}

impl Way {
    // Next.
    pub fn next(self, s: Stream, a: &[u8], reading: Reading) -> Flat {
        match self {
            Way::ByValue => flat::next(s, a, reading),
            Way::Lent => flat::flatten(lender::next(s, a, reading)),
        }
    }

    // Make room.
    pub fn make_room(self, s: Stream, a: &mut [u8]) -> Flat {
        match self {
            Way::ByValue => flat::make_room(s, a),
            Way::Lent => flat::flatten(lender::make_room(s, a)),
        }
    }

    // Told what a read brought.
    pub fn told(self, s: Stream, n: usize) -> Flat {
        match self {
            Way::ByValue => flat::told(s, n),
            Way::Lent => flat::flatten(lender::told(s, n)),
        }
    }

    // Told that a read failed.
    pub fn told_failed(self, s: Stream) -> Flat {
        match self {
            Way::ByValue => flat::told_failed(s),
            Way::Lent => flat::flatten(lender::told_failed(s)),
        }
    }

    // The playing slice.
    pub fn play(
        self,
        s: Stream,
        a: &mut [u8],
        b: &[u8],
        at: usize,
        width: usize,
        reading: Reading,
    ) -> FlatPlayed {
        match self {
            Way::ByValue => flat_of(play::play(s, a, b, at, width, reading)),
            Way::Lent => flat_of(lender::play(s, a, b, at, width, reading)),
        }
    }
}
