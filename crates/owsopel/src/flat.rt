// The receiver's record as C holds it: a mode number and the parts of all modes. Parts that a mode has not are 0.
ghost use Rattle.std.specs.Prelude.{◌≡◌, cond, Ok, Err};
ghost use Rattle.refusal.specs.declared.Refusal.TheVariants as Refusal;
ghost use Rattle.owsopel.specs.Flat.{flat_mode, flat_receiver, same_mode, mode_in, receiver_in};

use lane::{Mode, Partial, Receiver, Sums};
use refusal::Refusal;

// The number of a mode (0 Hunt, 1 Flash, 2 First, 3 Prove, 4 Locked) and its parts. Kept for C, which an enum with values can't cross to.
#[repr(C)]
#[derive(Clone, Copy, Debug, PartialEq, Eq)]
pub struct FlatMode {
    pub number: u32,
    pub bits: u32,
    pub count: u32,
    pub frame: u32,
    pub word: u32,
    pub read: u32,
    pub results: u32,
    pub state: u32,
    pub clock: u32,
}

#[repr(C)]
#[derive(Clone, Copy)]
pub struct FlatReceiver {
    pub mode: FlatMode,
    pub samples: u64,
    pub gaps: u64,
    pub losses: u64,
    pub sums: Sums,
}

// A mode's number with the bits held, and no other part.
fn with_bits(number: u32, part: Partial) -> FlatMode
    ensures { result ≡ record {
      number = number;
      bits = part.bits;
      count = part.count;
      frame = 0;
      word = 0;
      read = 0;
      results = 0;
      state = 0;
      clock = 0;
    } }
{
    FlatMode {
        number,
        bits: part.bits,
        count: part.count,
        frame: 0,
        word: 0,
        read: 0,
        results: 0,
        state: 0,
        clock: 0,
    }
}

impl From<Mode> for FlatMode {
    ghost from_gives = { λ mode flat. flat ≡ flat_mode mode };

    fn from(mode: Mode) -> FlatMode {
        match mode {
            Mode::Hunt { bits, count } => with_bits(0, Partial { bits, count }),
            Mode::Flash { part, frame } => FlatMode {
                frame,
                ..with_bits(1, part)
            },
            Mode::First { part, word, clock } => FlatMode {
                word,
                clock,
                ..with_bits(2, part)
            },
            Mode::Prove {
                part,
                read,
                state,
                clock,
            } => FlatMode {
                read,
                state,
                clock,
                ..with_bits(3, part)
            },
            Mode::Locked {
                part,
                results,
                state,
                clock,
            } => FlatMode {
                results,
                state,
                clock,
                ..with_bits(4, part)
            },
        }
    }
}

// A mode, refused unless the flat one is just that of the mode.
fn checked(flat: FlatMode, mode: Mode) -> Result<Mode, Refusal>
    ensures { result ≡ cond (same_mode (flat_mode mode) flat) (Ok mode) (Err Refusal.Record) }
{
    if FlatMode::from(mode) != flat {
        return Err(Refusal::Record);
    }
    Ok(mode)
}

// Refused unless the flat mode is just that of the mode that it names: it has another number, or parts that the mode has not. Each mode is
// checked by a call of its own, so that only the parts that it has not are compared. With one call for all a feeding call takes 1.3 times
// as long where it is given no bytes.
impl TryFrom<FlatMode> for Mode {
    type Error = Refusal;

    ghost try_from_gives = { λ flat mode. mode ≡ mode_in flat };

    fn try_from(flat: FlatMode) -> Result<Mode, Refusal> {
        let FlatMode {
            bits,
            count,
            frame,
            word,
            read,
            results,
            state,
            clock,
            ..
        } = flat;
        let part = Partial { bits, count };
        match flat.number {
            0 => checked(flat, Mode::Hunt { bits, count }),
            1 => checked(flat, Mode::Flash { part, frame }),
            2 => checked(flat, Mode::First { part, word, clock }),
            3 => checked(
                flat,
                Mode::Prove {
                    part,
                    read,
                    state,
                    clock,
                },
            ),
            _ => checked(
                flat,
                Mode::Locked {
                    part,
                    results,
                    state,
                    clock,
                },
            ),
        }
    }
}

impl From<Receiver> for FlatReceiver {
    ghost from_gives = { λ rx flat. flat ≡ flat_receiver rx };

    fn from(rx: Receiver) -> FlatReceiver {
        FlatReceiver {
            mode: FlatMode::from(rx.mode),
            samples: rx.samples,
            gaps: rx.gaps,
            losses: rx.losses,
            sums: rx.sums,
        }
    }
}

impl TryFrom<FlatReceiver> for Receiver {
    type Error = Refusal;

    ghost try_from_gives = { λ flat rx. rx ≡ receiver_in flat };

    fn try_from(flat: FlatReceiver) -> Result<Receiver, Refusal> {
        Ok(Receiver {
            mode: Mode::try_from(flat.mode)?,
            samples: flat.samples,
            gaps: flat.gaps,
            losses: flat.losses,
            sums: flat.sums,
        })
    }
}
