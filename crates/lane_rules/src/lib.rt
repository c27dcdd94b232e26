// The types that the rules of the lane speak of (document 01, Sender and Receiver). The rules stand in specs/, what is promised of
// them in specs/Promise.antt, PromiseSums.antt and PromiseCrossed.antt; the code that keeps them is in `lane_sender`, `lane_modes` and
// `lane`. Nothing runs here.
#![tactic(auto)]

// The seed, the scrambler's state, the next clock bit, the running disparity, the position and the number of alignment frames.
#[repr(C)]
#[derive(Clone, Copy)]
pub struct Sender {
    pub seed: u32,
    pub state: u32,
    pub clock: u32,
    pub r: i32,
    pub position: u32,
    pub alignment: u32,
}

// How sending stopped.
#[derive(Clone, Copy)]
pub enum Stop {
    AllSent,
    OutOfSpace,
}

// What sending did: the record after it, how it stopped, samples taken and bytes written.
#[derive(Clone, Copy)]
pub struct Sent {
    pub sender: Sender,
    pub stop: Stop,
    pub taken: usize,
    pub written: usize,
}

// The bits held of a frame, 0 to 15 of them, the earliest lowest; places not held are 0.
#[derive(Clone, Copy)]
pub struct Partial {
    pub bits: u32,
    pub count: u32,
}

impl Partial {
    // No bits held.
    pub const NONE: Partial = Partial { bits: 0, count: 0 };
}

// The running sum of the frames' disparities since lock, and the lowest and highest at frame ends.
#[repr(C)]
#[derive(Clone, Copy)]
pub struct Sums {
    pub sum: i32,
    pub lowest: i32,
    pub highest: i32,
}

// Document 01's modes. Hunt holds up to 32 latest bits, the earliest lowest; the others the bits of a frame and their own numbers.
// Locked holds the results of the last eight frames, a 1 for a faulty one, the latest lowest, and the clock bit expected next.
#[derive(Clone, Copy)]
pub enum Mode {
    Hunt {
        bits: u32,
        count: u32,
    },
    Flash {
        part: Partial,
        frame: u32,
    },
    First {
        part: Partial,
        word: u32,
        clock: u32,
    },
    Prove {
        part: Partial,
        read: u32,
        state: u32,
        clock: u32,
    },
    Locked {
        part: Partial,
        results: u32,
        state: u32,
        clock: u32,
    },
}

impl Mode {
    // Hunt as it is entered, with no bits.
    pub const HUNTING: Mode = Mode::Hunt { bits: 0, count: 0 };
}

// A mode, the totals of samples, gaps and losses of lock, and the sums of the frames' disparities.
#[derive(Clone, Copy)]
pub struct Receiver {
    pub mode: Mode,
    pub samples: u64,
    pub gaps: u64,
    pub losses: u64,
    pub sums: Sums,
}

// What a bit makes of the bits held: a whole frame, or one bit more.
// Kept as an enum of its own: neither case is an absence or a refusal.
#[derive(Clone, Copy)]
pub enum Collected {
    Frame(u16),
    Part(Partial),
}

// What a judged frame gives: nothing, lock found, a sample, a gap, or a gap with the loss of lock; in Locked with the frame's disparity.
#[derive(Clone, Copy)]
pub enum Outcome {
    Nothing,
    Found,
    Sample { sample: u16, disparity: i32 },
    Gap { disparity: i32 },
    Loss { disparity: i32 },
}

// The mode after a frame, and the outcome.
#[derive(Clone, Copy)]
pub struct Judged {
    pub mode: Mode,
    pub outcome: Outcome,
}

// What feeding gives: the record, and the bytes and slots used.
#[derive(Clone, Copy)]
pub struct Fed {
    pub receiver: Receiver,
    pub bytes: usize,
    pub slots: usize,
}
