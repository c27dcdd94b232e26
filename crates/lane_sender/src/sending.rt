// Sending: frames of the sequence and of the caller's samples into a lent buffer.
ghost use Rattle.std.specs.Prelude.{◌≡◌, true, ◌+◌, ◌≤◌, ◌/◌, length, drop};
ghost use Rattle.frame.specs.Frame.{is_sample};
ghost use Rattle.lane_rules.specs.Sender.{alignment_frame, next_position, next_frame};
ghost use Rattle.lane_rules.specs.Line.{frame_bytes};
ghost use Rattle.lane_rules.specs.Sending.{in_sequence, samples_due, all_sent, sample_due, are_samples, frames_sent, sent_frames, send_answer, buffer_after, over};

use crate::sender::{Admitted, PROVING_FRAMES};
use lane_rules::{Sender, Sent, Stop};
use refusal::Refusal;

// The alignment frame of a position: 0xFF00 at even and 0x00FF at odd ones.
fn alignment_frame(position: u32) -> u16
    ensures { result ≡ alignment_frame position }
{
    if position % 2 == 0 { 0xFF00 } else { 0x00FF }
}

impl Admitted {
    // Whether the position is within the sequence, where frames take no samples.
    fn in_sequence(self) -> bool
        ensures { result ≡ in_sequence self.tx }
    {
        self.tx.position < self.tx.alignment + PROVING_FRAMES
    }

    // The position after a frame.
    fn next_position(self) -> u32
        ensures { result ≡ next_position self.tx }
    {
        if self.in_sequence() {
            self.tx.position + 1
        } else {
            self.tx.position
        }
    }

    // The frame at the record's position, of the given sample from the alignment's end on, and the record after it.
    fn next_frame(self, sample: u16) -> (u16, Admitted)
        requires { is_sample sample ≡ true }
        ensures frame { result.0 ≡ (next_frame self.tx sample).frame }
        ensures sender { result.1.tx ≡ (next_frame self.tx sample).sender }
    {
        let tx = self.tx;
        let position = self.next_position();
        if tx.position < tx.alignment {
            let later = Sender { position, ..tx };
            return (alignment_frame(tx.position), Admitted { tx: later });
        }
        let built = frame::build(sample, tx.state, tx.clock, tx.r).unwrap();
        let later = Sender {
            state: frame::advance(tx.state),
            clock: 1 - tx.clock,
            r: built.r,
            position,
            ..tx
        };
        (built.frame, Admitted { tx: later })
    }

    // The number of samples that the next frame takes.
    fn samples_due(self) -> usize
        ensures { result ≡ samples_due self.tx }
    {
        usize::from(!self.in_sequence())
    }

    // Whether nothing is left to send, with so many samples left.
    fn all_sent(self, left: usize) -> bool
        ensures { result ≡ all_sent self.tx left }
    {
        !self.in_sequence() && left == 0
    }

    // The sample of the next frame: 0 within the sequence, then the caller's.
    fn sample_due(self, samples: &[u16], at: usize) -> u16
        requires { at + samples_due self.tx ≤ length samples.now }
        ensures { result ≡ sample_due self.tx (drop at samples.now) }
    {
        if self.in_sequence() { 0 } else { samples[at] }
    }

    // Frames into the buffer, until all is sent or under two bytes are left.
    fn send_frames(self, samples: &[u16], buf: &mut [u8]) -> Sent
        requires { are_samples samples.now ≡ true }
        ensures answer { result ≡ sent_frames (frames_sent (length buf.old / 2) self.tx samples.now) }
        ensures buffer { buf.new
            ≡ over (frame_bytes (frames_sent (length buf.old / 2) self.tx samples.now).frames) buf.old }
    {
        let mut sender = self;
        let mut taken: usize = 0;
        let mut written: usize = 0;
        // Kept as a loop with two cursors: a frame of the sequence takes two bytes and no sample, so no one iterator moves both.
        let stop = loop {
            if sender.all_sent(samples.len() - taken) {
                break Stop::AllSent;
            }
            if buf.len() - written < 2 {
                break Stop::OutOfSpace;
            }
            let sample = sender.sample_due(samples, taken);
            let (frame, later) = sender.next_frame(sample);
            let [low, high] = frame.to_le_bytes();
            buf[written] = low;
            buf[written + 1] = high;
            taken += sender.samples_due();
            sender = later;
            written += 2;
        };
        Sent {
            sender: sender.tx,
            stop,
            taken,
            written,
        }
    }
}

// Whether no sample is above 16383. Kept apart from the like test of `strip_writer`: no crate for such a call lies below both.
fn are_samples(samples: &[u16]) -> bool
    ensures { result ≡ are_samples samples.now }
{
    let mut good = true;
    for x in samples {
        good &= *x <= 16383;
    }
    good
}

// Sends the rest of the sequence, then the samples, into the buffer. Refusals: 3 for the record; then 4 for any sample of the list.
pub fn send(tx: Sender, samples: &[u16], buf: &mut [u8]) -> Result<Sent, Refusal>
    ensures answer { result ≡ send_answer tx samples.now (length buf.old) }
    ensures buffer { buf.new ≡ buffer_after tx samples.now buf.old }
{
    let tx = Admitted::try_from(tx)?;
    if !are_samples(samples) {
        return Err(Refusal::Sample);
    }
    Ok(tx.send_frames(samples, buf))
}
