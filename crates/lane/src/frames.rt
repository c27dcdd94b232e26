// Feeding by whole frames: byte by byte, and two bytes at a time as long as frames are sound.
ghost use Rattle.std.specs.Prelude.{◌≡◌, true, ◌+◌, ◌*◌, ◌/◌, ◌^◌, ◌≤◌, ◌<◌, min, length};
ghost use Rattle.frame.specs.Frame.{within};
ghost use Rattle.lane_rules.specs.Receiver.{part_admitted};
ghost use Rattle.lane_rules.specs.Feeding.{feed_answer, slots_after};
ghost use Rattle.lane_rules.specs.declared.Mode.TheVariants.{Locked};
ghost use Rattle.lane.specs.PrivateCalls.{small_sum, longest_run, sound_results, sound_place, Stands, Onward, with_two};

use crate::feeding::{count, put};
use crate::summing::{is_small, with_frame_inside};
use lane_modes::{Admitted, mode_admitted};
use lane_rules::{Fed, Mode, Partial, Receiver, Sums};
use refusal::Refusal;

// The bits of two bytes above those held, under 8. Both bytes are shifted at once: so they are read as one number of 16 bits.
fn two_bytes(held: Partial, first: u8, second: u8) -> u32
    requires held_value { part_admitted held ≡ true }
    requires count_bound { held.count < 8 }
    ensures { result ≡ with_two held first second }
{
    held.bits + (((first as u32) + (second as u32) * 256) << held.count)
}

// The most frames of a run: so many leave a small sum inside the limits.
const LONGEST_RUN: usize = 33554432;

// The frames of a run for which there are two bytes and a slot each.
fn room_for(bytes: usize, slots: usize) -> usize
    ensures { result ≡ min (min (bytes / 2) slots) longest_run }
{
    (bytes / 2).min(slots).min(LONGEST_RUN)
}

// The results after so many sound frames.
#[tactic(auto, using(crate::proofs::Loops::SoundFrame::results_gone, crate::proofs::Loops::SoundFrame::results_shifted))]
fn sound_results(results: u32, frames: usize) -> u32
    ensures { result ≡ sound_results results frames }
{
    if 8 <= frames {
        return 0;
    }
    (results << (frames as u32)) % 256
}

// The place after so many sound frames of two bytes, in a mode and with sums.
#[tactic(auto, using(crate::proofs::Steps::CountedOutcomes::saturated_total))]
fn sound_place(start: Fed, mode: Mode, sums: Sums, frames: usize) -> Fed
    requires frames_bound { start.bytes + 2 * frames < 2 ^ 64 }
    requires frames_bound_2 { start.slots + frames < 2 ^ 64 }
    ensures { result ≡ sound_place start mode sums frames }
{
    let rx = start.receiver;
    Fed {
        receiver: Receiver {
            mode,
            samples: rx.samples.saturating_add(frames as u64),
            sums,
            ..rx
        },
        bytes: start.bytes + 2 * frames,
        slots: start.slots + frames,
    }
}

// Sound frames of two bytes from under 8 bits held on, with results, a state and the expected clock bit.
// The place and the lent buffers are kept as parameters, here and below: of a struct that holds the slots as `&mut` each contract would
// also have to say that its loan is the same, and none would be plainer.
fn sound_frames(
    start: Fed,
    part: Partial,
    results: u32,
    first: u32,
    expected: u32,
    bytes: &[u8],
    slots: &mut [u16],
) -> Fed
    requires stands { Stands start bytes.now slots.old }
    requires mode_value { start.receiver.mode ≡ Locked part results first expected }
    requires count_bound { part.count < 8 }
    requires sum_value { within small_sum start.receiver.sums.sum ≡ true }
    ensures forth { start.bytes ≤ result.bytes }
    ensures along { Onward bytes.now start slots.old result slots.new }
{
    let at = start.bytes;
    let used = start.slots;
    let room = room_for(bytes.len() - at, slots.len() - used);
    let mut held = part;
    // Of the state only the 17 bits it has: so the compiler knows that there are no others.
    let mut state = first % 0x2_0000;
    let mut clock = expected;
    let mut sums = start.receiver.sums;
    // Kept as a loop by an index: it ends at the first faulty frame, and then n is the number of sound ones.
    let mut n: usize = 0;
    'frames: while n < room {
        let next = at + 2 * n;
        let all = two_bytes(held, bytes[next], bytes[next + 1]);
        let frame = (all % 0x1_0000) as u16;
        let content = frame::read(frame);
        let seen = content.clock;
        if seen != clock {
            break 'frames;
        }
        let sample = frame::scramble(content.scrambled, state);
        slots[used + n] = sample;
        sums = with_frame_inside(sums, content.disparity);
        state = frame::advance(state);
        clock = 1 - seen;
        held.bits = all / 0x1_0000;
        n += 1;
    }
    let after = Mode::Locked {
        part: held,
        results: sound_results(results, n),
        state,
        clock,
    };
    sound_place(start, after, sums, n)
}

// The sound frames that a locked receiver takes two bytes at a time.
fn run_sound(start: Fed, bytes: &[u8], slots: &mut [u16]) -> Fed
    requires { Stands start bytes.now slots.old }
    ensures forth { start.bytes ≤ result.bytes }
    ensures along { Onward bytes.now start slots.old result slots.new }
{
    let rx = start.receiver;
    let Mode::Locked {
        part,
        results,
        state,
        clock,
    } = rx.mode
    else {
        return start;
    };
    if 8 <= part.count || !is_small(rx.sums.sum) {
        return start;
    }
    sound_frames(start, part, results, state, clock, bytes, slots)
}

// One byte, which there is, and a slot for what it hands out.
fn feed_byte(start: Fed, bytes: &[u8], slots: &mut [u16]) -> Fed
    requires stands { Stands start bytes.now slots.old }
    requires bytes_in_bounds { (start.bytes < length bytes.now) × (start.slots < length slots.old) }
    ensures forth { start.bytes < result.bytes }
    ensures along { Onward bytes.now start slots.old result slots.new }
{
    let rx = start.receiver;
    let judged = Admitted { mode: rx.mode }.take_byte(bytes[start.bytes]);
    let used = put(slots, start.slots, judged.outcome);
    Fed {
        receiver: count(rx, judged.mode, judged.outcome),
        bytes: start.bytes + 1,
        slots: used,
    }
}

// Feeds bytes as `feed` does, by whole frames. Refusal 3: the record. Kept beside `feed`: C has a call for each, and one is checked by the
// other in every test.
#[tactic(auto, unfolding(lane_rules::specs::Feeding::feed_answer, lane_rules::specs::Feeding::slots_after))]
pub fn feed_frames(rx: Receiver, bytes: &[u8], slots: &mut [u16]) -> Result<Fed, Refusal>
    ensures answer { result ≡ feed_answer rx bytes.now (length slots.old) }
    ensures items { slots.new ≡ slots_after rx bytes.now slots.old }
{
    if !mode_admitted(rx.mode) {
        return Err(Refusal::Record);
    }
    let mut fed = Fed {
        receiver: rx,
        bytes: 0,
        slots: 0,
    };
    'bytes: while fed.bytes < bytes.len() && fed.slots < slots.len() {
        fed = feed_byte(fed, bytes, slots);
        fed = run_sound(fed, bytes, slots);
    }
    Ok(fed)
}
