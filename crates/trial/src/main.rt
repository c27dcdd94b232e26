// Document 01's trial values that are not marked P, run through the real calls. The values marked P are proved together:
// specs/Table.antt, proofs/TrialValues.antt.
#![tactic(auto)]

use std::io;
use strip::Form;

// Whether a seed is taken.
fn seed(rt: &impl Print, s: u32) -> io::Result<()> {
    print!(rt; "seed 0x{s:05x}: ")?;
    checked(rt, s)
}

fn checked(rt: &impl Print, s: u32) -> io::Result<()> {
    match frame::check_seed(s) {
        Ok(()) => println!(rt; "taken"),
        Err(refusal) => println!(rt; "{refusal}"),
    }
}

// A sample built into a frame with state 1, clock bit 0 and R 0, and read back.
fn sample(rt: &impl Print, x: u16) -> io::Result<()> {
    print!(rt; "sample {x}: ")?;
    built(rt, x)
}

fn built(rt: &impl Print, x: u16) -> io::Result<()> {
    match frame::build(x, 1, 0, 0) {
        Ok(built) => read_back(rt, built.frame),
        Err(refusal) => println!(rt; "{refusal}"),
    }
}

fn read_back(rt: &impl Print, frame: u16) -> io::Result<()> {
    print!(rt; "frame 0x{frame:04x}, ")?;
    match frame::read_sample(frame, 1) {
        Ok(x) => println!(rt; "read back {x}"),
        Err(refusal) => println!(rt; "{refusal}"),
    }
}

// Entry 0 of the lane seeds.
fn first_lane(rt: &impl Print) -> io::Result<()> {
    println!(rt; "lane 0: seed {}", frame::lane_seed(0))
}

// Items written as a strip of lane 5 in a form, and read back.
fn strip(rt: &impl Print, form: Form, items: &[u16]) -> io::Result<()> {
    let mut buf: [u8; 8192] = [0; 8192];
    let written = match form {
        Form::One => strip::write_strip(5, items, &mut buf),
        Form::Two => strip::write_short_strip(5, items, &mut buf),
    };
    match written {
        Ok(bytes) => {
            print!(rt; "strip of {bytes} bytes, read back: ")?;
            strip_back(rt, &buf)
        }
        Err(refusal) => println!(rt; "{refusal}"),
    }
}

fn strip_back(rt: &impl Print, bytes: &[u8]) -> io::Result<()> {
    let mut slots: [u16; 4096] = [0; 4096];
    match strip::read_strip(bytes, &mut slots) {
        Ok(r) => println!(rt;
            "form {}, lane {}, items {}, bytes {}, first item {}",
            u8::from(r.form),
            r.lane,
            r.count,
            r.used,
            slots[0]
        ),
        Err(refusal) => println!(rt; "{refusal}"),
    }
}

fn item(rt: &impl Print, x: u16) -> io::Result<()> {
    let items: [u16; 1] = [x];
    print!(rt; "item {x}: ")?;
    strip(rt, Form::One, &items)
}

// So many gaps.
fn count(rt: &impl Print, n: usize) -> io::Result<()> {
    let gaps: [u16; 4097] = [16384; 4097];
    let all: &[u16] = &gaps;
    print!(rt; "count {n}: ")?;
    if all.len() < n {
        return println!(rt; "more than are tried here");
    }
    strip(rt, Form::One, &all[0..n])
}

// The two forms of one list differ by a byte; 4096 gaps are 16 runs.
fn short_forms(rt: &impl Print) -> io::Result<()> {
    let items: [u16; 2] = [1, 16384];
    let gaps: [u16; 4096] = [16384; 4096];
    print!(rt; "items 1 and gap: ")?;
    strip(rt, Form::One, &items)?;
    print!(rt; "in form two: ")?;
    strip(rt, Form::Two, &items)?;
    print!(rt; "4096 gaps in form two: ")?;
    strip(rt, Form::Two, &gaps)
}

// Form two, lane 5, a count, and a run of two gaps.
fn run_of_two(rt: &impl Print, count: u8) -> io::Result<()> {
    let bytes: [u8; 5] = [0xE0, count, 5, 0x00, 0x80];
    print!(rt; "run of two gaps, count {count}: ")?;
    strip_back(rt, &bytes)
}

// Three bytes: a count and a lane, and no items.
fn count_field(rt: &impl Print, high: u8, low: u8) -> io::Result<()> {
    let bytes: [u8; 3] = [high, low, 5];
    print!(rt;
        "count field {}, no items: ",
        (high as u64) * 256 + (low as u64)
    )?;
    strip_back(rt, &bytes)
}

// A sender of seed 1 and a fresh receiver: the sequence and two samples as one line.
fn line(rt: &impl Print) -> io::Result<()> {
    match lane::start(1) {
        Ok(tx) => {
            let samples: [u16; 2] = [3200, 3300];
            let mut bytes: [u8; 132] = [0; 132];
            match lane::send(tx, &samples, &mut bytes) {
                Ok(sent) => line_back(rt, sent.written, &bytes),
                Err(refusal) => println!(rt; "{refusal}"),
            }
        }
        Err(refusal) => println!(rt; "{refusal}"),
    }
}

// The line of so many bytes, received.
fn line_back(rt: &impl Print, written: usize, bytes: &[u8]) -> io::Result<()> {
    let mut slots: [u16; 132] = [0; 132];
    match lane::feed(lane::fresh(), bytes, &mut slots) {
        Ok(fed) => {
            print!(rt; "line of {written} bytes: items {}", fed.slots)?;
            first_items(rt, &slots)
        }
        Err(refusal) => println!(rt; "{refusal}"),
    }
}

fn first_items(rt: &impl Print, slots: &[u16]) -> io::Result<()> {
    if slots.len() < 2 {
        return println!(rt; ", too few slots");
    }
    println!(rt; ", {} and {}", slots[0], slots[1])
}

fn main(rt: HostRuntime) -> io::Result<()> {
    seed(&rt, 0x000FE)?;
    seed(&rt, 0x04000)?;
    seed(&rt, 0x000FF)?;
    seed(&rt, 0x1C0FF)?;
    first_lane(&rt)?;
    sample(&rt, 16383)?;
    sample(&rt, 16384)?;
    item(&rt, 16383)?;
    item(&rt, 16384)?;
    item(&rt, 16385)?;
    count(&rt, 4096)?;
    count(&rt, 4097)?;
    count_field(&rt, 0x10, 0x00)?;
    count_field(&rt, 0x10, 0x01)?;
    short_forms(&rt)?;
    run_of_two(&rt, 2)?;
    run_of_two(&rt, 1)?;
    count_field(&rt, 0x20, 0x00)?;
    line(&rt)
}
