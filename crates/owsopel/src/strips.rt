// Stored strips for C. Kept for C: an answer is a struct with the refusal's number, since a `Result` can't cross.
ghost use Rattle.std.specs.Prelude.{◌≡◌, length};
ghost use Rattle.strip_rules.specs.Writing.{writing, written_answer, buffer_answer};
ghost use Rattle.strip_rules.specs.Reading.{strip_in, strip_into, read_answer, slots_answer};
ghost use Rattle.strip_rules.specs.Converting.{converting, converted_answer, converted_buffer};
ghost use Rattle.strip_rules.specs.declared.form.Form.TheVariants as Form;
ghost use Rattle.owsopel.specs.Answers.{flat_written, flat_reading, flat_converted};

use refusal::Refusal;
use strip::{Converted, Form, Reading};

// The answer of writing: the refusal, 0 where taken, and the bytes written, 0 where refused.
#[repr(C)]
#[derive(Clone, Copy)]
pub struct FlatWritten {
    pub refusal: u8,
    pub bytes: usize,
}

impl From<Result<usize, Refusal>> for FlatWritten {
    ghost from_gives = { λ answer flat. flat ≡ flat_written answer };

    fn from(answer: Result<usize, Refusal>) -> FlatWritten {
        match answer {
            Ok(bytes) => FlatWritten { refusal: 0, bytes },
            Err(refusal) => FlatWritten {
                refusal: refusal.number(),
                bytes: 0,
            },
        }
    }
}

// The answer of reading: the refusal, 0 where taken; lane, item count, form (1 or 2) and bytes used, 0 where refused.
#[repr(C)]
#[derive(Clone, Copy)]
pub struct FlatReading {
    pub refusal: u8,
    pub lane: u8,
    pub count: u16,
    pub form: u8,
    pub used: usize,
}

impl From<Result<Reading, Refusal>> for FlatReading {
    ghost from_gives = { λ answer flat. flat ≡ flat_reading answer };

    fn from(answer: Result<Reading, Refusal>) -> FlatReading {
        match answer {
            Ok(strip) => FlatReading {
                refusal: 0,
                lane: strip.lane,
                count: strip.count,
                form: strip.form.into(),
                used: strip.used,
            },
            Err(refusal) => FlatReading {
                refusal: refusal.number(),
                lane: 0,
                count: 0,
                form: 0,
                used: 0,
            },
        }
    }
}

// The answer of converting: the refusal, 0 where taken; the bytes used and the bytes written, 0 where refused.
#[repr(C)]
#[derive(Clone, Copy)]
pub struct FlatConverted {
    pub refusal: u8,
    pub used: usize,
    pub bytes: usize,
}

impl From<Result<Converted, Refusal>> for FlatConverted {
    ghost from_gives = { λ answer flat. flat ≡ flat_converted answer };

    fn from(answer: Result<Converted, Refusal>) -> FlatConverted {
        match answer {
            Ok(converted) => FlatConverted {
                refusal: 0,
                used: converted.used,
                bytes: converted.bytes,
            },
            Err(refusal) => FlatConverted {
                refusal: refusal.number(),
                used: 0,
                bytes: 0,
            },
        }
    }
}

// Writes the strip of a lane and its items, in form one, into the buffer.
pub fn ows_write_strip(lane: u8, items: &[u16], buf: &mut [u8]) -> FlatWritten
    ensures value { result ≡ flat_written (written_answer (writing Form.One lane items.now (length buf.old))) }
    ensures buf_after { buf.new ≡ buffer_answer (writing Form.One lane items.now (length buf.old)) buf.old }
{
    strip::write_strip(lane, items, buf).into()
}

// The same in form two.
pub fn ows_write_short_strip(lane: u8, items: &[u16], buf: &mut [u8]) -> FlatWritten
    ensures value { result ≡ flat_written (written_answer (writing Form.Two lane items.now (length buf.old))) }
    ensures buf_after { buf.new ≡ buffer_answer (writing Form.Two lane items.now (length buf.old)) buf.old }
{
    strip::write_short_strip(lane, items, buf).into()
}

// Reads the strip at the front of the bytes, in either form, into the slots.
pub fn ows_read_strip(bytes: &[u8], slots: &mut [u16]) -> FlatReading
    ensures value { result ≡ flat_reading (read_answer (strip_into (length slots.old) bytes.now)) }
    ensures slots_after { slots.new ≡ slots_answer (strip_into (length slots.old) bytes.now) slots.old }
{
    strip::read_strip(bytes, slots).into()
}

// What reading the strip at the front of the bytes answers, without slots.
pub fn ows_check_strip(bytes: &[u8]) -> FlatReading
    ensures { result ≡ flat_reading (read_answer (strip_in bytes.now)) }
{
    strip::check_strip(bytes).into()
}

// The strip at the front of the bytes, in form two, into the buffer.
pub fn ows_shorten_strip(bytes: &[u8], buf: &mut [u8]) -> FlatConverted
    ensures value { result ≡ flat_converted (converted_answer (converting Form.Two bytes.now (length buf.old))) }
    ensures buf_after { buf.new ≡ converted_buffer (converting Form.Two bytes.now (length buf.old)) buf.old }
{
    strip::convert_strip(Form::Two, bytes, buf).into()
}

// The same in form one.
pub fn ows_expand_strip(bytes: &[u8], buf: &mut [u8]) -> FlatConverted
    ensures value { result ≡ flat_converted (converted_answer (converting Form.One bytes.now (length buf.old))) }
    ensures buf_after { buf.new ≡ converted_buffer (converting Form.One bytes.now (length buf.old)) buf.old }
{
    strip::convert_strip(Form::One, bytes, buf).into()
}
