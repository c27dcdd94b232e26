// Stored strips for C.
ghost use Rattle.std.specs.Prelude.{◌≡◌, length};
ghost use Rattle.strip_rules.specs.Writing.{writing, written_answer, buffer_answer};
ghost use Rattle.strip_rules.specs.Reading.{strip_in, strip_into, read_answer, slots_answer};
ghost use Rattle.strip_rules.specs.Converting.{converting, converted_answer, converted_buffer};
ghost use Rattle.owsopel.specs.Answers.{flat_written, flat_reading, flat_converted};
ghost use Rattle.strip_rules.specs.declared.form.Form.TheVariants as Form;

use owsopel::{FlatConverted, FlatReading, FlatWritten};

// Writes the strip of a lane and its items, in form one, into the buffer.
#[unsafe(no_mangle)]
pub extern "C" fn ows_write_strip(lane: u8, items: &[u16], buf: &mut [u8]) -> FlatWritten
    ensures value { result ≡ flat_written (written_answer (writing Form.One lane items.now (length buf.old))) }
    ensures buf_after { buf.new ≡ buffer_answer (writing Form.One lane items.now (length buf.old)) buf.old }
{
    owsopel::ows_write_strip(lane, items, buf)
}

// The same in form two.
#[unsafe(no_mangle)]
pub extern "C" fn ows_write_short_strip(lane: u8, items: &[u16], buf: &mut [u8]) -> FlatWritten
    ensures value { result ≡ flat_written (written_answer (writing Form.Two lane items.now (length buf.old))) }
    ensures buf_after { buf.new ≡ buffer_answer (writing Form.Two lane items.now (length buf.old)) buf.old }
{
    owsopel::ows_write_short_strip(lane, items, buf)
}

// Reads the strip at the front of the bytes, in either form, into the slots.
#[unsafe(no_mangle)]
pub extern "C" fn ows_read_strip(bytes: &[u8], slots: &mut [u16]) -> FlatReading
    ensures value { result ≡ flat_reading (read_answer (strip_into (length slots.old) bytes.now)) }
    ensures slots_after { slots.new ≡ slots_answer (strip_into (length slots.old) bytes.now) slots.old }
{
    owsopel::ows_read_strip(bytes, slots)
}

// What reading the strip at the front of the bytes answers, without slots.
#[unsafe(no_mangle)]
pub extern "C" fn ows_check_strip(bytes: &[u8]) -> FlatReading
    ensures { result ≡ flat_reading (read_answer (strip_in bytes.now)) }
{
    owsopel::ows_check_strip(bytes)
}

// The strip at the front of the bytes, in form two, into the buffer.
#[unsafe(no_mangle)]
pub extern "C" fn ows_shorten_strip(bytes: &[u8], buf: &mut [u8]) -> FlatConverted
    ensures value { result ≡ flat_converted (converted_answer (converting Form.Two bytes.now (length buf.old))) }
    ensures buf_after { buf.new ≡ converted_buffer (converting Form.Two bytes.now (length buf.old)) buf.old }
{
    owsopel::ows_shorten_strip(bytes, buf)
}

// The same in form one.
#[unsafe(no_mangle)]
pub extern "C" fn ows_expand_strip(bytes: &[u8], buf: &mut [u8]) -> FlatConverted
    ensures value { result ≡ flat_converted (converted_answer (converting Form.One bytes.now (length buf.old))) }
    ensures buf_after { buf.new ≡ converted_buffer (converting Form.One bytes.now (length buf.old)) buf.old }
{
    owsopel::ows_expand_strip(bytes, buf)
}
