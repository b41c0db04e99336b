// Readings in a body, and their correction.
ghost use Rattle.std.specs.Prelude.{◌≡◌};
ghost use Rattle.export_calls.specs.Body.{exported_new_reader, exported_read, exported_end_body};
ghost use Rattle.export_calls.specs.Body.{exported_reading, exported_correct};

use fastcgi_queue::{Reading, correct, end_body, new_reader, read_reading, write_reading};
use flat_answer::answer::FlatWrote;
use flat_reading::{
    FlatCard, FlatCorrected, FlatEnded, FlatRead, FlatReader, calibration_of, flat_corrected,
    flat_ended, flat_read, from_flat_reader, is_known_reader, reading_bytes, reading_refusal,
    to_flat_reader, unended, unread,
};

// A reader at the start of a body.
#[unsafe(no_mangle)]
pub extern "C" fn yot_new_reader() -> FlatReader
    ensures { result ≡ exported_new_reader }
{
    to_flat_reader(new_reader())
}

// Reads on in a body. Refusals 9 of an unknown code, 31, 32, 33, or the one that stands.
#[unsafe(no_mangle)]
pub extern "C" fn yot_read_reading(reader: FlatReader, bytes: &[u8]) -> FlatRead
    ensures { result ≡ exported_read reader bytes.now }
{
    if !is_known_reader(reader) {
        return unread(reader);
    }
    flat_read(read_reading(from_flat_reader(reader), bytes))
}

// The body ends. Refusals 9 of an unknown code, 34, or the one that stands.
#[unsafe(no_mangle)]
pub extern "C" fn yot_end_body(reader: FlatReader) -> FlatEnded
    ensures { result ≡ exported_end_body reader }
{
    if !is_known_reader(reader) {
        return unended(reader);
    }
    flat_ended(end_body(from_flat_reader(reader)))
}

// Writes a reading. Refusals 33, 6.
#[unsafe(no_mangle)]
pub extern "C" fn yot_write_reading(out: &mut [u8], log: u32, tenths: i32, raw: u32) -> FlatWrote
    ensures { record { answer = result; out = out.new }
        ≡ exported_reading out.old log tenths raw }
{
    let reading = Reading { log, tenths, raw };
    let w = write_reading(out, reading);
    FlatWrote {
        written: reading_bytes(w),
        refusal: reading_refusal(w),
    }
}

// A raw count corrected by two cards. Refusals 41, 42, 43, 44.
#[unsafe(no_mangle)]
pub extern "C" fn yot_correct(
    thawed: FlatCard,
    frozen: FlatCard,
    tenths: i32,
    raw: u32,
) -> FlatCorrected
    ensures { result ≡ exported_correct thawed frozen tenths raw }
{
    let calibration = calibration_of(thawed, frozen);
    flat_corrected(correct(calibration, tenths, raw))
}
