// Readings of a body, read by hand.
use fastcgi::{
    BodyEnd, Reader, Reading, ReadingResult, end_body, read_reading, reading_fault_number,
};
use script::page::Page;
use std::io;

// A reading, with its temperature in tenths.
fn put_reading(page: &mut Page, r: Reading) -> io::Result<()> {
    let sign: &[u8] = if r.tenths < 0 { b" -" } else { b" " };
    page.put_number(b"reading ", u64::from(r.log))?;
    page.put_number(sign, u64::from(r.tenths.unsigned_abs()))?;
    page.put_number(b" ", u64::from(r.raw))?;
    page.put(b"; ")
}

// Bytes of a body: its readings on one line, and how many bytes were used, or where the body is refused. Each call but
// the last uses a byte, so one call more than there are bytes is enough.
pub fn read_body(page: &mut Page, reader: Reader, bytes: &[u8]) -> io::Result<Reader> {
    let mut now = reader;
    let mut used: usize = 0;
    for _ in 0..bytes.len().saturating_add(1) {
        let read = read_reading(now, bytes.get(used..).unwrap_or(&[]));
        now = read.reader;
        used = used.saturating_add(read.used);
        match read.result {
            ReadingResult::Nothing => {}
            ReadingResult::Reading(r) => put_reading(page, r)?,
            ReadingResult::Refused(fault) => {
                page.put_refused(reading_fault_number(fault))?;
                page.put_number(b" at ", used as u64)?;
                page.end_line()?;
                return Ok(now);
            }
        }
        if used >= bytes.len() {
            break;
        }
    }
    page.put_number(b"used ", used as u64)?;
    page.end_line()?;
    Ok(now)
}

// The body ends.
pub fn finish_body(page: &mut Page, reader: Reader) -> io::Result<Reader> {
    let ended = end_body(reader);
    match ended.end {
        BodyEnd::Clean => page.tell(b"clean")?,
        BodyEnd::Refused(fault) => page.tell_refused(reading_fault_number(fault))?,
    }
    Ok(ended.reader)
}
