// What waits, told.
use crate::memory::Memory;
use fastcgi_queue::{ROOM, WAITS};
use queue_slot::Ends;
use script::page::Page;
use std::io;
use wait_numbers::numbers_at;

// All numbers of what waits.
pub fn tell_numbers(page: &mut Page, waits: &[u16; WAITS]) -> io::Result<()> {
    page.put(b"numbers")?;
    for n in waits {
        page.put_number(b" ", u64::from(*n))?;
    }
    page.end_line()
}

// The ends at the front.
fn put_ends(page: &mut Page, ends: Ends) -> io::Result<()> {
    let text: &[u8] = match ends {
        Ends::None => b" -",
        Ends::Out => b" out",
        Ends::Err => b" err",
        Ends::OutErr => b" out,err",
        Ends::ErrOut => b" err,out",
    };
    page.put(text)
}

// The first n bytes of slot i's area, of the queue or of the marks, and at most the whole area.
fn put_area(page: &mut Page, i: usize, n: usize, bytes: &[u8]) -> io::Result<()> {
    let from = i.saturating_mul(ROOM);
    let to = from.saturating_add(n.min(ROOM));
    page.put_hex(bytes.get(from..to).unwrap_or(&[]))
}

// What waits in slot i: how many bytes of data, the ends at the front, the application status if END waits, the data and
// its marks.
pub fn tell_waits(page: &mut Page, memory: &Memory, i: usize) -> io::Result<()> {
    let numbers = numbers_at(&memory.waits, i);
    page.put_number(b"waits ", numbers.count as u64)?;
    put_ends(page, numbers.front)?;
    if numbers.last {
        page.put_number(b" ", u64::from(numbers.status))?;
    } else {
        page.put(b" -")?;
    }
    put_area(page, i, numbers.count, &memory.queue)?;
    put_area(page, i, numbers.count, &memory.marks)?;
    page.end_line()
}
