// The calls of the queue, and what is told of them. Each is compared with what is kept from before it.
use crate::command::Queued;
use crate::memory::Memory;
use connection::answer::Refusal;
use fastcgi_queue::{PumpResult, refusal_number};
use script::page::{Page, fill};
use std::io;

// A call by which something comes to wait.
pub fn call_queue(memory: &mut Memory, call: Queued) -> Result<(), Refusal> {
    match call {
        Queued::Output(id, output, bytes) => memory.queue_output(id, output, bytes),
        Queued::End(id, output) => memory.queue_end(id, output),
        Queued::Finish(id, status) => memory.queue_finish(id, status),
    }
}

// What such a call came to.
pub fn tell_queued(page: &mut Page, queued: Result<(), Refusal>, changed: bool) -> io::Result<()> {
    match queued {
        Ok(()) => page.put(b"waits")?,
        Err(why) => page.put_refusal(refusal_number(why), changed)?,
    }
    page.end_line()
}

// A turn of the pump, into a room that is filled first.
pub fn fill_and_pump(memory: &mut Memory, allowance: usize, room: &mut [u8]) -> PumpResult {
    fill(room);
    memory.pump(allowance, room)
}

// `pumped RECORDS N HEX` and a last word.
fn put_turn(
    page: &mut Page,
    room: &[u8],
    records: usize,
    n: usize,
    last_word: &[u8],
) -> io::Result<()> {
    page.put_number(b"pumped ", records as u64)?;
    page.put_number(b" ", n as u64)?;
    page.put_hex(room.get(..n).unwrap_or(&[]))?;
    page.put(last_word)?;
    page.put_touched(room, n)
}

// What a turn of the pump came to and left in the room.
pub fn tell_pumped(
    page: &mut Page,
    pumped: PumpResult,
    changed: bool,
    room: &[u8],
) -> io::Result<()> {
    match pumped {
        PumpResult::Open { records, bytes } => put_turn(page, room, records, bytes, b" open")?,
        PumpResult::Closed { records, bytes } => put_turn(page, room, records, bytes, b" closed")?,
        PumpResult::Refused(why) => {
            page.put_refusal(refusal_number(why), changed)?;
            page.put_touched(room, 0)?;
        }
    }
    page.end_line()
}
