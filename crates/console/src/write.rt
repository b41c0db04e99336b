// The calls that write into a lent buffer.
use crate::command::Writing;
use console_queue::memory::Memory;
use fastcgi::{Reading, ReadingFault, reading_fault_number, write_reading};
use fastcgi_queue::{
    Event, FinishResult, Refusal, end_output, owed_reply, refusal_number, write_output, write_pair,
};
use pair_writer::PairRefusal;
use reading_writer::ReadingRefusal;
use script::page::fill;

// How many bytes were written, and a last word for the line; or the number of the refusal.
pub type Written = Result<(usize, &'static [u8]), u8>;

// What output and replies came to.
fn of_output(wrote: Result<usize, Refusal>) -> Written {
    match wrote {
        Ok(n) => Ok((n, b"")),
        Err(why) => Err(refusal_number(why)),
    }
}

// What a pair came to.
fn of_pair(wrote: Result<usize, PairRefusal>) -> Written {
    match wrote {
        Ok(n) => Ok((n, b"")),
        Err(PairRefusal::TooLong) => Err(refusal_number(Refusal::TooLong)),
        Err(PairRefusal::NoRoom) => Err(refusal_number(Refusal::NoRoom)),
    }
}

// What a reading came to.
fn of_reading(wrote: Result<usize, ReadingRefusal>) -> Written {
    match wrote {
        Ok(n) => Ok((n, b"")),
        Err(ReadingRefusal::OutOfRange) => Err(reading_fault_number(ReadingFault::OutOfRange)),
        Err(ReadingRefusal::NoRoom) => Err(refusal_number(Refusal::NoRoom)),
    }
}

// What a finish came to.
fn of_finish(finish: FinishResult) -> Written {
    match finish {
        FinishResult::Open(n) => Ok((n, b" open")),
        FinishResult::Closed(n) => Ok((n, b" closed")),
        FinishResult::Refused(why) => Err(refusal_number(why)),
    }
}

// A call after that event, into a room that is filled first.
pub fn fill_and_write(m: &mut Memory, event: Event, call: Writing, room: &mut [u8]) -> Written {
    fill(room);
    match call {
        Writing::Owed => of_output(owed_reply(event, room)),
        Writing::End(id, output) => {
            let written = end_output(m.conn, &m.waits, id, output, room);
            m.conn = written.conn;
            of_output(written.wrote)
        }
        Writing::Pair(name, value) => of_pair(write_pair(room, name, value)),
        Writing::Finish(id, status) => of_finish(m.finish(id, status, room)),
        Writing::Output(id, output, bytes) => {
            let written = write_output(m.conn, &m.waits, id, output, bytes, room);
            m.conn = written.conn;
            of_output(written.wrote)
        }
        Writing::Reading { log, tenths, raw } => {
            of_reading(write_reading(room, Reading { log, tenths, raw }))
        }
    }
}
