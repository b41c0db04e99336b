// Lifts one request out of a captured connection: its records are copied, and the capture is checked by replaying it.
#![tactic(auto)]

pub mod calls;
mod marks;
mod way;

use connection::answer::Refusal;
use connection::event::Close;
use connection::state::Conn;

#[derive(Clone, Copy)]
pub struct Lift {
    // the receiver that the capture is replayed to
    pub conn: Conn,
    // the request whose records are copied
    pub id: u16,
    // its first BEGIN_REQUEST has come
    pub begun: bool,
    // the record being read is copied
    pub copied: bool,
    // the header of that record as it is written, and how many bytes of it, the last ones, still wait for room
    pub header: [u8; 8],
    pub waiting: usize,
    // how many bytes were used, and how many of them before the record being read; both stay at the largest number
    pub used: u64,
    pub start: u64,
    pub closing: Option<Close>,
}

// What a capture is.
#[derive(Clone, Copy)]
pub enum Verdict {
    // It ends between two records.
    Clean,
    // It ends inside a record.
    Cut,
    // A record closes the connection; `at` is the place of its first byte.
    Closed { cause: Close, at: u64 },
}

// A fresh lift, or why the start is refused.
#[derive(Clone, Copy)]
pub struct LiftStarted {
    pub result: Result<(), Refusal>,
    pub lift: Lift,
}

// How many bytes of the piece a call used, and how many it wrote at the start of the lent buffer.
#[derive(Clone, Copy, Debug, PartialEq, Eq)]
pub struct Moved {
    pub used: usize,
    pub written: usize,
}

// What a call did, or why it is refused, and the lift afterwards.
#[derive(Clone, Copy)]
pub struct Lifted {
    pub lift: Lift,
    pub result: Result<Moved, Refusal>,
}
