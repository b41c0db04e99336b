// What the calls answer.
use crate::event::Event;
use crate::state::Conn;

// Why a call is refused, in the order of the table of refusals: 1 to 10. The last is for calls with a queue.
#[derive(Clone, Copy, Debug, PartialEq, Eq)]
pub enum Refusal {
    Closed,
    StoreSize,
    NotActive,
    NotReady,
    Ended,
    NoRoom,
    NoPair,
    TooLong,
    OutOfShape,
    Waiting,
}

// An output stream.
#[derive(Clone, Copy, Debug, PartialEq, Eq)]
pub enum Output {
    Stdout,
    Stderr,
}

#[derive(Clone, Copy)]
pub struct Started {
    pub result: Result<(), Refusal>,
    pub conn: Conn,
}

// The bytes of the piece that a step used, what it tells, and the connection afterwards.
#[derive(Clone, Copy)]
pub struct Stepped {
    pub used: usize,
    pub result: Result<Event, Refusal>,
    pub conn: Conn,
}

#[derive(Clone, Copy)]
pub struct Written {
    pub wrote: Result<usize, Refusal>,
    pub conn: Conn,
}
