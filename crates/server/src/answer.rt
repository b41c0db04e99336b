// What the calls of the web server's end answer.
use crate::event::ServerEvent;
use crate::state::Server;

// Why a call is refused, in the order of the table of refusals: 9, 1, 3, 57 to 62, 8, 6.
#[derive(Clone, Copy, Debug, PartialEq, Eq)]
pub enum ServerRefusal {
    OutOfShape,
    Closed,
    NotOpen,
    IdZero,
    IdOpen,
    NoSlot,
    UnknownRole,
    OutOfTurn,
    BadQuery,
    TooLong,
    NoRoom,
}

#[derive(Clone, Copy)]
pub struct ServerWritten {
    pub wrote: Result<usize, ServerRefusal>,
    pub server: Server,
}

// The bytes of the piece that a step used, what it tells, and the state afterwards.
#[derive(Clone, Copy)]
pub struct ServerStepped {
    pub used: usize,
    pub result: Result<ServerEvent, ServerRefusal>,
    pub server: Server,
}
