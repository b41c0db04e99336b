// The state of a connection.
use crate::request::Standing;
use crate::sizes::SLOTS;
use record_reader::Position;

// The requests, slot by slot. Of the words bit i is for slot i: the marks of its request, and whether it is taken.
#[derive(Clone, Copy, Debug, PartialEq, Eq)]
pub struct Table {
    pub ids: [u16; SLOTS],
    pub lengths: [u16; SLOTS],
    pub standings: [Standing; SLOTS],
    pub keep: u16,
    pub out_ended: u16,
    pub err_used: u16,
    pub err_ended: u16,
    pub stdin_shown: [u32; SLOTS],
    pub data_shown: [u32; SLOTS],
    pub occupied: u16,
}

// What the content of the record being read is for: nothing, a request to be opened, a query, or the slot of a request.
#[derive(Clone, Copy, Debug, PartialEq, Eq)]
pub enum Target {
    Skip,
    Begin(u16),
    Query,
    Params(u8),
    Stdin(u8),
    Data(u8),
}

// The record being read: where the reader stands, what its content is for, and how many bytes of a body are
// gathered. A BEGIN_REQUEST body is held here; a query lies in the 512 bytes that are lent beside the state.
#[derive(Clone, Copy, Debug, PartialEq, Eq)]
pub struct Frame {
    pub position: Position,
    pub target: Target,
    pub gathered: usize,
    pub body: [u8; 8],
}

#[derive(Clone, Copy, Debug, PartialEq, Eq)]
pub struct Conn {
    pub table: Table,
    pub frame: Frame,
    pub open: bool,
}
