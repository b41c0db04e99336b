// The state of the web server's end.
use connection::state::Table;
use record_reader::Position;

// An input stream of a request, which this end writes.
#[derive(Clone, Copy, Debug, PartialEq, Eq)]
pub enum Input {
    Params,
    Stdin,
    Data,
}

// What the content of the record being read is for: nothing, a request's output, the body of its END_REQUEST, a result
// of values, or the body of an UNKNOWN_TYPE. Requests by their slot.
#[derive(Clone, Copy, Debug, PartialEq, Eq)]
pub enum Target {
    Skip,
    Stdout(u8),
    Stderr(u8),
    End(u8),
    Values,
    Unknown,
}

// The record being read: where the reader stands, what its content is for, and how many bytes of it are gathered. A
// body of eight bytes is held here; a result lies in the 512 bytes that are lent beside the state.
#[derive(Clone, Copy, Debug, PartialEq, Eq)]
pub struct Frame {
    pub position: Position,
    pub target: Target,
    pub gathered: usize,
    pub body: [u8; 8],
}

// The requests that are open, in a table like the station's. A request's turn is the stream that may be written next,
// and its life says whether it was aborted; its length and what was shown of it are not used at this end.
#[derive(Clone, Copy, Debug, PartialEq, Eq)]
pub struct Server {
    pub table: Table,
    pub frame: Frame,
    pub open: bool,
}
