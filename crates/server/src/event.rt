// What a step of the web server's end tells.
use connection::answer::Output;

// Why the connection closes, 51 to 56: a version other than 1, a type that is no reply, an id that is not open, an
// END_REQUEST or UNKNOWN_TYPE that has not 8 bytes, a result of values that is too long or malformed, output of a stream
// that is ended.
#[derive(Clone, Copy, Debug, PartialEq, Eq)]
pub enum ServerClose {
    Version,
    NoReply,
    NotOpen,
    BodyLength,
    Values,
    StreamEnded,
}

// `id` is the request that an event is about; the last three are about none.
#[derive(Clone, Copy, Debug, PartialEq, Eq)]
pub enum ServerEvent {
    // The step has nothing to tell.
    Nothing,
    // So many bytes of one of its streams: the first of the piece that the step was lent.
    Output {
        id: u16,
        stream: Output,
        count: usize,
    },
    // One of its streams ends.
    Ended {
        id: u16,
        stream: Output,
    },
    // The station has finished it; the id is free.
    Finished {
        id: u16,
        app_status: u32,
        protocol_status: u8,
    },
    // The values that were asked for: a list of so many bytes, which lies in the lent 512 until the next one comes.
    Values {
        length: u16,
    },
    // The station does not know that type.
    Unknown {
        kind: u8,
    },
    // The connection closes.
    Closed {
        cause: ServerClose,
    },
}
