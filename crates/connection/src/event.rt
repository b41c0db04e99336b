// What a step tells.
use crate::request::Role;

// An input stream whose content is shown.
#[derive(Clone, Copy, Debug, PartialEq, Eq)]
pub enum Stream {
    Stdin,
    Data,
}

// What was shown of a stream against the length that the request's list states for it.
#[derive(Clone, Copy, Debug, PartialEq, Eq)]
pub enum Measure {
    Short,
    Exact,
    Over,
    Unstated,
}

// Why an opening is refused: the protocol status of its END_REQUEST, 2 or 3.
#[derive(Clone, Copy, Debug, PartialEq, Eq)]
pub enum Status {
    Overloaded,
    UnknownRole,
}

// What a request did wrong, 21 to 26: a second BEGIN_REQUEST, a stream out of turn, a type that no request has, more
// parameters than its area holds, a malformed list of parameters, a list in which a name comes twice.
#[derive(Clone, Copy, Debug, PartialEq, Eq)]
pub enum Fault {
    BeginAgain,
    OutOfTurn,
    WrongType,
    TooLong,
    // `at` is where the pair starts that cannot be read, counted in the list.
    Malformed { at: u16 },
    Repeated,
}

// Why a connection closes, 11 to 14: a version other than 1, a BEGIN_REQUEST that has not 8 bytes, a query that is too
// long or malformed.
#[derive(Clone, Copy, Debug, PartialEq, Eq)]
pub enum Close {
    Version,
    BeginLength,
    QueryLength,
    // `at` is where the pair starts that cannot be read.
    QueryMalformed { at: u16 },
}

// `id` is the request that an event is about; the last three are about none.
#[derive(Clone, Copy, Debug, PartialEq, Eq)]
pub enum Event {
    // The step has nothing to tell.
    Nothing,
    // A request is opened; `keep` says whether the connection outlives it.
    Open {
        id: u16,
        role: Role,
        keep: bool,
    },
    // Its parameters are complete and have so many bytes.
    Ready {
        id: u16,
        length: u16,
    },
    // So many bytes of one of its streams: the first of the piece that the step was lent.
    Data {
        id: u16,
        stream: Stream,
        count: usize,
    },
    // One of its streams ends; `measure` holds what was shown of it against the length that the request stated.
    End {
        id: u16,
        stream: Stream,
        measure: Measure,
    },
    // The web server aborts it.
    Abort {
        id: u16,
    },
    // It is not opened. An END_REQUEST is owed.
    Refuse {
        id: u16,
        status: Status,
    },
    // It did something wrong, and its parameters and counts are lost.
    Fault {
        id: u16,
        fault: Fault,
    },
    // A query, and which of FCGI_MAX_CONNS, FCGI_MAX_REQS and FCGI_MPXS_CONNS it names. Their values are owed.
    Query {
        max_conns: bool,
        max_reqs: bool,
        mpxs_conns: bool,
    },
    // A management record of a type that is not known. An UNKNOWN_TYPE is owed.
    Unknown {
        kind: u8,
    },
    // The connection closes.
    Closed {
        cause: Close,
    },
}
