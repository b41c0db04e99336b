// One request.

#[derive(Clone, Copy, Debug, PartialEq, Eq)]
pub enum Role {
    Responder,
    Authorizer,
    Filter,
}

// The input stream whose turn it is. Once all have ended it is nobody's.
#[derive(Clone, Copy, Debug, PartialEq, Eq)]
pub enum Turn {
    Params,
    Stdin,
    Data,
    Done,
}

// A request lives until it is spent, by a fault or an abort. A spent one hears no more of its records, and stays active
// until it is finished.
#[derive(Clone, Copy, Debug, PartialEq, Eq)]
pub enum Life {
    Live,
    Faulted,
    Aborted,
}

// How many bytes of its STDIN and of its DATA were shown since the request was opened; none after a fault. A count that
// comes to its largest number stays there.
#[derive(Clone, Copy, Debug, PartialEq, Eq)]
pub struct Shown {
    pub stdin: u32,
    pub data: u32,
}

// How a request stands: its role, its turn and its life.
#[derive(Clone, Copy, Debug, PartialEq, Eq)]
pub struct Standing {
    // What the web server asks the application to be.
    pub role: Role,
    // The input stream that may come next.
    pub turn: Turn,
    // Whether it is spent.
    pub life: Life,
}

// The state of a request, apart from its id and its parameters.
#[derive(Clone, Copy, Debug, PartialEq, Eq)]
pub struct RequestState {
    // What the web server asks the application to be.
    pub role: Role,
    // The input stream that may come next.
    pub turn: Turn,
    // Whether it is spent.
    pub life: Life,
    // KEEP_CONN: the connection stays open when it is finished.
    pub keep: bool,
    // The end of its STDOUT is written.
    pub out_ended: bool,
    // Data was written to its STDERR, so an end is owed there too.
    pub err_used: bool,
    // The end of its STDERR is written.
    pub err_ended: bool,
    // What was shown of its input.
    pub shown: Shown,
}

// A request's id, the length of its list (the bytes of PARAMS that its area holds), and its state.
#[derive(Clone, Copy, Debug, PartialEq, Eq)]
pub struct Request {
    pub id: u16,
    pub length: u16,
    pub state: RequestState,
}

// What the content of a request's record is due to: nobody, its list of parameters, or the station program, as STDIN or
// as DATA.
#[derive(Clone, Copy, Debug, PartialEq, Eq)]
pub enum Due {
    Skip,
    Params,
    Stdin,
    Data,
}
