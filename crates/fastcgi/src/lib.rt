// The door: everything that a station program names, in one place. Each line brings in a call or a type from the crate
// that declares it; docs/CALLS.md has what each call takes, answers and refuses.
#![tactic(auto)]

// ---- State. A connection is a value that goes from call to call; the store and the gathered bytes are lent beside it.
pub use connection::state::Conn;

// The sizes of what is lent: the store, and the bytes of a query while it comes in.
pub use connection::sizes::{QUERY, STORE};

// How many requests can be active at once, and how many bytes of parameters each can have.
pub use connection::sizes::{AREA, SLOTS};

// ---- Events. What a step tells, and what its fields say.
pub use connection::event::{Close, Event, Fault, Measure, Status, Stream};
pub use connection::request::Role;

// ---- Calls that read the connection. `start` makes an open connection, `step` reads a piece of what came in,
// `next_event` reads on to the next event.
pub use call_start::start;
pub use call_step::{next_event, step};

// ---- Calls that ask for a request's parameters: the value of a name, where it was found, the pair of a number.
pub use call_value::{pair_at, value, value_source};

// The pairs in order: a walk, the pair at its place, the walk past that pair, the walk at another place. `pair_from`
// reads on from a place without holding a walk.
pub use call_walk::{moved_to, next_pair, pair_from, past_pair, walk_pairs};

// The list itself, as the part of the store that it is, for functions of a station's own; and why there is none.
pub use call_walk::{list_of, list_refusal};

// ---- What a request is: its role, KEEP_CONN, the stream whose turn it is, whether it is spent, what was shown of it.
pub use call_request::request_of;
pub use connection::request::{Life, Request, RequestState, Shown, Turn};

// ---- Calls that write for a request: data on STDOUT or STDERR, the end of one of them, the end of the request.
pub use call_finish::finish;
pub use call_output::{end_output, write_output};

// ---- Calls that take no connection: the reply that an event owes, and a name-value pair.
pub use call_reply::owed_reply;
pub use pair_writer::write_pair;

// ---- How many requests are active.
pub use call_count::active_count;

// ---- Answers. They are a `Result`: what the call found or did, or the `Refusal`. `Started`, `Stepped` and `Written` have
// the connection afterwards beside it, and so has `Finished`, whose `FinishResult` also says whether the connection is
// closed. `PairRefusal` is why a pair is not written. `Source` and `Walk` hold what they were asked of, and `Output` says
// which stream is written.
pub use call_finish::{FinishResult, Finished};
pub use call_value::Source;
pub use call_walk::Walk;
pub use connection::answer::{Output, Refusal, Started, Stepped, Written};
pub use pair_writer::PairRefusal;
pub use pairs::pair::{Pair, Read};

// ---- Numbers. The number of a refusal, a fault, a close, a status, a role or a stream, as the rules count them.
pub use codes::{
    close_number, fault_number, refusal_number, role_number, status_number, stream_type,
};

// ---- Readings in a body, beside the receiver: a reading is written into a buffer, and read from the bytes that data
// events show. A reader is a value that goes from call to call; `new_reader` makes one for each body.
pub use reading::Reading;
pub use reading_reader::{
    BodyEnd, Ended, ReadOn, Reader, ReadingFault, ReadingResult, end_body, new_reader,
    read_reading, reading_fault_number,
};
pub use reading_writer::{ReadingRefusal, write_reading};

// ---- Ice correction, beside the receiver: a raw count corrected by a thawed and a frozen calibration card.
pub use ice_correction::{
    Calibration, Card, CorrectionFault, Curve, correct, correction_fault_number,
};
