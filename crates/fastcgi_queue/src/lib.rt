// The door for stations whose output may wait in a queue: everything that such a program names, in one place. It has
// the calls of the crate `fastcgi` under their names, with what waits lent to them, and the calls of the queue.
// docs/CALLS.md has what each call takes, answers and refuses. On one connection only calls of one of the two doors are
// to be used.
#![tactic(auto)]

// ---- State. A connection is a value that goes from call to call; the store, the gathered bytes and the numbers of what
// waits are lent beside it.
pub use fastcgi::Conn;

// The sizes of what is lent.
pub use fastcgi::{QUERY, STORE};
pub use queue::sizes::WAITS;

// The queue, and its marks: one for each of its bytes. Of the queue each request has ROOM bytes. A buffer for the pump
// has PUMPED bytes for each record that a turn may write.
pub use queue::sizes::{PUMPED, QUEUE, ROOM};

// How many requests can be active at once, and how many bytes of parameters each can have.
pub use fastcgi::{AREA, SLOTS};

// ---- Events. What a step tells, and what its fields say.
pub use fastcgi::{Close, Event, Fault, Measure, Role, Status, Stream};

// ---- Calls that read the connection. `start` makes an open connection, `step` reads a piece of what came in,
// `next_event` reads on to the next event.
pub use queue_read::{next_event, start, step};

// ---- Calls that ask for a request's parameters: the value of a name, where it was found, the pair of a number.
pub use queue_list::{pair_at, value, value_source};

// The pairs in order: a walk, the pair at its place, the walk past that pair, the walk at another place. `pair_from`
// reads on from a place without holding a walk.
pub use fastcgi::{moved_to, next_pair, past_pair};
pub use queue_list::{pair_from, walk_pairs};

// The list itself, as the part of the store that it is, for functions of a station's own; and why there is none.
pub use queue_list::{list_of, list_refusal};

// ---- What a request is: its role, KEEP_CONN, the stream whose turn it is, whether it is spent, what was shown of it.
pub use fastcgi::{Life, Request, RequestState, Shown, Turn};
pub use queue_list::request_of;

// ---- Calls by which what a request says comes to wait: data, the end of a stream, the end of the request. The pump
// writes it out.
pub use queue_pump::pump;
pub use queue_write::{queue_end, queue_finish, queue_output};

// ---- Calls that write for a request straight out, while nothing of it waits.
pub use queue_straight::{end_output, finish, write_output};

// ---- Calls that take no connection: the reply that an event owes, and a name-value pair.
pub use fastcgi::{owed_reply, write_pair};

// ---- How many requests are active.
pub use queue_list::active_count;

// ---- Answers. `Queueing` has the connection afterwards and a `Result`: that the call came to wait, or the `Refusal`.
// `Pumped` has the connection and a `PumpResult`, which says what was written and whether the connection is closed, or
// why the call is refused. The others are those of `fastcgi`.
pub use fastcgi::{
    FinishResult, Finished, Output, Pair, PairRefusal, Read, Refusal, Source, Started, Stepped,
    Walk, Written,
};
pub use queue::answer::{PumpResult, Pumped, Queueing};

// ---- Numbers. The number of a refusal, a fault, a close, a status, a role or a stream, as the rules count them.
pub use fastcgi::{
    close_number, fault_number, refusal_number, role_number, status_number, stream_type,
};

// ---- Readings in a body, beside the receiver: a reading is written into a buffer, and read from the bytes that data
// events show. A reader is a value that goes from call to call; `new_reader` makes one for each body.
pub use fastcgi::{
    BodyEnd, Ended, ReadOn, Reader, Reading, ReadingFault, ReadingRefusal, ReadingResult, end_body,
    new_reader, read_reading, reading_fault_number, write_reading,
};

// ---- Ice correction, beside the receiver: a raw count corrected by a thawed and a frozen calibration card.
pub use fastcgi::{Calibration, Card, CorrectionFault, Curve, correct, correction_fault_number};
