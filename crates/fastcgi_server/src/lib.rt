// The second door: everything that a program at the web server's end names, in one place. Each line brings in a call
// or a type from the crate that declares it; docs/SERVER.md has what each call takes, answers and refuses.
#![tactic(auto)]

// ---- State. A server's end is a value that goes from call to call; the bytes of a result of values are lent beside
// it.
pub use server::state::Server;

// The size of what is lent, which is also the most bytes of a list of names or of values.
pub use connection::sizes::QUERY;

// How many requests can be open at once.
pub use connection::sizes::SLOTS;

// ---- Events. What a step tells, and what its fields say.
pub use connection::answer::Output;
pub use server::event::{ServerClose, ServerEvent};

// ---- Calls that read the connection. `start_server` makes an open end, `step_server` reads a piece of what came in.
pub use server_start::start_server;
pub use server_step::step_server;

// ---- Calls that write for a request: it is opened, then come its pairs, its input, the end of a stream, an abort.
pub use connection::event::Stream;
pub use server::state::Input;
pub use server_open::open_request;
pub use server_write::{abort_request, add_pair, end_input, write_input};

// ---- Calls that ask for values: a name-value pair, of which a list of names is made, and the query with that list.
// `write_pair` answers the bytes written, or why the pair is refused.
pub use pair_writer::{PairRefusal, write_pair};
pub use server_ask::ask_values;

// The values that came: a list of pairs, each read at its place.
pub use pairs::pair::{Pair, Read, read_pair};

// ---- How many requests are open, or why the call is refused.
pub use server_count::open_count;

// ---- Answers. `ServerStepped` and `ServerWritten` have the state afterwards, and a `Result`: the event of a step or the
// bytes that a call wrote, or the `ServerRefusal`.
pub use server::answer::{ServerRefusal, ServerStepped, ServerWritten};

// ---- Numbers. The number of a refusal or of a close, as the rules count them.
pub use server_codes::{close_number, refusal_number};
