// The web server's end of a connection: its state, what it tells, and the answers of its calls. What the calls do is
// defined in specs/; the code that does it stands in the crates whose names begin with `server_`.
#![tactic(auto)]

pub mod answer;
pub mod decision;
pub mod event;
pub mod state;
