// The state of a connection and the answers of its calls. What the calls do is defined in specs/; the code that does it
// stands in the crates above.
#![tactic(auto)]

pub mod answer;
pub mod decision;
pub mod event;
pub mod request;
pub mod sizes;
pub mod state;
