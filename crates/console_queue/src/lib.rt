// The console's memory: the connection and all that is lent beside it. Here are the calls that change it, what a call
// of the queue is told, the questions about what waits, and what may be poked of it.
#![tactic(auto)]

pub mod calls;
pub mod command;
pub mod memory;
pub mod waiting;
