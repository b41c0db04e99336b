// The work of a station that needs no connection: the bodies that it holds, what an event does to what it keeps, and
// the text of an answer, part by part.
#![tactic(auto)]

mod event;
mod lines;
mod pool;

pub use crate::event::hear;
pub use crate::lines::{PART, Stage, Wanted, fill, go_on, stage_of, wanted_of};
pub use crate::pool::{CHAINS, POOL, free_all, strike};
