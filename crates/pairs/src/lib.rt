// A name-value pair: its lengths, and a pair read at a cursor. Nothing here knows of connections.
#![tactic(auto)]

pub mod length;
pub mod pair;
