// What the calls answer as numbers, for callers in other languages.
#![tactic(auto)]

pub mod answer;
pub mod read;
pub mod write;
