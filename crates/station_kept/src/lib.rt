// What a station keeps of its requests, in numbers, and parts of slices.
#![tactic(auto)]

mod kept;
mod part;

pub use crate::kept::{
    BLOCK_AT, COMING, DROPPED, FAILED, FAULT, FAULTY, FIRST, HEADER, ID, KEPT, LAST, LENGTH, LINES,
    LOGGED, MEASURE, PHASE, PLACE, ROLE, SAID, TOO_LONG, fault_of, find, id_of, keep, kept_of,
    measure_of, note, note_fault, note_measure,
};
pub use crate::part::{minus, past, plus, rest, some};
