// What a step decides, before it is applied to the state: small values only.
use crate::event::Event;
use crate::request::Request;
use crate::state::Frame;

// What becomes of the table: nothing, a slot's request changed, a free slot taken, or all of it freed.
#[derive(Clone, Copy, Debug, PartialEq, Eq)]
pub enum Change {
    Keep,
    Put(usize, Request),
    Take(usize, Request),
    Close,
}

#[derive(Clone, Copy)]
pub struct Decision {
    pub change: Change,
    pub frame: Frame,
    pub event: Event,
}
