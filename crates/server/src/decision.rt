// What a step of the web server's end decides, before it is applied to the state: small values only.
use crate::event::ServerEvent;
use crate::state::Target;
use connection::answer::Output;

// What becomes of the table: nothing, a stream of a slot's request ended, a slot given back, or all of it freed.
#[derive(Clone, Copy, Debug, PartialEq, Eq)]
pub enum Change {
    Keep,
    EndStream(usize, Output),
    Free(usize),
    Close,
}

// The change, what the content that follows is for, how many bytes of a body are gathered, that body, and the event.
#[derive(Clone, Copy, Debug, PartialEq, Eq)]
pub struct Decision {
    pub change: Change,
    pub target: Target,
    pub gathered: usize,
    pub body: [u8; 8],
    pub event: ServerEvent,
}
