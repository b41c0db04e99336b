// What the calls answer as numbers. In each struct the fields stand from the widest to the narrowest, so that C leaves
// no gap between two of them. A refusal is 0 where the call is not refused; where it is, the other numbers are 0 and
// the state is the one that was given.
use flat_event::FlatEvent;
use flat_state::FlatState;

// What `start` answers.
#[repr(C)]
#[derive(Clone, Copy)]
pub struct FlatStarted {
    pub state: FlatState,
    pub refusal: u8,
}

// What `step` and `next_event` answer: the bytes used, the event, the state afterwards.
#[repr(C)]
#[derive(Clone, Copy)]
pub struct FlatStepped {
    pub used: usize,
    pub event: FlatEvent,
    pub state: FlatState,
    pub refusal: u8,
}

// Where a value or a list lies in the store. `found` is 1 where there is one, 0 where no pair has the name.
#[repr(C)]
#[derive(Clone, Copy)]
pub struct FlatPlace {
    pub offset: usize,
    pub length: usize,
    pub refusal: u8,
    pub found: u8,
}

// A pair, its places counted in the request's list. `kind` is 1 for a pair, 2 for the end of the list, 3 for a pair
// that cannot be read. `next` is the place after a pair that was read on to, or where the malformed one starts.
#[repr(C)]
#[derive(Clone, Copy)]
pub struct FlatPair {
    pub name: usize,
    pub name_len: usize,
    pub value: usize,
    pub value_len: usize,
    pub next: usize,
    pub refusal: u8,
    pub kind: u8,
}

// What a request is.
#[repr(C)]
#[derive(Clone, Copy)]
pub struct FlatRequest {
    pub stdin_shown: u32,
    pub data_shown: u32,
    pub id: u16,
    pub length: u16,
    pub role: u8,
    pub turn: u8,
    pub life: u8,
    pub keep: u8,
    pub out_ended: u8,
    pub err_used: u8,
    pub err_ended: u8,
    pub refusal: u8,
}

// How many requests are active.
#[repr(C)]
#[derive(Clone, Copy)]
pub struct FlatCount {
    pub count: u32,
    pub refusal: u8,
}

// What the calls answer by which output comes to wait.
#[repr(C)]
#[derive(Clone, Copy)]
pub struct FlatQueued {
    pub state: FlatState,
    pub refusal: u8,
}

// A turn of the pump: the records and the bytes that it wrote, and whether the connection is closed.
#[repr(C)]
#[derive(Clone, Copy)]
pub struct FlatPumped {
    pub records: usize,
    pub written: usize,
    pub state: FlatState,
    pub refusal: u8,
    pub closed: u8,
}

// Output that was written straight out.
#[repr(C)]
#[derive(Clone, Copy)]
pub struct FlatWritten {
    pub written: usize,
    pub state: FlatState,
    pub refusal: u8,
}

// The end of a request written straight out, and whether the connection is closed.
#[repr(C)]
#[derive(Clone, Copy)]
pub struct FlatFinished {
    pub written: usize,
    pub state: FlatState,
    pub refusal: u8,
    pub closed: u8,
}

// What the writers answer that take no connection.
#[repr(C)]
#[derive(Clone, Copy)]
pub struct FlatWrote {
    pub written: usize,
    pub refusal: u8,
}
