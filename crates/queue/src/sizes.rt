use connection::sizes::SLOTS;

// Bytes of the queue that belong to one slot.
pub const ROOM: usize = 1024;

// The queue: ROOM bytes for each slot. There is a mark for each of its bytes.
pub const QUEUE: usize = SLOTS * ROOM;

// The numbers of what waits, lent beside the state.
pub const WAITS: usize = 54;

// The most content bytes of a record that the pump writes, and the bytes that such a record takes.
pub const RUN: usize = 512;

pub const PUMPED: usize = 520;
