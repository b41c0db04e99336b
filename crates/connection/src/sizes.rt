// Requests that can be active at once.
pub const SLOTS: usize = 16;

// Bytes of the store that belong to one slot.
pub const AREA: usize = 4096;

// The store: an area for each slot.
pub const STORE: usize = SLOTS * AREA;

// The most content bytes of a GET_VALUES record.
pub const QUERY: usize = 512;

// Content bytes of a record of STDOUT or STDERR.
pub const CHUNK: u16 = 8184;
