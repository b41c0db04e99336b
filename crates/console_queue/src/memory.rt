// The connection, and all that a call may be lent beside it. A copy from before a call is what shows whether the call
// changed anything.
use conn_frame::closed;
use connection::answer::{Output, Refusal};
use fastcgi_queue::{
    Conn, FinishResult, Finished, PumpResult, Pumped, QUERY, QUEUE, Queueing, STORE, Started,
    Stepped, WAITS, finish, next_event, pump, queue_end, queue_finish, queue_output, start, step,
};

// Store and queue have one byte more than a connection takes, so that one that is too long can be lent.
pub const WHOLE: usize = STORE + 1;

pub const WHOLE_QUEUE: usize = QUEUE + 1;

// Of the store and of the queue the first bytes are lent, as many as `lent` and `lent_queue` say.
#[derive(Clone, Copy, PartialEq, Eq)]
pub struct Memory {
    pub conn: Conn,
    pub store: [u8; WHOLE],
    pub gathered: [u8; QUERY],
    pub waits: [u16; WAITS],
    pub marks: [u8; QUEUE],
    pub queue: [u8; WHOLE_QUEUE],
    pub lent: usize,
    pub lent_queue: usize,
}

// The calls over the lent parts. They take arrays one by one, since of a value behind a reference only whole fields can
// be lent together.
fn start_over(
    n: usize,
    store: &mut [u8; WHOLE],
    gathered: &mut [u8; QUERY],
    waits: &mut [u16; WAITS],
) -> Started {
    start(&mut store[..n.min(WHOLE)], gathered, waits)
}

fn step_over(
    c: Conn,
    n: usize,
    store: &mut [u8; WHOLE],
    gathered: &mut [u8; QUERY],
    waits: &mut [u16; WAITS],
    piece: &[u8],
) -> Stepped {
    step(c, &mut store[..n.min(WHOLE)], gathered, waits, piece)
}

fn next_over(
    c: Conn,
    n: usize,
    store: &mut [u8; WHOLE],
    gathered: &mut [u8; QUERY],
    waits: &mut [u16; WAITS],
    piece: &[u8],
) -> Stepped {
    next_event(c, &mut store[..n.min(WHOLE)], gathered, waits, piece)
}

fn finish_over(
    c: Conn,
    n: usize,
    store: &mut [u8; WHOLE],
    waits: &mut [u16; WAITS],
    id: u16,
    status: u32,
    room: &mut [u8],
) -> Finished {
    finish(c, waits, &mut store[..n.min(WHOLE)], id, status, room)
}

fn queue_over(
    c: Conn,
    n: usize,
    waits: &mut [u16; WAITS],
    marks: &mut [u8; QUEUE],
    queue: &mut [u8; WHOLE_QUEUE],
    id: u16,
    output: Output,
    bytes: &[u8],
) -> Queueing {
    queue_output(
        c,
        waits,
        marks,
        &mut queue[..n.min(WHOLE_QUEUE)],
        id,
        output,
        bytes,
    )
}

fn pump_over(
    c: Conn,
    n: usize,
    store: &mut [u8; WHOLE],
    waits: &mut [u16; WAITS],
    marks: &mut [u8; QUEUE],
    k: usize,
    queue: &mut [u8; WHOLE_QUEUE],
    allowance: usize,
    room: &mut [u8],
) -> Pumped {
    pump(
        c,
        &mut store[..n.min(WHOLE)],
        waits,
        marks,
        &mut queue[..k.min(WHOLE_QUEUE)],
        allowance,
        room,
    )
}

// A closed connection; a store and a queue of the right size are lent.
pub fn fresh() -> Memory {
    Memory {
        conn: closed(),
        store: [0; WHOLE],
        gathered: [0; QUERY],
        waits: [0; WAITS],
        marks: [0; QUEUE],
        queue: [0; WHOLE_QUEUE],
        lent: STORE,
        lent_queue: QUEUE,
    }
}

impl Memory {
    // The lent part of the store.
    pub fn lent_store(&self) -> &[u8] {
        &self.store[..self.lent.min(WHOLE)]
    }

    pub fn start(&mut self) -> Result<(), Refusal> {
        let started = start_over(
            self.lent,
            &mut self.store,
            &mut self.gathered,
            &mut self.waits,
        );
        self.conn = started.conn;
        started.result
    }

    pub fn step(&mut self, piece: &[u8]) -> Stepped {
        let stepped = step_over(
            self.conn,
            self.lent,
            &mut self.store,
            &mut self.gathered,
            &mut self.waits,
            piece,
        );
        self.conn = stepped.conn;
        stepped
    }

    pub fn next_event(&mut self, piece: &[u8]) -> Stepped {
        let stepped = next_over(
            self.conn,
            self.lent,
            &mut self.store,
            &mut self.gathered,
            &mut self.waits,
            piece,
        );
        self.conn = stepped.conn;
        stepped
    }

    pub fn finish(&mut self, id: u16, status: u32, room: &mut [u8]) -> FinishResult {
        let finished = finish_over(
            self.conn,
            self.lent,
            &mut self.store,
            &mut self.waits,
            id,
            status,
            room,
        );
        self.conn = finished.conn;
        finished.result
    }

    pub fn queue_output(&mut self, id: u16, output: Output, bytes: &[u8]) -> Result<(), Refusal> {
        let queued = queue_over(
            self.conn,
            self.lent_queue,
            &mut self.waits,
            &mut self.marks,
            &mut self.queue,
            id,
            output,
            bytes,
        );
        self.conn = queued.conn;
        queued.result
    }

    pub fn queue_end(&mut self, id: u16, output: Output) -> Result<(), Refusal> {
        let queued = queue_end(self.conn, &mut self.waits, &mut self.marks, id, output);
        self.conn = queued.conn;
        queued.result
    }

    pub fn queue_finish(&mut self, id: u16, status: u32) -> Result<(), Refusal> {
        let queued = queue_finish(self.conn, &mut self.waits, &mut self.marks, id, status);
        self.conn = queued.conn;
        queued.result
    }

    pub fn pump(&mut self, allowance: usize, room: &mut [u8]) -> PumpResult {
        let pumped = pump_over(
            self.conn,
            self.lent,
            &mut self.store,
            &mut self.waits,
            &mut self.marks,
            self.lent_queue,
            &mut self.queue,
            allowance,
            room,
        );
        self.conn = pumped.conn;
        pumped.result
    }
}
