// A connection whose output waits in a queue, with the calls by which a station answers its requests. They only read
// the store, so a parameter can be said as it lies there.
ghost use Rattle.std.specs.Prelude.{◌≡◌, List, ℕ};
ghost use Rattle.queue.specs.Calls.{queue_end, queue_finish, queue_say, queue_value};
ghost use Rattle.talk.specs.Memory.{left_by, memory_of};

use connection::answer::Refusal;
use fastcgi_queue::{Conn, Output, QUEUE, WAITS, queue_end, queue_finish, queue_output, value};

// The connection, the numbers of what waits, the queue, and its marks.
#[derive(Drop)]
pub struct QueuedConn {
    pub(crate) conn: Conn,
    pub(crate) waits: [u16; WAITS],
    pub(crate) marks: [u8; QUEUE],
    pub(crate) queue: [u8; QUEUE],
}

impl QueuedConn {
    pub fn is_open(&self) -> bool
        ensures { result ≡ self.now.conn.«open» }
    {
        self.conn.open
    }

    // The value of a request's parameter, or the fallback.
    pub fn value<'a>(&self, store: &'a [u8], id: u16, name: &[u8], fallback: &'a [u8]) -> &'a [u8]
        ensures { (gathered : List ℕ) → result.now
            ≡ queue_value (memory_of self.now gathered store.now) id name.now fallback.now }
    {
        value(self.conn, &self.waits, store, id, name, fallback)
    }

    // Lets bytes wait for a request, all of them or none.
    pub fn say(&mut self, id: u16, output: Output, bytes: &[u8]) -> Result<(), Refusal>
        ensures { (gathered store : List ℕ) → left_by result self.new gathered store
            ≡ queue_say (memory_of self.old gathered store) id output bytes.now }
    {
        let queueing = queue_output(
            self.conn,
            &mut self.waits,
            &mut self.marks,
            &mut self.queue,
            id,
            output,
            bytes,
        );
        self.conn = queueing.conn;
        queueing.result
    }

    // Lets the end of an output stream wait.
    pub fn end(&mut self, id: u16, output: Output) -> Result<(), Refusal>
        ensures { (gathered store : List ℕ) → left_by result self.new gathered store
            ≡ queue_end (memory_of self.old gathered store) id output }
    {
        let queueing = queue_end(self.conn, &mut self.waits, &mut self.marks, id, output);
        self.conn = queueing.conn;
        queueing.result
    }

    // Lets the end of a request wait.
    pub fn finish(&mut self, id: u16, status: u32) -> Result<(), Refusal>
        ensures { (gathered store : List ℕ) → left_by result self.new gathered store
            ≡ queue_finish (memory_of self.old gathered store) id status }
    {
        let queueing = queue_finish(self.conn, &mut self.waits, &mut self.marks, id, status);
        self.conn = queueing.conn;
        queueing.result
    }
}
