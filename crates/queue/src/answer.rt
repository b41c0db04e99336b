// What the calls with a queue answer.
use connection::answer::Refusal;
use connection::state::Conn;

#[derive(Clone, Copy)]
pub struct Queueing {
    pub result: Result<(), Refusal>,
    pub conn: Conn,
}

// What a turn of the pump comes to: the records and the bytes that it wrote, the connection still open; the same, the
// connection closed; or the refusal.
#[derive(Clone, Copy)]
pub enum PumpResult {
    Open { records: usize, bytes: usize },
    Closed { records: usize, bytes: usize },
    Refused(Refusal),
}

#[derive(Clone, Copy)]
pub struct Pumped {
    pub result: PumpResult,
    pub conn: Conn,
}
