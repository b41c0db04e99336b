// Calls that read the connection, with what waits lent beside the state. They read as without a queue; what waits is
// tested for its shape, and dropped where the connection closes. (Both is done inside the loop of `call_step`.)
#![tactic(auto)]

ghost use Rattle.std.specs.Prelude.{◌≡◌, List, ℕ, length, if◌then◌else◌};
ghost use Rattle.wire.specs.Test.{◌=?◌};
ghost use Rattle.connection.specs.Sizes.{STORE};
ghost use Rattle.connection.specs.Step.{started};
ghost use Rattle.call_start.specs.Answer.{started_by};
ghost use Rattle.conn_step.specs.Answer.{stepped_by};
ghost use Rattle.queue.specs.Numbers.{nobody_waits, kept_waits};
ghost use Rattle.queue.specs.Calls.{lent, queue_step};
ghost use Rattle.queue_read.specs.Next.{queue_next};

use call_start::start as start_alone;
use call_step::{next_beside, step_beside};
use connection::answer::{Started, Stepped};
use connection::sizes::{QUERY, STORE};
use connection::state::Conn;
use queue::sizes::WAITS;
use wait_numbers::forget_all;

// Start: an open connection with no requests, and nothing waits. The queue and the marks stay as they are. With a store
// of another size it is refused, and what is lent stays as it is.
pub fn start(store: &mut [u8], gathered: &mut [u8; QUERY], waits: &mut [u16; WAITS]) -> Started
    ensures { (started_by result gathered.new store.new
        ≡ started gathered.old store.old)
        × (waits.new ≡ (if length store.old =? STORE then nobody_waits else waits.old)) }
{
    if store.len() == STORE {
        forget_all(waits);
    }
    start_alone(store, gathered)
}

// One step over a piece.
#[tactic(auto, using(crate::proofs::ReadLaws::lent_step))]
pub fn step(
    c: Conn,
    store: &mut [u8],
    gathered: &mut [u8; QUERY],
    waits: &mut [u16; WAITS],
    piece: &[u8],
) -> Stepped
    ensures { ((marks queue : List ℕ) → stepped_by result gathered.new store.new
        ≡ queue_step (lent c gathered.old store.old waits.old marks queue)
        piece.now)
        × (waits.new ≡ kept_waits c.«open» result.conn.«open» waits.old) }
{
    step_beside(c, store, gathered, waits, piece)
}

// Steps until something is told, a refusal, or the end of the piece. Of a data event the bytes are the last of those
// used.
#[tactic(auto, using(crate::proofs::ReadLaws::lent_next))]
pub fn next_event(
    c: Conn,
    store: &mut [u8],
    gathered: &mut [u8; QUERY],
    waits: &mut [u16; WAITS],
    piece: &[u8],
) -> Stepped
    ensures { ((marks queue : List ℕ) → stepped_by result gathered.new store.new
        ≡ queue_next (lent c gathered.old store.old waits.old marks queue)
        piece.now)
        × (waits.new ≡ kept_waits c.«open» result.conn.«open» waits.old) }
{
    next_beside(c, store, gathered, waits, piece)
}
