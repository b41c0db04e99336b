// What every call with a queue asks first: the rows of the table of refusals that are not the request's own, the slot of
// its id, and rows 4 and 5 of what writes on a stream.
#![tactic(auto)]

ghost use Rattle.std.specs.Prelude.{◌≡◌, ◌∷◌, [], false, length, if◌then◌else◌};
ghost use Rattle.connection.specs.Refusal.{◌when◌, refusal};
ghost use Rattle.connection.specs.RequestCalls.{no_output, is_ended};
ghost use Rattle.call_admit.specs.Admission.{admitted_by};
ghost use Rattle.request_output.specs.Answer.{check_number};
ghost use Rattle.queue.specs.Calls.{or};
ghost use Rattle.queue_admit.specs.Admission.{queue_admission, queue_lent_admission, is_barred};

use call_admit::admit;
use connection::answer::{Output, Refusal};
use connection::request::Request;
use connection::sizes::STORE;
use connection::state::Conn;
use queue::sizes::WAITS;
use request_output::{is_ended, no_output};
use wait_numbers::waits_fit;

// A call that is lent a store of its size is refused by 9 because of what waits.
#[tactic(auto, unfolding(crate::specs::Admission::is_barred))]
pub fn is_barred(waits: &[u16; WAITS], occupied: u16, size: usize) -> bool
    ensures { result ≡ is_barred waits.now occupied size }
{
    size == STORE && !waits_fit(waits, occupied)
}

// Rows 9, 1 and 3: of a call that is not lent the store.
pub fn admit_waits(c: Conn, waits: &[u16; WAITS], id: u16) -> Result<usize, Refusal>
    ensures { admitted_by result ≡ queue_admission c waits.now id }
{
    if !waits_fit(waits, c.table.occupied) {
        return Err(Refusal::OutOfShape);
    }
    admit(c, id)
}

// Rows 2, 9, 1 and 3: of a call that is lent the store.
pub fn admit_lent_waits<'a>(
    c: Conn,
    waits: &'a [u16; WAITS],
    store: &'a [u8],
    id: u16,
) -> Result<usize, Refusal>
    ensures { admitted_by result ≡ queue_lent_admission c waits.now store.now id }
{
    if store.len() != STORE {
        return Err(Refusal::StoreSize);
    }
    admit_waits(c, waits, id)
}

// Rows 4 and 5 of what writes on a stream. Between finish and END the request is spent and both its streams are ended.
pub fn stream_check(leaving: bool, r: Request, output: Output) -> Result<(), Refusal>
    ensures { check_number result
        ≡ refusal ((4 when (if leaving then false else no_output r)) ∷ (5 when or leaving (is_ended output r.state)) ∷ []) }
{
    if leaving {
        return Err(Refusal::Ended);
    }
    if no_output(r) {
        return Err(Refusal::NotReady);
    }
    if is_ended(output, r.state) {
        return Err(Refusal::Ended);
    }
    Ok(())
}
