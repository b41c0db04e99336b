// Calls that write straight out, while other requests may have something waiting. Of the request that they name nothing
// may wait: 10, last of all; between its finish and its END: 5.
#![tactic(auto)]

ghost use Rattle.std.specs.Prelude.{◌≡◌, List, ℕ, Ok, Err, Result};
ghost use Rattle.call_finish.specs.declared.FinishResult.{FinishResult};
ghost use Rattle.call_output.specs.Answer.{written_by};
ghost use Rattle.call_finish.specs.Answer.{finished_by};
ghost use Rattle.queue.specs.Numbers.{kept_waits};
ghost use Rattle.queue.specs.Calls.{lent, straight_say, straight_end, straight_finish};
ghost use Rattle.queue_straight.specs.Straight.{StraightCheck};

use call_finish::{FinishResult, Finished, finish as finish_alone, owed_length};
use call_output::{end_output as end_alone, write_output as write_alone};
use connection::answer::{Output, Refusal, Written};
use connection::sizes::CHUNK;
use connection::state::Conn;
use queue::sizes::WAITS;
use queue_admit::{admit_lent_waits, admit_waits};
use record_writer::{record_fits, stream_fits};
use request_output::output_check;
use slot_table::request_at;
use wait_numbers::{is_leaving, is_waiting, keep_waits};

// Rows 3, 4, 5, 6 and 10 of an output on a stream of the request with that id: whether it goes on.
fn straight_check(
    c: Conn,
    waits: &[u16; WAITS],
    id: u16,
    output: Output,
    fits: bool,
) -> Result<(), Refusal>
    ensures { StraightCheck c waits.now id output fits result }
{
    let slot = admit_waits(c, waits, id)?;
    if is_leaving(waits, slot) {
        return Err(Refusal::Ended);
    }
    output_check(request_at(c.table, slot), output, fits)?;
    if is_waiting(waits, slot) {
        return Err(Refusal::Waiting);
    }
    Ok(())
}

// A refused call: nothing is written, nothing changes.
fn refused(c: Conn, why: Refusal) -> Written
    ensures { result ≡ record { wrote = Err why; conn = c } }
{
    Written {
        wrote: Err(why),
        conn: c,
    }
}

// Data written straight to a request's STDOUT or STDERR, from the start of out on. Refusals 9, 1, 3, 4, 5, 6, 10.
pub fn write_output(
    c: Conn,
    waits: &[u16; WAITS],
    id: u16,
    output: Output,
    bytes: &[u8],
    out: &mut [u8],
) -> Written
    ensures { (gathered store marks queue : List ℕ) → written_by result out.new
        ≡ straight_say (lent c gathered store waits.now marks queue) id output bytes.now
        out.old }
{
    let fits = stream_fits(CHUNK, bytes.len(), 0, out.len());
    match straight_check(c, waits, id, output, fits) {
        Err(why) => refused(c, why),
        Ok(()) => write_alone(c, id, output, bytes, out),
    }
}

// The end of a request's STDOUT or STDERR, written straight out. Refusals 9, 1, 3, 4, 5, 6, 10.
pub fn end_output(c: Conn, waits: &[u16; WAITS], id: u16, output: Output, out: &mut [u8]) -> Written
    ensures { (gathered store marks queue : List ℕ) → written_by result out.new
        ≡ straight_end (lent c gathered store waits.now marks queue) id output out.old }
{
    let fits = record_fits(0, 0, out.len());
    match straight_check(c, waits, id, output, fits) {
        Err(why) => refused(c, why),
        Ok(()) => end_alone(c, id, output, out),
    }
}

// A refused finish: nothing is written, nothing changes.
fn unfinished(c: Conn, why: Refusal) -> Finished
    ensures { result ≡ record { result = FinishResult.Refused why; conn = c } }
{
    Finished {
        result: FinishResult::Refused(why),
        conn: c,
    }
}

// The request ends, straight out. Where that closes the connection, what waits is dropped. Refusals 2, 9, 1, 3, 5, 6,
// 10.
pub fn finish(
    c: Conn,
    waits: &mut [u16; WAITS],
    store: &mut [u8],
    id: u16,
    app_status: u32,
    out: &mut [u8],
) -> Finished
    ensures { ((gathered marks queue : List ℕ) → finished_by result store.new out.new
        ≡ straight_finish (lent c gathered store.old waits.old marks queue) id app_status
        out.old)
        × (waits.new ≡ kept_waits c.«open» result.conn.«open» waits.old) }
{
    match admit_lent_waits(c, waits, store, id) {
        Err(why) => unfinished(c, why),
        Ok(slot) => {
            if is_leaving(waits, slot) {
                return unfinished(c, Refusal::Ended);
            }
            if out.len() < owed_length(request_at(c.table, slot).state) {
                return unfinished(c, Refusal::NoRoom);
            }
            if is_waiting(waits, slot) {
                return unfinished(c, Refusal::Waiting);
            }
            let finished = finish_alone(c, store, id, app_status, out);
            keep_waits(waits, c.open, finished.conn.open);
            finished
        }
    }
}
