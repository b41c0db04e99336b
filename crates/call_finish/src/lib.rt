// The end of a request (finish): what is owed is written, its slot and its area are given back.
#![tactic(auto)]

ghost use Rattle.std.specs.Prelude.{◌≡◌, ◌+◌, ◌≤◌, length};
ghost use Rattle.wire.specs.Buffer.{put_at};
ghost use Rattle.connection.specs.RequestCalls.{owes_out, owes_err, finish_bytes};
ghost use Rattle.connection.specs.Calls.{redirected, released, finish};
ghost use Rattle.call_finish.specs.Answer.{owed_length, end_if, skip_own, finished_by};

use call_admit::admit_lent;
use conn_frame::closed;
use connection::answer::Refusal;
use connection::request::{Request, RequestState};
use connection::sizes::AREA;
use connection::state::{Conn, Frame, Target};
use record::body::end_body;
use record::names;
use record_writer::write_record;
use slot_table::{free_request, request_at};
use wire::clear;

// What finish comes to: the bytes written, the connection still open; the bytes written, the connection closed; or
// the refusal. (The first two are both successes: a Result of an enum of two would read no plainer.)
#[derive(Clone, Copy)]
pub enum FinishResult {
    Open(usize),
    Closed(usize),
    Refused(Refusal),
}

#[derive(Clone, Copy)]
pub struct Finished {
    pub result: FinishResult,
    pub conn: Conn,
}

// An empty STDOUT record is owed if STDOUT is not ended.
#[tactic(auto, unfolding(connection::specs::RequestCalls::owes_out))]
pub fn owes_out(m: RequestState) -> bool
    ensures { result ≡ owes_out m }
{
    !m.out_ended
}

// An empty STDERR record is owed if STDERR was used and is not ended.
#[tactic(auto, unfolding(connection::specs::RequestCalls::owes_err))]
pub fn owes_err(m: RequestState) -> bool
    ensures { result ≡ owes_err m }
{
    m.err_used && !m.err_ended
}

// An empty record takes eight bytes, the END_REQUEST record sixteen.
pub fn owed_length(m: RequestState) -> usize
    ensures { result ≡ owed_length m }
{
    8 * usize::from(owes_out(m)) + 8 * usize::from(owes_err(m)) + 16
}

// An empty record at a place, if it is owed; answers the place after it.
fn write_end(out: &mut [u8], at: usize, owed: bool, kind: u8, id: u16) -> usize
    requires { at + length (end_if owed kind id) ≤ length out.old }
    ensures { (result ≡ at + length (end_if owed kind id))
        × (out.new ≡ put_at out.old at (end_if owed kind id)) }
{
    if owed {
        write_record(out, at, kind, id, b"")
    } else {
        at
    }
}

// Writes what is owed at the start of out: the ends of STDOUT and STDERR, then END_REQUEST with the application's
// status and 0.
fn write_owed(out: &mut [u8], r: Request, app_status: u32) -> usize
    requires { length (finish_bytes r app_status) ≤ length out.old }
    ensures { (result ≡ length (finish_bytes r app_status))
        × (out.new ≡ put_at out.old 0 (finish_bytes r app_status)) }
{
    let a = write_end(out, 0, owes_out(r.state), names::STDOUT, r.id);
    let b = write_end(out, a, owes_err(r.state), names::STDERR, r.id);
    let body = end_body(app_status, names::REQUEST_COMPLETE);
    write_record(out, b, names::END_REQUEST, r.id, &body)
}

// The rest of a half-read record of slot j is skipped, if that is the slot given back.
fn skip_own(i: usize, j: u8, kept: Target) -> Target
    ensures { result ≡ skip_own i j kept }
{
    if usize::from(j) == i {
        Target::Skip
    } else {
        kept
    }
}

// The rest of a half-read record of the request in slot i is skipped.
pub fn redirect(i: usize, target: Target) -> Target
    ensures { result ≡ redirected i target }
{
    match target {
        Target::Params(j) | Target::Stdin(j) | Target::Data(j) => skip_own(i, j, target),
        Target::Begin(_) | Target::Query | Target::Skip => target,
    }
}

// The connection without the request in slot i.
pub fn release(c: Conn, i: usize) -> Conn
    ensures { result ≡ released c i }
{
    Conn {
        table: free_request(c.table, i),
        frame: Frame {
            target: redirect(i, c.frame.target),
            ..c.frame
        },
        ..c
    }
}

// A refused call: nothing is written, nothing changes.
fn refused(c: Conn, why: Refusal) -> Finished
    ensures { result ≡ record { result = FinishResult.Refused why; conn = c } }
{
    Finished {
        result: FinishResult::Refused(why),
        conn: c,
    }
}

// The request of that id ends (finish): what it still owes is written at the start of out. With KEEP_CONN its slot and
// its area are given back; without, the connection closes and the store is zeroed. Refusals 2, 9, 1, 3, 6.
pub fn finish(c: Conn, store: &mut [u8], id: u16, app_status: u32, out: &mut [u8]) -> Finished
    ensures { finished_by result store.new out.new
        ≡ finish c store.old id app_status out.old }
{
    match admit_lent(c, store, id) {
        Err(why) => refused(c, why),
        Ok(slot) => {
            let request = request_at(c.table, slot);
            if out.len() < owed_length(request.state) {
                return refused(c, Refusal::NoRoom);
            }
            let written = write_owed(out, request, app_status);
            if request.state.keep {
                let start = slot * AREA;
                clear(&mut store[start..start + AREA]);
                return Finished {
                    result: FinishResult::Open(written),
                    conn: release(c, slot),
                };
            }
            clear(store);
            Finished {
                result: FinishResult::Closed(written),
                conn: closed(),
            }
        }
    }
}
