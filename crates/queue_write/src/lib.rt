// Calls by which what a request says comes to wait in the queue: data, the end of a stream, the end of the request.
#![tactic(auto)]

ghost use Rattle.std.specs.Prelude.{◌≡◌, List, ℕ, ◌+◌, length, Ok, Err};
ghost use Rattle.wire.specs.Test.{◌≤?◌};
ghost use Rattle.connection.specs.Calls.{puts_request};
ghost use Rattle.queue_slot.specs.Wait.{ROOM};
ghost use Rattle.queue_slot.specs.Finishing.{spent_life, spent_by};
ghost use Rattle.queue.specs.Calls.{lent, skipping, queue_say, queue_end, queue_finish};
ghost use Rattle.queue.specs.Answer.{queued_by};
ghost use Rattle.queue_write.specs.Writable.{Writable};

use call_finish::{owes_err, owes_out, redirect};
use connection::answer::{Output, Refusal};
use connection::request::{Life, Request, RequestState};
use connection::state::{Conn, Frame};
use queue::answer::Queueing;
use queue::sizes::{QUEUE, ROOM, WAITS};
use queue_admit::{admit_waits, stream_check};
use request_output::{ended_on, said_on};
use slot_table::{put_request, request_at};
use wait_numbers::{is_leaving, numbers_at};
use wait_slot::{wait_data, wait_end, wait_finish};

// A refused call: nothing comes to wait, nothing changes.
fn refused(c: Conn, why: Refusal) -> Queueing
    ensures { result ≡ record { result = Err why; conn = c } }
{
    Queueing {
        result: Err(why),
        conn: c,
    }
}

// The connection with the request of slot i as the call left it.
fn put_back(c: Conn, i: usize, request: Request) -> Queueing
    ensures { result ≡ record { result = (Ok tt); conn = puts_request c i request } }
{
    Queueing {
        result: Ok(()),
        conn: Conn {
            table: put_request(c.table, i, request),
            ..c
        },
    }
}

// There is room for n bytes more where `count` wait.
fn has_room(count: usize, n: usize) -> bool
    ensures { (bytes : List ℕ) → length bytes ≡ n → result ≡ (count + length bytes ≤? ROOM) }
{
    n <= ROOM && count <= ROOM - n
}

// The slot of the request that a call writes a stream of, and the request: rows 9, 1, 3, 4 and 5.
fn writable(
    c: Conn,
    waits: &[u16; WAITS],
    id: u16,
    output: Output,
) -> Result<(usize, Request), Refusal>
    ensures { Writable c waits.now id output result }
{
    let slot = admit_waits(c, waits, id)?;
    let request = request_at(c.table, slot);
    stream_check(is_leaving(waits, slot), request, output)?;
    Ok((slot, request))
}

// Data comes to wait, to be written on the request's STDOUT or STDERR. Refusals 2, 9, 1, 3, 4, 5, and 10 where its area
// of the queue has no room for all of it.
pub fn queue_output(
    c: Conn,
    waits: &mut [u16; WAITS],
    marks: &mut [u8; QUEUE],
    queue: &mut [u8],
    id: u16,
    output: Output,
    bytes: &[u8],
) -> Queueing
    ensures { (gathered store : List ℕ)
        → queued_by result gathered store waits.new marks.new queue.new
        ≡ queue_say (lent c gathered store waits.old marks.old queue.old) id output
        bytes.now }
{
    if queue.len() != QUEUE {
        return refused(c, Refusal::StoreSize);
    }
    match writable(c, waits, id, output) {
        Err(why) => refused(c, why),
        Ok((slot, request)) => {
            if !has_room(numbers_at(waits, slot).count, bytes.len()) {
                return refused(c, Refusal::Waiting);
            }
            wait_data(waits, marks, queue, slot, output, bytes);
            put_back(c, slot, said_on(request, output, bytes.len()))
        }
    }
}

// The end of the request's STDOUT or STDERR comes to wait; the stream is ended at once. Refusals 9, 1, 3, 4, 5.
pub fn queue_end(
    c: Conn,
    waits: &mut [u16; WAITS],
    marks: &mut [u8; QUEUE],
    id: u16,
    output: Output,
) -> Queueing
    ensures { (gathered store queue : List ℕ)
        → queued_by result gathered store waits.new marks.new queue
        ≡ queue_end (lent c gathered store waits.old marks.old queue) id output }
{
    match writable(c, waits, id, output) {
        Err(why) => refused(c, why),
        Ok((slot, request)) => {
            wait_end(waits, marks, slot, output);
            put_back(c, slot, ended_on(request, output))
        }
    }
}

// Spent as by an abort; a fault stays.
fn spent_life(life: Life) -> Life
    ensures { result ≡ spent_life life }
{
    match life {
        Life::Live | Life::Aborted => Life::Aborted,
        Life::Faulted => Life::Faulted,
    }
}

// The request after a queued finish: spent; STDOUT is ended, and STDERR if it was used, since their ends wait.
fn spent_by(r: Request) -> Request
    ensures { result ≡ spent_by r }
{
    Request {
        state: RequestState {
            life: spent_life(r.state.life),
            out_ended: true,
            err_ended: r.state.err_used | r.state.err_ended,
            ..r.state
        },
        ..r
    }
}

// The rest of a half-read record of slot i is skipped.
fn skip_rest(c: Conn, i: usize) -> Conn
    ensures { result ≡ skipping c i }
{
    Conn {
        frame: Frame {
            target: redirect(i, c.frame.target),
            ..c.frame
        },
        ..c
    }
}

// The request ends: what it still owes and its END come to wait. It is spent at once, and the rest of a half-read
// record of it is skipped; its slot and its id stay taken until END is written. Refusals 9, 1, 3, 5.
pub fn queue_finish(
    c: Conn,
    waits: &mut [u16; WAITS],
    marks: &mut [u8; QUEUE],
    id: u16,
    app_status: u32,
) -> Queueing
    ensures { (gathered store queue : List ℕ)
        → queued_by result gathered store waits.new marks.new queue
        ≡ queue_finish (lent c gathered store waits.old marks.old queue) id app_status }
{
    match admit_waits(c, waits, id) {
        Err(why) => refused(c, why),
        Ok(slot) => {
            if is_leaving(waits, slot) {
                return refused(c, Refusal::Ended);
            }
            let request = request_at(c.table, slot);
            wait_finish(
                waits,
                marks,
                slot,
                owes_out(request.state),
                owes_err(request.state),
                app_status,
            );
            put_back(skip_rest(c, slot), slot, spent_by(request))
        }
    }
}
