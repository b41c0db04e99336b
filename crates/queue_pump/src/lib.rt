// The pump: a turn writes what waits, a record for each slot that waits, going round.
#![tactic(auto)]

mod check;

ghost use Rattle.std.specs.Prelude.{◌≡◌, false, List, ℕ, ◌+◌, ◌*◌, ◌≤◌, ◌<◌, length};
ghost use Rattle.connection.specs.Sizes.{STORE};
ghost use Rattle.queue_slot.specs.Wait.{ServesLast, served};
ghost use Rattle.queue.specs.Numbers.{WAITS};
ghost use Rattle.queue.specs.Calls.{QUEUE, beside, lent, write_served, pump_slot, turned, pumped_with, pump};
ghost use Rattle.queue.specs.Answer.{pumped_by};
ghost use Rattle.wait_numbers.specs.Slot.{numbers_in};
ghost use Rattle.queue_pump.specs.Able.{Able};
ghost use Rattle.queue_pump.specs.Coming.{wrote};
ghost use Rattle.queue_pump.specs.Serving.{only_end, Servable, Filled, Wrote, Serves};
ghost use Rattle.queue_pump.specs.Serving.{serve_end, serve_longest};
ghost use Rattle.queue_pump.specs.Going.{Going};
ghost use Rattle.queue_pump.specs.GoingLaws.{Goes};

use crate::check::{is_fit, pump_check};
use call_finish::release;
use codes::output_type;
use conn_frame::closed;
use connection::answer::Output;
use connection::request::Request;
use connection::sizes::AREA;
use connection::state::Conn;
use queue::answer::{PumpResult, Pumped};
use queue::sizes::{QUEUE, ROOM, WAITS};
use queue_slot::{Ends, Numbers};
use record::body::end_body;
use record::names;
use record_writer::write_record;
use slot_table::request_at;
use wait_numbers::{first_slot, keep_waits, next_waiting, numbers_at, put_next, slot_after};
use wait_slot::{forget_slot, put_front, run_at, stream_at, take_run};
use wire::clear;

// Numbers and marks have their sizes, as their types say. Nothing is done: of a reference to an array that is known
// only where it is lent as a slice.
fn sized<'a>(waits: &'a [u16], marks: &'a [u8])
    requires { (length waits.now ≡ WAITS) × (length marks.now ≡ QUEUE) }
    ensures { (length waits.now ≡ WAITS) × (length marks.now ≡ QUEUE) }
{}

// The end of a stream that waits at the front of slot i is written; these ends are left there.
fn serve_end(
    waits: &mut [u16; WAITS],
    i: usize,
    left: Ends,
    output: Output,
    id: u16,
    out: &mut [u8],
    at: usize,
) -> usize
    requires { Servable i out.old at }
    ensures { (marks queue : List ℕ)
        → Serves (serve_end output left) i id (λ m. beside m waits.old marks queue)
        (λ m. beside m waits.new marks queue) out.old out.new at result }
{
    put_front(waits, i, left);
    write_record(out, at, output_type(output), id, b"")
}

// The longest run of bytes of one stream from the oldest on is written and taken out.
fn serve_data(
    waits: &mut [u16; WAITS],
    marks: &mut [u8; QUEUE],
    queue: &mut [u8],
    i: usize,
    count: usize,
    id: u16,
    out: &mut [u8],
    at: usize,
) -> usize
    requires { Servable i out.old at × Filled waits.old marks.old queue.old i count × (0 < count) }
    ensures { Serves serve_longest i id
        (λ m. beside m waits.old marks.old queue.old)
        (λ m. beside m waits.new marks.new queue.new)
        out.old out.new at result }
{
    let run = run_at(marks, i, count);
    let kind = output_type(stream_at(marks, i));
    let start = i * ROOM;
    let next = write_record(out, at, kind, id, &queue[start..start + run]);
    take_run(waits, marks, queue, i, run);
    next
}

// END alone waits: no end, no data.
#[tactic(auto, unfolding(crate::specs::Serving::only_end))]
fn only_end(front: Ends, count: usize, last: bool) -> bool
    ensures { result ≡ only_end front count last }
{
    count == 0 && matches!(front, Ends::None) && last
}

// What waits first in slot i by these numbers, which is not END, is written and taken out.
fn serve_front(
    waits: &mut [u16; WAITS],
    marks: &mut [u8; QUEUE],
    queue: &mut [u8],
    i: usize,
    n: Numbers,
    id: u16,
    out: &mut [u8],
    at: usize,
) -> usize
    requires { Servable i out.old at × Filled waits.old marks.old queue.old i n.count
        × (n ≡ numbers_in waits.old i) × (only_end n.front n.count n.last ≡ false) }
    ensures { Serves served i id
        (λ m. beside m waits.old marks.old queue.old)
        (λ m. beside m waits.new marks.new queue.new)
        out.old out.new at result }
{
    match n.front {
        Ends::Out => serve_end(waits, i, Ends::None, Output::Stdout, id, out, at),
        Ends::Err => serve_end(waits, i, Ends::None, Output::Stderr, id, out, at),
        Ends::OutErr => serve_end(waits, i, Ends::Err, Output::Stdout, id, out, at),
        Ends::ErrOut => serve_end(waits, i, Ends::Out, Output::Stderr, id, out, at),
        Ends::None => {
            if n.count == 0 {
                return at;
            }
            serve_data(waits, marks, queue, i, n.count, id, out, at)
        }
    }
}

// What serving a slot comes to: the connection, and the place after the record.
#[derive(Clone, Copy)]
struct One {
    conn: Conn,
    next: usize,
}

// END is written: slot, area and id are given back; without KEEP_CONN the connection closes.
fn serve_last(
    c: Conn,
    store: &mut [u8],
    waits: &mut [u16; WAITS],
    i: usize,
    r: Request,
    status: u32,
    out: &mut [u8],
    at: usize,
) -> One
    requires { Servable i out.old at × (length store.old ≡ STORE) }
    ensures { (gathered marks queue : List ℕ)
        → Wrote (write_served (lent c gathered store.old waits.old marks queue) i r
        (ServesLast status)) (lent result.conn gathered store.new waits.new marks queue)
        out.old out.new at result.next }
{
    let body = end_body(status, names::REQUEST_COMPLETE);
    let next = write_record(out, at, names::END_REQUEST, r.id, &body);
    if r.state.keep {
        let start = i * AREA;
        clear(&mut store[start..start + AREA]);
        forget_slot(waits, i);
        return One {
            conn: release(c, i),
            next,
        };
    }
    clear(store);
    keep_waits(waits, true, false);
    One {
        conn: closed(),
        next,
    }
}

// One record of slot i. The next turn begins with the slot after it.
fn serve_slot(
    c: Conn,
    store: &mut [u8],
    waits: &mut [u16; WAITS],
    marks: &mut [u8; QUEUE],
    queue: &mut [u8],
    i: usize,
    out: &mut [u8],
    at: usize,
) -> One
    requires { Servable i out.old at × Able store.old waits.old marks.old queue.old }
    ensures { (gathered : List ℕ)
        → Wrote (pump_slot (lent c gathered store.old waits.old marks.old
        queue.old) i)
        (lent result.conn gathered store.new waits.new marks.new queue.new)
        out.old out.new at result.next }
{
    let r = request_at(c.table, i);
    put_next(waits, slot_after(i) as u16);
    let n = numbers_at(waits, i);
    if only_end(n.front, n.count, n.last) {
        return serve_last(c, store, waits, i, r, n.status, out, at);
    }
    let next = serve_front(waits, marks, queue, i, n, r.id, out, at);
    One { conn: c, next }
}

// A turn on its way: the connection, the records and bytes written, and how many records are still allowed, which is
// none once nothing waits.
#[derive(Clone, Copy)]
struct Turning {
    conn: Conn,
    records: usize,
    bytes: usize,
    left: usize,
}

// One record more, of the first slot that waits, going round from the one after the last served.
fn pump_next(
    t: Turning,
    store: &mut [u8],
    waits: &mut [u16; WAITS],
    marks: &mut [u8; QUEUE],
    queue: &mut [u8],
    out: &mut [u8],
) -> Turning
    requires { Going t store.old waits.old marks.old queue.old out.old × (0 < t.left) }
    ensures { Goes t store.old waits.old marks.old queue.old
        out.old result store.new waits.new marks.new queue.new
        out.new }
{
    match next_waiting(waits, first_slot(waits)) {
        None => Turning { left: 0, ..t },
        Some(i) => {
            let one = serve_slot(t.conn, store, waits, marks, queue, i, out, t.bytes);
            Turning {
                conn: one.conn,
                records: t.records + 1,
                bytes: one.next,
                left: t.left - 1,
            }
        }
    }
}

// What a turn answers at its end.
fn answer(t: Turning) -> Pumped
    ensures { (gathered store waits marks queue out : List ℕ)
        → pumped_by result gathered store waits marks queue out
        ≡ wrote t.records t.bytes (lent t.conn gathered store waits marks queue) out }
{
    if t.conn.open {
        return Pumped {
            result: PumpResult::Open {
                records: t.records,
                bytes: t.bytes,
            },
            conn: t.conn,
        };
    }
    Pumped {
        result: PumpResult::Closed {
            records: t.records,
            bytes: t.bytes,
        },
        conn: t.conn,
    }
}

// A turn: at most so many records, one after another in the buffer.
fn turn(
    c: Conn,
    store: &mut [u8],
    waits: &mut [u16; WAITS],
    marks: &mut [u8; QUEUE],
    queue: &mut [u8],
    allowance: usize,
    out: &mut [u8],
) -> Pumped
    requires { Able store.old waits.old marks.old queue.old × (520 * allowance ≤ length out.old) }
    ensures { (gathered : List ℕ)
        → pumped_by result gathered store.new waits.new marks.new queue.new
        out.new
        ≡ pumped_with (turned allowance (lent c gathered store.old waits.old marks.old
        queue.old)) out.old }
{
    let mut t = Turning {
        conn: c,
        records: 0,
        bytes: 0,
        left: allowance,
    };
    while 0 < t.left {
        t = pump_next(t, store, waits, marks, queue, out);
    }
    answer(t)
}

// A turn of the pump: what waits is written, at most so many records, a record for each slot that waits, going round
// from the one after the last served. It stops early only when nothing waits. Where END of a request without KEEP_CONN
// is written the connection closes, and what waits is dropped. Refusals 2, 9, 1, and 6 for a buffer under 520 bytes a
// record.
pub fn pump(
    c: Conn,
    store: &mut [u8],
    waits: &mut [u16; WAITS],
    marks: &mut [u8; QUEUE],
    queue: &mut [u8],
    allowance: usize,
    out: &mut [u8],
) -> Pumped
    ensures { (gathered : List ℕ)
        → pumped_by result gathered store.new waits.new marks.new queue.new
        out.new
        ≡ pump (lent c gathered store.old waits.old marks.old queue.old)
        allowance out.old }
{
    sized(waits, marks);
    match pump_check(
        store.len(),
        queue.len(),
        is_fit(c, waits),
        c.open,
        out.len(),
        allowance,
    ) {
        Err(why) => Pumped {
            result: PumpResult::Refused(why),
            conn: c,
        },
        Ok(()) => turn(c, store, waits, marks, queue, allowance, out),
    }
}
