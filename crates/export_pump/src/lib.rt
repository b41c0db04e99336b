// Output through the queue, linked from another language to be measured: in each round every request lets a chunk wait
// on STDOUT, and turns of the pump write all that waits. The calls stand alone in their library, since a compiler
// makes other code of them elsewhere.
#![tactic(auto)]

ghost use Rattle.std.specs.Prelude.{◌≤◌};

use connection::answer::Refusal;
use export_opening::{Rounds, mix_written, no_rounds, open_all, put_totals};
use fastcgi_queue::{Output, PUMPED, PumpResult, QUERY, QUEUE, WAITS, pump, queue_output};

// The most records of a turn: so many fit into 65,535 bytes.
const RECORDS: usize = 126;

// How many of n bytes wait: none where the call was refused.
fn waiting(res: Result<(), Refusal>, n: usize) -> u64 {
    if res.is_ok() { n as u64 } else { 0 }
}

// Every request lets the chunk wait, in the order of their ids.
fn say_all(
    r: Rounds,
    waits: &mut [u16; WAITS],
    marks: &mut [u8; QUEUE],
    queue: &mut [u8],
    requests: u16,
    chunk: &[u8],
) -> Rounds {
    let mut conn = r.conn;
    let mut content = r.content;
    for id in 1..=requests {
        let queueing = queue_output(conn, waits, marks, queue, id, Output::Stdout, chunk);
        conn = queueing.conn;
        content = content.wrapping_add(waiting(queueing.result, chunk.len()));
    }
    Rounds { conn, content, ..r }
}

// As many records as a turn may write into a buffer of so many bytes.
fn allowance_of(room: usize) -> usize {
    (room / PUMPED).min(RECORDS)
}

// The bytes that a turn wrote.
fn bytes_of(res: PumpResult) -> usize {
    match res {
        PumpResult::Open { bytes, .. } | PumpResult::Closed { bytes, .. } => bytes,
        PumpResult::Refused(_) => 0,
    }
}

// How many turns are left after one, of so many: none where it wrote fewer records than it may, since then nothing
// waits any more.
fn turns_left(res: PumpResult, allowance: usize, turns: usize) -> usize
    ensures { result ≤ turns }
{
    match res {
        PumpResult::Open { records, .. } if records == allowance => turns,
        _ => 0,
    }
}

// Turns of the pump until nothing waits. There are no more of them than bytes in the queue.
fn pump_all(
    r: Rounds,
    store: &mut [u8],
    waits: &mut [u16; WAITS],
    marks: &mut [u8; QUEUE],
    queue: &mut [u8],
    out: &mut [u8],
) -> Rounds {
    let allowance = allowance_of(out.len());
    let mut conn = r.conn;
    let mut written = r.written;
    let mut sum = r.sum;
    let mut turns = QUEUE;
    while 0 < turns {
        let pumped = pump(conn, store, waits, marks, queue, allowance, out);
        conn = pumped.conn;
        let n = bytes_of(pumped.result);
        written = written.wrapping_add(n as u64);
        sum = mix_written(sum, out, n);
        turns = turns_left(pumped.result, allowance, turns - 1);
    }
    Rounds {
        conn,
        written,
        sum,
        ..r
    }
}

// One round.
fn go_round(
    r: Rounds,
    store: &mut [u8],
    waits: &mut [u16; WAITS],
    marks: &mut [u8; QUEUE],
    queue: &mut [u8],
    requests: u16,
    chunk: &[u8],
    out: &mut [u8],
) -> Rounds {
    let said = say_all(r, waits, marks, queue, requests, chunk);
    pump_all(said, store, waits, marks, queue, out)
}

// The digest of what the pump writes in so many rounds, on a fresh connection that is fed the opening first. The
// requests have the ids from 1 on. The totals are the bytes of content and the bytes written.
#[unsafe(no_mangle)]
pub extern "C" fn fastcgi_pump_digest(
    store: &mut [u8],
    queue: &mut [u8],
    opening: &[u8],
    requests: u16,
    chunk: &[u8],
    rounds: usize,
    out: &mut [u8],
    totals: &mut [u64],
) -> u64 {
    let mut gathered = [0u8; QUERY];
    let mut waits = [0u16; WAITS];
    let mut marks = [0u8; QUEUE];
    let mut r = no_rounds(open_all(store, &mut gathered, &mut waits, opening));
    for _ in 0..rounds {
        r = go_round(
            r, store, &mut waits, &mut marks, queue, requests, chunk, out,
        );
    }
    put_totals(totals, r.content, r.written);
    r.sum
}
