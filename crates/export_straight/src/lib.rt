// Output straight into a buffer, linked from another language to be measured beside `export_pump`: in each round every
// request writes a chunk on STDOUT, one behind the other. The calls stand alone in their library, since a compiler
// makes other code of them elsewhere.
#![tactic(auto)]

use connection::answer::Refusal;
use export_opening::{Rounds, mix_written, no_rounds, open_all, past, put_totals};
use fastcgi_queue::{Output, QUERY, WAITS, write_output};

// How many of n bytes were written: none where the call was refused.
fn said(wrote: Result<usize, Refusal>, n: usize) -> u64 {
    if wrote.is_ok() { n as u64 } else { 0 }
}

// One round: every request writes the chunk, in the order of their ids.
fn go_round(
    r: Rounds,
    waits: &[u16; WAITS],
    requests: u16,
    chunk: &[u8],
    out: &mut [u8],
) -> Rounds {
    let mut conn = r.conn;
    let mut content = r.content;
    let mut at = 0;
    for id in 1..=requests {
        let written = write_output(conn, waits, id, Output::Stdout, chunk, &mut out[at..]);
        conn = written.conn;
        content = content.wrapping_add(said(written.wrote, chunk.len()));
        at = past(at, written.wrote.unwrap_or(0), out.len());
    }
    Rounds {
        conn,
        content,
        written: r.written.wrapping_add(at as u64),
        sum: mix_written(r.sum, out, at),
    }
}

// The digest of what is written in so many rounds, on a fresh connection that is fed the opening first. The requests
// have the ids from 1 on. The totals are the bytes of content and the bytes written.
#[unsafe(no_mangle)]
pub extern "C" fn fastcgi_straight_digest(
    store: &mut [u8],
    opening: &[u8],
    requests: u16,
    chunk: &[u8],
    rounds: usize,
    out: &mut [u8],
    totals: &mut [u64],
) -> u64 {
    let mut gathered = [0u8; QUERY];
    let mut waits = [0u16; WAITS];
    let mut r = no_rounds(open_all(store, &mut gathered, &mut waits, opening));
    for _ in 0..rounds {
        r = go_round(r, &waits, requests, chunk, out);
    }
    put_totals(totals, r.content, r.written);
    r.sum
}
