// What the libraries share that measure the receiver with a queue: an input that is fed to it, a connection whose
// requests are open, and digests of what was told and of the bytes that were written.
#![tactic(auto)]

ghost use Rattle.std.specs.Prelude.{◌≤◌, ◌<◌, length};

use digest::{mix, next_end};
use fastcgi_queue::{Conn, QUERY, Stepped, WAITS, next_event, start};

// The place n bytes past another, at most at the end.
pub fn past(from: usize, n: usize, end: usize) -> usize
    ensures { (result ≤ end) × (from < end → 0 < n → from < result) }
{
    from.saturating_add(n).min(end)
}

// A call that reads what came in. It is given as a type, so that a library of its own has just that one call: `step`
// and `next_event` are measured apart, since a compiler makes other code of a call that stands beside others. No call
// uses more than it is lent.
pub trait Reads {
    fn read(
        conn: Conn,
        store: &mut [u8],
        gathered: &mut [u8; QUERY],
        waits: &mut [u16; WAITS],
        bytes: &[u8],
    ) -> Stepped
        ensures { result.used ≤ length bytes.now };
}

// How far an input is fed: the connection, the bytes used, where their piece ends, and the digest of what was told.
#[derive(Clone, Copy)]
struct Feed {
    conn: Conn,
    used: usize,
    edge: usize,
    sum: u64,
}

// Goes on through an input in pieces of so many bytes, up to a place or to the first call that reads nothing.
fn feed_to<R: Reads>(
    feed: Feed,
    store: &mut [u8],
    gathered: &mut [u8; QUERY],
    waits: &mut [u16; WAITS],
    input: &[u8],
    piece: usize,
    to: usize,
) -> Feed
    requires { (feed.used ≤ length input.now) × (feed.edge ≤ length input.now)
        × (feed.sum < 72057594037927936) }
    ensures { (result.used ≤ length input.now) × (result.edge ≤ length input.now)
        × (result.sum < 72057594037927936) }
{
    let mut conn = feed.conn;
    let mut used = feed.used;
    let mut edge = feed.edge;
    let mut sum = feed.sum;
    let to = to.min(input.len());
    while used < to {
        edge = next_end(used, edge, piece, input.len());
        let read = R::read(conn, store, gathered, waits, &input[used..edge]);
        conn = read.conn;
        if read.used == 0 {
            return Feed {
                conn,
                used,
                edge,
                sum,
            };
        }
        sum = mix(sum, read.result);
        used += read.used;
    }
    Feed {
        conn,
        used,
        edge,
        sum,
    }
}

// What waits is what these numbers say; those that are not there are 0.
fn let_wait(waits: &mut [u16; WAITS], numbers: &[u16]) {
    for i in 0..WAITS {
        waits[i] = numbers.get(i).copied().unwrap_or(0);
    }
}

// The digest of what the calls tell over an input that a fresh connection is fed in pieces of `piece` bytes. When its
// first `opening` bytes are read, what waits is set by `numbers`.
pub fn feed_digest<R: Reads>(
    store: &mut [u8],
    numbers: &[u16],
    input: &[u8],
    piece: usize,
    opening: usize,
) -> u64 {
    let mut gathered = [0u8; QUERY];
    let mut waits = [0u16; WAITS];
    let started = start(store, &mut gathered, &mut waits);
    let mut feed = Feed {
        conn: started.conn,
        used: 0,
        edge: 0,
        sum: 0,
    };
    for part in 0..2 {
        let to = if part == 0 { opening } else { input.len() };
        feed = feed_to::<R>(feed, store, &mut gathered, &mut waits, input, piece, to);
        let_wait(&mut waits, numbers);
    }
    feed.sum
}

// A fresh connection that was fed an opening, to its end or to the first call that reads nothing.
pub fn open_all(
    store: &mut [u8],
    gathered: &mut [u8; QUERY],
    waits: &mut [u16; WAITS],
    opening: &[u8],
) -> Conn {
    let mut conn = start(store, gathered, waits).conn;
    let mut at = 0;
    while at < opening.len() {
        let read = next_event(conn, store, gathered, waits, &opening[at..]);
        conn = read.conn;
        if read.used == 0 {
            return conn;
        }
        at = past(at, read.used, opening.len());
    }
    conn
}

// The byte at a place, 0 past the end.
fn byte_at(bytes: &[u8], i: usize) -> u8 {
    bytes.get(i).copied().unwrap_or(0)
}

// A number of six bytes: how many were written, and four of them.
fn weight(n: u16, a: u8, b: u8, c: u8, d: u8) -> u64
    ensures { result < 281474976710656 }
{
    u64::from(n) * 4294967296
        + u64::from(a) * 16777216
        + u64::from(b) * 65536
        + u64::from(c) * 256
        + u64::from(d)
}

// What was said and written in rounds so far, and the connection: bytes of content, bytes of records, and a digest of
// these.
#[derive(Clone, Copy)]
pub struct Rounds {
    pub conn: Conn,
    pub content: u64,
    pub written: u64,
    pub sum: u64,
}

// Before the first round.
pub fn no_rounds(conn: Conn) -> Rounds {
    Rounds {
        conn,
        content: 0,
        written: 0,
        sum: 0,
    }
}

// Mixed into a digest: how many bytes were written, and four of them.
pub fn mix_written(sum: u64, out: &[u8], n: usize) -> u64 {
    let e = n / 8;
    let w = weight(
        (n % 65536) as u16,
        byte_at(out, e),
        byte_at(out, e * 3),
        byte_at(out, e * 5),
        byte_at(out, e * 7),
    );
    sum % 72057594037927936 * 33 + w
}

// Two totals, in that order, where there is room for both.
pub fn put_totals(totals: &mut [u64], content: u64, written: u64) {
    if 2 <= totals.len() {
        totals[0] = content;
        totals[1] = written;
    }
}
