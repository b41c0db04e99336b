// The receiver linked from another language, going from event to event: as `export`, with `next_event` in place of
// `step`. Its loop stands apart from that of `export`, which has the theorem that holds it to `step`.
#![tactic(auto)]

use digest::{mix, next_end};
use fastcgi::{Conn, QUERY, next_event, start};

// Goes through an input in pieces of so many bytes, to its end or to the first call that reads nothing.
fn feed_all(
    c: Conn,
    store: &mut [u8],
    gathered: &mut [u8; QUERY],
    input: &[u8],
    piece: usize,
) -> u64 {
    let mut conn = c;
    let mut sum = 0;
    let mut at = 0;
    let mut end = 0;
    while at < input.len() {
        end = next_end(at, end, piece, input.len());
        let stepped = next_event(conn, store, gathered, &input[at..end]);
        conn = stepped.conn;
        if stepped.used == 0 {
            return sum;
        }
        sum = mix(sum, stepped.result);
        at += stepped.used;
    }
    sum
}

// The digest of what the calls tell over an input that a fresh connection is fed in pieces of `piece` bytes.
#[unsafe(no_mangle)]
pub extern "C" fn fastcgi_next_digest(store: &mut [u8], input: &[u8], piece: usize) -> u64 {
    let mut gathered = [0u8; QUERY];
    let started = start(store, &mut gathered);
    feed_all(started.conn, store, &mut gathered, input, piece)
}
