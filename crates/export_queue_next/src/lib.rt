// The receiver with a queue linked from another language, to be measured: as `export_next`, with what waits lent to every
// call, while nothing waits or while something does. `next_event` stands alone in its library and has one caller, as it does
// there, since a compiler makes other code of it elsewhere.
#![tactic(auto)]

use export_opening::{Reads, feed_digest};
use fastcgi_queue::{Conn, QUERY, Stepped, WAITS, next_event};

// The call that is measured.
struct Events;

impl Reads for Events {
    fn read(
        conn: Conn,
        store: &mut [u8],
        gathered: &mut [u8; QUERY],
        waits: &mut [u16; WAITS],
        bytes: &[u8],
    ) -> Stepped {
        next_event(conn, store, gathered, waits, bytes)
    }
}

// The digest of what the calls tell over an input that a fresh connection is fed in pieces of `piece` bytes. When its
// first `opening` bytes are read, what waits is set by `numbers`.
#[unsafe(no_mangle)]
pub extern "C" fn fastcgi_queue_next_digest(
    store: &mut [u8],
    numbers: &[u16],
    input: &[u8],
    piece: usize,
    opening: usize,
) -> u64 {
    feed_digest::<Events>(store, numbers, input, piece, opening)
}
