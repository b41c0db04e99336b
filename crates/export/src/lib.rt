// The receiver linked from another language: a whole input is fed to a fresh connection, piece by piece, and all that
// its steps tell comes back as one number.
#![tactic(auto)]

ghost use Rattle.std.specs.Prelude.{◌≡◌};
ghost use Rattle.connection.specs.Step.{state_of};
ghost use Rattle.export.specs.Fed.{fed_by, fed_all, digest_by, digest};

use digest::{mix, next_end};
use fastcgi::{Conn, QUERY, start, step};

// A connection, and the digest of what its steps told.
#[derive(Clone, Copy)]
struct Fed {
    conn: Conn,
    sum: u64,
}

// Steps through an input in pieces of so many bytes, to its end or to the first step that reads nothing.
fn feed_all(
    c: Conn,
    store: &mut [u8],
    gathered: &mut [u8; QUERY],
    input: &[u8],
    piece: usize,
) -> Fed
    ensures { fed_by result gathered.new store.new
        ≡ fed_all (state_of c gathered.old) store.old input.now piece }
{
    let mut conn = c;
    let mut sum = 0;
    let mut at = 0;
    let mut end = 0;
    while at < input.len() {
        end = next_end(at, end, piece, input.len());
        let stepped = step(conn, store, gathered, &input[at..end]);
        conn = stepped.conn;
        if stepped.used == 0 {
            return Fed { conn, sum };
        }
        sum = mix(sum, stepped.result);
        at += stepped.used;
    }
    Fed { conn, sum }
}

// The digest of an input that a fresh connection is fed in pieces of `piece` bytes.
#[unsafe(no_mangle)]
pub extern "C" fn fastcgi_digest(store: &mut [u8], input: &[u8], piece: usize) -> u64
    ensures { digest_by result store.new ≡ digest store.old input.now piece }
{
    let mut gathered = [0u8; QUERY];
    let started = start(store, &mut gathered);
    feed_all(started.conn, store, &mut gathered, input, piece).sum
}
