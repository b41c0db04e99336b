// The receiver linked from another language, with the reads: standard input is read in pieces into a lent buffer.
#![tactic(auto)]

ghost use Rattle.std.specs.Prelude.{◌≤◌, length};

use digest::mix;
use fastcgi::{Conn, QUERY, next_event, start};
use host::read_input;
use std::io::Stdin;

// Reads into a buffer, and answers how many bytes there are; 0 at the end of the input, and where it cannot be read.
fn read_some(input: Stdin, buffer: &mut [u8]) -> usize
    ensures { result ≤ length buffer.new }
{
    read_input(input, buffer).unwrap_or(0)
}

// The bytes of a buffer that are still to be gone through.
#[derive(Clone, Copy)]
struct Rest {
    from: usize,
    end: usize,
}

// The rest of a buffer; where nothing is left of it, the buffer filled again.
fn refilled(input: Stdin, from: usize, end: usize, buffer: &mut [u8]) -> Rest
    requires { end ≤ length buffer.old }
    ensures { (result.from ≤ result.end) × (result.end ≤ length buffer.new) }
{
    if from < end {
        return Rest { from, end };
    }
    Rest {
        from: 0,
        end: read_some(input, buffer),
    }
}

// Goes through standard input, a buffer at a time. A proved loop has to end, and nothing says that the input does: so
// it counts its turns, up to a number that no run comes to.
fn read_all(
    input: Stdin,
    c: Conn,
    store: &mut [u8],
    gathered: &mut [u8; QUERY],
    buffer: &mut [u8],
) -> u64 {
    let mut conn = c;
    let mut sum = 0;
    let mut from = 0;
    let mut end = 0;
    for _ in 0..u64::MAX {
        let rest = refilled(input, from, end, buffer);
        end = rest.end;
        let stepped = next_event(conn, store, gathered, &buffer[rest.from..end]);
        conn = stepped.conn;
        if stepped.used == 0 {
            return sum;
        }
        sum = mix(sum, stepped.result);
        from = rest.from + stepped.used;
    }
    sum
}

// The digest of what the calls tell over standard input, which is read a buffer at a time. (`Stdin`, the leave to read it,
// takes no bytes: the caller passes nothing for it.)
#[unsafe(no_mangle)]
pub extern "C" fn fastcgi_reading_digest(input: Stdin, store: &mut [u8], buffer: &mut [u8]) -> u64 {
    let mut gathered = [0u8; QUERY];
    let started = start(store, &mut gathered);
    read_all(input, started.conn, store, &mut gathered, buffer)
}
