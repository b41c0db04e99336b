// Lifts one request out of a capture, which comes in on standard input. Its records go to standard output, and what
// the capture is goes to standard error, in one line. The request's id is the first argument.
#![tactic(auto)]

ghost use Rattle.std.specs.Prelude.{◌≤◌};

use codes::{close_number, refusal_number};
use connection::answer::Refusal;
use connection::event::Close;
use connection::sizes::{QUERY, STORE};
use host::{
    argument, argument_count, buffer, decimal, large_buffer, read_pieces, write_error, write_first,
};
use lifting::calls::{lift, lift_verdict, start_lift};
use lifting::{Lift, Moved, Verdict};
use std::io;

// The id in decimal, if the text is a number up to 65535.
fn id_of(text: &[u8]) -> Option<u16> {
    let mut id: u16 = 0;
    for b in text {
        let digit = match *b {
            b'0'..=b'9' => *b - b'0',
            _ => return None,
        };
        id = id.checked_mul(10)?.checked_add(u16::from(digit))?;
    }
    Some(id)
}

// The id that the program is asked for.
fn asked_id(rt: &HostRuntime) -> Option<u16> {
    let mut word = buffer();
    let n = argument(rt, 1, &mut word);
    if argument_count(rt) != 2 || n == 0 {
        return None;
    }
    id_of(&word[..n])
}

// What a call used and wrote. (No call is refused here: a start that is refused ends the program.)
fn moves_of(res: Result<Moved, Refusal>) -> Moved {
    res.unwrap_or(Moved {
        used: 0,
        written: 0,
    })
}

fn moves_nothing(m: Moved) -> bool {
    m.used == 0 && m.written == 0
}

// The place so many bytes on, not past the end.
fn place_on(place: usize, n: usize, end: usize) -> usize
    ensures { result ≤ end }
{
    place.saturating_add(n).min(end)
}

// Writes out what the buffer holds, and answers whether the copy is still whole: after a write that fails there are no
// more.
fn flush(rt: &HostRuntime, out: &[u8], at: usize, whole: bool) -> bool {
    whole && write_first(rt, out, at).is_ok()
}

// A call that moves nothing may have had no room, so the buffer is written out.
fn flush_after(rt: &HostRuntime, m: Moved, out: &[u8], at: usize, whole: bool) -> bool {
    if moves_nothing(m) {
        flush(rt, out, at, whole)
    } else {
        whole
    }
}

// Where the next call writes.
fn next_place(m: Moved, at: usize, room: usize) -> usize
    ensures { result ≤ room }
{
    if moves_nothing(m) {
        0
    } else {
        place_on(at, m.written, room)
    }
}

// A lift, and whether its copy could be written so far.
#[derive(Clone, Copy)]
struct Run {
    lift: Lift,
    whole: bool,
}

// Goes through a piece, until a call that has all the room moves nothing. (The turns are counted because nothing here
// says that the calls come to an end; no run uses that many.)
fn lift_piece(
    rt: &HostRuntime,
    r: Run,
    store: &mut [u8],
    gathered: &mut [u8; QUERY],
    piece: &[u8],
    out: &mut [u8],
) -> Run {
    let mut state = r.lift;
    let mut whole = r.whole;
    let mut from = 0;
    let mut at = 0;
    for _ in 0..u64::MAX {
        let lifted = lift(state, store, gathered, &piece[from..], &mut out[at..]);
        state = lifted.lift;
        let moved = moves_of(lifted.result);
        if at == 0 && moves_nothing(moved) {
            return Run { lift: state, whole };
        }
        whole = flush_after(rt, moved, out, at, whole);
        at = next_place(moved, at, out.len());
        from = place_on(from, moved.used, piece.len());
    }
    Run { lift: state, whole }
}

// A number in decimal.
fn tell_number(rt: &HostRuntime, n: u64) -> io::Result<()> {
    let mut digits = [0u8; 20];
    let k = decimal(n, &mut digits);
    write_error(rt, &digits[..k])
}

fn tell_close(rt: &HostRuntime, cause: Close, at: u64) -> io::Result<()> {
    write_error(rt, b"closed ")?;
    tell_number(rt, u64::from(close_number(cause)))?;
    write_error(rt, b" at ")?;
    tell_number(rt, at)?;
    write_error(rt, b"\n")
}

// What the capture is, in one line.
fn tell(rt: &HostRuntime, v: Verdict) -> io::Result<()> {
    match v {
        Verdict::Clean => write_error(rt, b"clean\n"),
        Verdict::Cut => write_error(rt, b"cut\n"),
        Verdict::Closed { cause, at } => tell_close(rt, cause, at),
    }
}

// Why there is no lift: id 0 is refused by 3.
fn tell_refused(rt: &HostRuntime, why: Refusal) -> io::Result<()> {
    write_error(rt, b"refused ")?;
    tell_number(rt, u64::from(refusal_number(why)))?;
    write_error(rt, b"\n")
}

fn main(rt: HostRuntime) -> io::Result<()> {
    let Some(id) = asked_id(&rt) else {
        return write_error(
            &rt,
            b"usage: lift ID < CAPTURE > COPY, the id from 1 to 65535\n",
        );
    };
    let mut store = [0u8; STORE];
    let mut gathered = [0u8; QUERY];
    let mut out = large_buffer();
    let started = start_lift(&mut store, &mut gathered, id);
    if let Err(why) = started.result {
        return tell_refused(&rt, why);
    }
    let mut run = Run {
        lift: started.lift,
        whole: true,
    };
    // At the end of the input or after a close there is no more.
    read_pieces(&rt, |piece| {
        run = lift_piece(&rt, run, &mut store, &mut gathered, piece, &mut out);
        Ok(run.lift.conn.open)
    })?;
    if !run.whole {
        write_error(&rt, b"lift: the copy could not be written\n")?;
    }
    tell(&rt, lift_verdict(run.lift))
}
