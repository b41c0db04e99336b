// What an event does to what the station keeps.
ghost use Rattle.std.specs.Prelude.{◌≡◌};
ghost use Rattle.station_kept.specs.Part.{count_of, shown_of};

use crate::pool::{BLOCKS, CHAINS, POOL, append, body_of, drop_body, hold};
use codes::role_number;
use connection::event::{Event, Fault, Measure, Stream};
use connection::sizes::SLOTS;
use station_kept::{
    BLOCK_AT, COMING, DROPPED, FAILED, FAULTY, FIRST, HEADER, KEPT, PHASE, ROLE, TOO_LONG, find,
    keep, kept_of, note, note_fault, note_measure, some,
};

// Roles by their numbers.
const RESPONDER: usize = 1;

const AUTHORIZER: usize = 2;

const FILTER: usize = 3;

// How many bytes an event shows.
fn count_of(e: Event) -> usize
    ensures { result ≡ count_of e }
{
    match e {
        Event::Data { count, .. } => count,
        _ => 0,
    }
}

// The bytes of a piece before a place that an event shows.
#[tactic(auto, unfolding(station_kept::specs::Part::shown_of))]
fn shown<'a>(piece: &'a [u8], upto: usize, e: Event) -> &'a [u8]
    ensures { result.now ≡ shown_of piece.now upto e }
{
    let n = count_of(e);
    some(piece, upto.saturating_sub(n), n)
}

// The role whose last stream this is.
fn last_of(stream: Stream) -> usize {
    match stream {
        Stream::Stdin => RESPONDER,
        Stream::Data => FILTER,
    }
}

// Bytes of a body came.
fn take_in(
    kept: &mut [usize; KEPT],
    chains: &mut [usize; CHAINS],
    pool: &mut [u8; POOL],
    id: u16,
    stream: Stream,
    bytes: &[u8],
) {
    let i = find(kept, id);
    if i < SLOTS && kept_of(kept, PHASE, i) == COMING && matches!(stream, Stream::Stdin) {
        let body = append(pool, chains, body_of(kept, i), bytes);
        hold(kept, chains, i, body);
    }
}

// All input of the request of entry i is in, if it has that role: it is answered from here on.
fn all_in(kept: &mut [usize; KEPT], i: usize, role: usize) {
    if kept_of(kept, ROLE, i) != role {
        return;
    }
    match kept_of(kept, PHASE, i) {
        COMING => {
            let block = kept_of(kept, FIRST, i);
            keep(kept, BLOCK_AT, i, block);
            keep(kept, PHASE, i, HEADER);
        }
        DROPPED => keep(kept, PHASE, i, TOO_LONG),
        _ => {}
    }
}

// A stream ended.
fn end_stream(kept: &mut [usize; KEPT], id: u16, stream: Stream, measure: Measure) {
    let i = find(kept, id);
    if matches!(stream, Stream::Stdin) {
        note_measure(kept, i, measure);
    }
    all_in(kept, i, last_of(stream));
}

// A request broke a rule: it is told so, whatever it was to be told before.
fn break_off(kept: &mut [usize; KEPT], chains: &mut [usize; CHAINS], id: u16, fault: Fault) {
    let i = find(kept, id);
    drop_body(kept, chains, i, FAULTY);
    note_fault(kept, i, fault);
}

// What an event that shows these bytes does to what is kept.
fn take_event(
    kept: &mut [usize; KEPT],
    chains: &mut [usize; CHAINS],
    pool: &mut [u8; POOL],
    e: Event,
    bytes: &[u8],
) {
    match e {
        Event::Open { id, role, .. } => note(kept, id, usize::from(role_number(role)), BLOCKS),
        Event::Ready { id, .. } => {
            let i = find(kept, id);
            all_in(kept, i, AUTHORIZER);
        }
        Event::Data { id, stream, .. } => take_in(kept, chains, pool, id, stream, bytes),
        Event::End {
            id,
            stream,
            measure,
        } => end_stream(kept, id, stream, measure),
        Event::Fault { id, fault } => break_off(kept, chains, id, fault),
        Event::Abort { id } => {
            let i = find(kept, id);
            drop_body(kept, chains, i, FAILED);
        }
        _ => {}
    }
}

// What an event does to what is kept. Where it shows bytes, they are those of the piece before a place.
pub fn hear(
    kept: &mut [usize; KEPT],
    chains: &mut [usize; CHAINS],
    pool: &mut [u8; POOL],
    e: Event,
    piece: &[u8],
    upto: usize,
) {
    take_event(kept, chains, pool, e, shown(piece, upto, e));
}
