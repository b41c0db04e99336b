// One number for all that a connection tells, by which two receivers can be compared and the cost of a call be
// measured.
#![tactic(auto)]

ghost use Rattle.std.specs.Prelude.{◌≡◌, ℕ, ◌≤◌, ◌<◌};
ghost use Rattle.connection.specs.Codes.{event_of, fault_number, fault_cause, close_number, close_cause};
ghost use Rattle.codes.specs.Place.{cause_of};
ghost use Rattle.conn_step.specs.Answer.{told_number, told_event};
ghost use Rattle.digest.specs.Digest.{measure_number, packed, place_of, weight, told_weight, mixed};
ghost use Rattle.digest.specs.Digest.{next_end};

use codes::{close_place, fault_place};
use connection::answer::Refusal;
use fastcgi::{
    Close, Event, Fault, Measure, close_number, fault_number, refusal_number, role_number,
    status_number, stream_type,
};

// A kind, an id, a small number and a length in one number.
fn pack(kind: u8, id: u16, what: u8, n: u16) -> u64
    ensures { (result ≡ packed kind id what n) × (result < 281474976710656) }
{
    u64::from(kind) + u64::from(id) * 256 + u64::from(what) * 16777216 + u64::from(n) * 4294967296
}

// The place, or 0 for none.
fn place_number(place: Option<u16>) -> u16
    ensures { (n : ℕ) → result ≡ place_of (cause_of n place) }
{
    place.unwrap_or(0)
}

fn fault_weight(id: u16, fault: Fault) -> u64
    ensures { (result ≡ packed 7 id (fault_number fault) (place_of (fault_cause fault))) × (result < 281474976710656) }
{
    pack(7, id, fault_number(fault), place_number(fault_place(fault)))
}

fn closed_weight(cause: Close) -> u64
    ensures { (result ≡ packed 10 0 (close_number cause) (place_of (close_cause cause))) × (result < 281474976710656) }
{
    pack(10, 0, close_number(cause), place_number(close_place(cause)))
}

// The number of a word at a stream's end.
fn measure_number(measure: Measure) -> u16
    ensures { result ≡ measure_number measure }
{
    match measure {
        Measure::Short => 0,
        Measure::Exact => 1,
        Measure::Over => 2,
        Measure::Unstated => 3,
    }
}

// The number of an event.
fn event_weight(e: Event) -> u64
    ensures { (result ≡ weight (event_of e)) × (result < 281474976710656) }
{
    match e {
        Event::Nothing => pack(0, 0, 0, 0),
        Event::Open { id, role, keep } => pack(1, id, role_number(role), u16::from(keep)),
        Event::Ready { id, length } => pack(2, id, 0, length),
        Event::Data { id, stream, count } => pack(
            3,
            id,
            stream_type(stream),
            (count % 65536) as u16,
        ),
        Event::End {
            id,
            stream,
            measure,
        } => pack(4, id, stream_type(stream), measure_number(measure)),
        Event::Abort { id } => pack(5, id, 0, 0),
        Event::Refuse { id, status } => pack(6, id, status_number(status), 0),
        Event::Fault { id, fault } => fault_weight(id, fault),
        Event::Query {
            max_conns,
            max_reqs,
            mpxs_conns,
        } => pack(
            8,
            u16::from(max_conns),
            u8::from(max_reqs),
            u16::from(mpxs_conns),
        ),
        Event::Unknown { kind } => pack(9, 0, kind, 0),
        Event::Closed { cause } => closed_weight(cause),
    }
}

fn told_weight(told: Result<Event, Refusal>) -> u64
    ensures { (result ≡ told_weight (told_number told) (told_event told)) × (result < 281474976710656) }
{
    match told {
        Ok(e) => event_weight(e),
        Err(why) => pack(11, 0, refusal_number(why), 0),
    }
}

// What was told, mixed into a digest.
pub fn mix(sum: u64, told: Result<Event, Refusal>) -> u64
    requires { sum < 72057594037927936 }
    ensures { (result ≡ mixed sum (told_number told) (told_event told)) × (result < 72057594037927936) }
{
    (sum * 33 + told_weight(told)) % 72057594037927936
}

// Where the piece ends that the byte at place `at` lies in, and after which `end` was the last.
#[tactic(auto, unfolding(crate::specs::Digest::next_end))]
pub fn next_end(at: usize, end: usize, piece: usize, n: usize) -> usize
    requires { (at ≤ n) × (end ≤ n) }
    ensures { (result ≡ next_end at end piece n) × (at ≤ result) × (result ≤ n) }
{
    if at < end {
        return end;
    }
    if piece < n - at {
        return at + piece;
    }
    n
}
