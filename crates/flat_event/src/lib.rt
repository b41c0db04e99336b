// An event as numbers, for callers in other languages: made of an event, tested, and read back.
#![tactic(auto)]

pub mod kinds;

ghost use Rattle.std.specs.Prelude.{◌≡◌, ℕ, ◌≤◌};
ghost use Rattle.connection.specs.Codes.{fault_number, fault_cause, close_number, close_cause};
ghost use Rattle.codes.specs.Place.{cause_of};
ghost use Rattle.flat_event.specs.Kinds.{FAULT, CLOSED};
ghost use Rattle.flat_event.specs.Flat.{number_if, measure_number, query_number, place_of, told, flat_event};
ghost use Rattle.flat_event.specs.Flat.{stream_of, measure_of, status_of, fault_of, close_of, open_of, query_of};
ghost use Rattle.flat_event.specs.Flat.{read_event, known_event};

use codes::{
    close_number, close_place, fault_number, fault_place, role_number, status_number, stream_type,
};
use connection::event::{Close, Event, Fault, Measure, Status, Stream};
use connection::request::Role;
use flat_state::role_of;
use record::names;

// The event as C holds it, without a gap between the fields. A usize is C's size_t; where that has eight bytes the
// whole has 16, and none is unused. What an event does not tell is 0.
#[repr(C)]
#[derive(Clone, Copy, Debug, PartialEq, Eq)]
pub struct FlatEvent {
    // The length of the list that is ready, or how many bytes are shown.
    pub count: usize,
    // The request that the event is about, 0 for none.
    pub id: u16,
    // Where the list of fault 25 or the query of close 14 is malformed.
    pub place: u16,
    // 0 nothing, 1 open, 2 ready, 3 data, 4 end, 5 abort, 6 refuse, 7 fault, 8 query, 9 unknown, 10 closed.
    pub kind: u8,
    // The record type of the stream that is shown or ends: 5 STDIN, 8 DATA.
    pub stream: u8,
    // What the kind has a number for. Open: the role. End: 0 unstated, 1 short, 2 exact, 3 over. Refuse: the status.
    // Fault, closed: the cause. Unknown: the record's type. Query: 1 for FCGI_MAX_CONNS, 2 for FCGI_MAX_REQS and 4 for
    // FCGI_MPXS_CONNS, added up.
    pub number: u8,
    // Open: 1 where the connection outlives the request.
    pub keep: u8,
}

// No event, and what an event does not tell.
const NONE: FlatEvent = FlatEvent {
    count: 0,
    id: 0,
    place: 0,
    kind: kinds::NOTHING,
    stream: 0,
    number: 0,
    keep: 0,
};

// The number where it is so, and 0 where not.
fn number_if(b: bool, n: u8) -> u8
    ensures { (result ≡ number_if b n) × (result ≤ n) }
{
    if b { n } else { 0 }
}

fn measure_number(measure: Measure) -> u8
    ensures { result ≡ measure_number measure }
{
    match measure {
        Measure::Unstated => 0,
        Measure::Short => 1,
        Measure::Exact => 2,
        Measure::Over => 3,
    }
}

fn query_number(conns: bool, reqs: bool, mpxs: bool) -> u8
    ensures { result ≡ query_number conns reqs mpxs }
{
    number_if(conns, 1) + number_if(reqs, 2) + number_if(mpxs, 4)
}

// The place, or 0 for none.
fn place_number(place: Option<u16>) -> u16
    ensures { (n : ℕ) → result ≡ place_of (cause_of n place) }
{
    place.unwrap_or(0)
}

fn told_fault(id: u16, fault: Fault) -> FlatEvent
    ensures { result ≡ told FAULT id 0 (fault_number fault) 0 0 (place_of (fault_cause fault)) }
{
    let place = place_number(fault_place(fault));
    FlatEvent {
        kind: kinds::FAULT,
        id,
        number: fault_number(fault),
        place,
        ..NONE
    }
}

fn told_close(cause: Close) -> FlatEvent
    ensures { result ≡ told CLOSED 0 0 (close_number cause) 0 0 (place_of (close_cause cause)) }
{
    let at = place_number(close_place(cause));
    FlatEvent {
        kind: kinds::CLOSED,
        number: close_number(cause),
        place: at,
        ..NONE
    }
}

// The event as numbers.
pub fn to_flat_event(e: Event) -> FlatEvent
    ensures { result ≡ flat_event e }
{
    match e {
        Event::Nothing => NONE,
        Event::Open { id, role, keep } => FlatEvent {
            kind: kinds::OPEN,
            id,
            number: role_number(role),
            keep: number_if(keep, 1),
            ..NONE
        },
        Event::Ready { id, length } => FlatEvent {
            kind: kinds::READY,
            id,
            count: usize::from(length),
            ..NONE
        },
        Event::Data { id, stream, count } => FlatEvent {
            kind: kinds::DATA,
            id,
            stream: stream_type(stream),
            count,
            ..NONE
        },
        Event::End {
            id,
            stream,
            measure,
        } => FlatEvent {
            kind: kinds::END,
            id,
            stream: stream_type(stream),
            number: measure_number(measure),
            ..NONE
        },
        Event::Abort { id } => FlatEvent {
            kind: kinds::ABORT,
            id,
            ..NONE
        },
        Event::Refuse { id, status } => FlatEvent {
            kind: kinds::REFUSE,
            id,
            number: status_number(status),
            ..NONE
        },
        Event::Fault { id, fault } => told_fault(id, fault),
        Event::Query {
            max_conns,
            max_reqs,
            mpxs_conns,
        } => FlatEvent {
            kind: kinds::QUERY,
            number: query_number(max_conns, max_reqs, mpxs_conns),
            ..NONE
        },
        Event::Unknown { kind } => FlatEvent {
            kind: kinds::UNKNOWN,
            number: kind,
            ..NONE
        },
        Event::Closed { cause } => told_close(cause),
    }
}

// What has a number is told in C by that number alone. A number that nothing has is read as the last.
#[tactic(auto, unfolding(crate::specs::Flat::stream_of))]
fn stream_of(n: u8) -> Stream
    ensures { result ≡ stream_of n }
{
    match n {
        names::STDIN => Stream::Stdin,
        _ => Stream::Data,
    }
}

#[tactic(auto, unfolding(crate::specs::Flat::measure_of))]
fn measure_of(n: u8) -> Measure
    ensures { result ≡ measure_of n }
{
    match n {
        0 => Measure::Unstated,
        1 => Measure::Short,
        2 => Measure::Exact,
        _ => Measure::Over,
    }
}

#[tactic(auto, unfolding(crate::specs::Flat::status_of))]
fn status_of(n: u8) -> Status
    ensures { result ≡ status_of n }
{
    match n {
        names::OVERLOADED => Status::Overloaded,
        _ => Status::UnknownRole,
    }
}

#[tactic(auto, unfolding(crate::specs::Flat::fault_of))]
fn fault_of(n: u8, place: u16) -> Fault
    ensures { result ≡ fault_of n place }
{
    match n {
        21 => Fault::BeginAgain,
        22 => Fault::OutOfTurn,
        23 => Fault::WrongType,
        24 => Fault::TooLong,
        25 => Fault::Malformed { at: place },
        _ => Fault::Repeated,
    }
}

#[tactic(auto, unfolding(crate::specs::Flat::close_of))]
fn close_of(n: u8, place: u16) -> Close
    ensures { result ≡ close_of n place }
{
    match n {
        11 => Close::Version,
        12 => Close::BeginLength,
        13 => Close::QueryLength,
        _ => Close::QueryMalformed { at: place },
    }
}

fn open_of(id: u16, role: u8, keep: u8) -> Event
    ensures { result ≡ open_of id role keep }
{
    Event::Open {
        id,
        role: role_of(role),
        keep: keep == 1,
    }
}

fn query_of(n: u8) -> Event
    ensures { result ≡ query_of n }
{
    Event::Query {
        max_conns: n % 2 == 1,
        max_reqs: n / 2 % 2 == 1,
        mpxs_conns: n / 4 % 2 == 1,
    }
}

// The event that numbers stand for. Any are read as some event, and `is_known_event` says whether they are the numbers
// of one.
#[tactic(auto, unfolding(crate::specs::Flat::read_event))]
pub fn from_flat_event(f: FlatEvent) -> Event
    ensures { result ≡ read_event f }
{
    match f.kind {
        kinds::NOTHING => Event::Nothing,
        kinds::OPEN => open_of(f.id, f.number, f.keep),
        kinds::READY => Event::Ready {
            id: f.id,
            length: (f.count % 65536) as u16,
        },
        kinds::DATA => Event::Data {
            id: f.id,
            stream: stream_of(f.stream),
            count: f.count,
        },
        kinds::END => Event::End {
            id: f.id,
            stream: stream_of(f.stream),
            measure: measure_of(f.number),
        },
        kinds::ABORT => Event::Abort { id: f.id },
        kinds::REFUSE => Event::Refuse {
            id: f.id,
            status: status_of(f.number),
        },
        kinds::FAULT => Event::Fault {
            id: f.id,
            fault: fault_of(f.number, f.place),
        },
        kinds::QUERY => query_of(f.number),
        kinds::UNKNOWN => Event::Unknown { kind: f.number },
        _ => Event::Closed {
            cause: close_of(f.number, f.place),
        },
    }
}

// Whether numbers are those of an event: of the one that they are read as.
#[tactic(auto, unfolding(crate::specs::Flat::same_numbers))]
pub fn is_known_event(f: FlatEvent) -> bool
    ensures { result ≡ known_event f }
{
    to_flat_event(from_flat_event(f)) == f
}
