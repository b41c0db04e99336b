// What a lift keeps beside its receiver, and what bytes make of it.
ghost use Rattle.std.specs.Prelude.{◌≡◌, Bool, true, ◌&&◌, ℕ, ◌+◌, min, if◌then◌else◌};
ghost use Rattle.wire.specs.Test.{◌<?◌};
ghost use Rattle.connection.specs.Codes.{event_of};
ghost use Rattle.connection.specs.Step.{State, Stepped};
ghost use Rattle.conn_step.specs.Answer.{told_event};
ghost use Rattle.plain_agrees.specs.Agreement.{close_of_event, is_between};
ghost use Rattle.lifting.specs.Lift.{LARGEST_PLACE, copied_header, is_copied};
ghost use Rattle.lifting.specs.Call.{closing_of, header_with, completes, with_header, with_bytes, after_bytes};
ghost use Rattle.lifting.specs.Ways.{lifting_with, Seen};

use connection::answer::Refusal;
use connection::event::{Close, Event};
use record::names::BEGIN_REQUEST;
use record_reader::Position;
use wire::{copy_into, number_of_two};

// All fields of a lift but the receiver and the id, which bytes do not change by themselves.
#[derive(Clone, Copy)]
pub struct Marks {
    pub begun: bool,
    pub copied: bool,
    pub header: [u8; 8],
    pub waiting: usize,
    pub used: u64,
    pub start: u64,
    pub closing: Option<Close>,
}

// Whether bytes are content that is copied, with so much content left of the record.
pub fn copies_content(copied: bool, content: usize) -> bool
    ensures { result ≡ copied && (0 <? content) }
{
    copied && 0 < content
}

// Between two records.
pub fn is_between(p: Position) -> bool
    ensures { result ≡ is_between p }
{
    p.held == 0 && p.content == 0 && p.padding == 0
}

// A place, so many bytes on; it stays at the largest number.
fn place_after(place: u64, bytes: usize) -> u64
    ensures { result ≡ min (place + bytes) LARGEST_PLACE }
{
    place.saturating_add(bytes as u64)
}

// The place of the first byte of the record being read: the bytes after p begin one if p is between two.
fn start_after(p: Position, used: u64, start: u64) -> u64
    ensures { result ≡ (if is_between p then used else start) }
{
    if is_between(p) { used } else { start }
}

// Whether these bytes make the header whole. (`min` keeps the difference in range for a state that is out of shape.)
fn makes_whole(p: Position, bytes: &[u8]) -> bool
    ensures { result ≡ completes p bytes.now }
{
    p.content == 0 && p.padding == 0 && 8 - p.held.min(8) == bytes.len()
}

// The header that these bytes make whole.
fn whole_header(p: Position, bytes: &[u8]) -> [u8; 8]
    ensures { completes p bytes.now ≡ true → result ≡ header_with p bytes.now }
{
    let mut header = p.header;
    copy_into(&mut header, p.held.min(8), bytes);
    header
}

// The record of this header is copied if it is of the id, and the id's first BEGIN_REQUEST has come or is this record.
fn is_copied(id: u16, begun: bool, header: [u8; 8]) -> bool
    ensures { result ≡ is_copied id begun header }
{
    number_of_two(header[2], header[3]) == id && (begun || header[1] == BEGIN_REQUEST)
}

// A record that closes is not copied.
fn copies_next(open: bool, id: u16, begun: bool, header: [u8; 8]) -> bool
    ensures { result ≡ «open» && is_copied id begun header }
{
    open && is_copied(id, begun, header)
}

// The header as it is copied: without padding.
fn without_padding(header: [u8; 8]) -> [u8; 8]
    ensures { result ≡ copied_header header }
{
    let mut copy = header;
    copy[6] = 0;
    copy
}

// The close that an event tells, if it does.
fn closing_by(e: Event) -> Option<Close>
    ensures { closing_of result ≡ close_of_event (event_of e) }
{
    match e {
        Event::Closed { cause } => Some(cause),
        _ => None,
    }
}

// The close that a step tells, if it does.
fn closing_of(res: Result<Event, Refusal>) -> Option<Close>
    ensures { closing_of result ≡ close_of_event (told_event res) }
{
    closing_by(res.ok()?)
}

// The header of a record that is copied waits whole.
fn waiting_if(copied: bool) -> usize
    ensures { result ≡ (if copied then 8 else 0) }
{
    if copied { 8 } else { 0 }
}

// A header that is whole says whether its record is copied, and waits then.
fn with_header(
    m: Marks,
    id: u16,
    p: Position,
    open: bool,
    res: Result<Event, Refusal>,
    bytes: &[u8],
) -> Marks
    ensures { completes p bytes.now ≡ true
        → (st : State) (s : Stepped) → Seen st s p «open» (told_event res)
        → lifting_with s.state id result ≡ with_header (lifting_with st id m) s bytes.now }
{
    let header = whole_header(p, bytes);
    let copied = copies_next(open, id, m.begun, header);
    Marks {
        begun: m.begun | copied,
        copied,
        header: without_padding(header),
        waiting: waiting_if(copied),
        used: place_after(m.used, bytes.len()),
        start: start_after(p, m.used, m.start),
        closing: closing_of(res),
    }
}

// Any other bytes move the places on, and may close.
fn with_bytes(m: Marks, p: Position, res: Result<Event, Refusal>, bytes: &[u8]) -> Marks
    ensures { (id : ℕ) (is_open : Bool) (st : State) (s : Stepped) → Seen st s p is_open (told_event res)
        → lifting_with s.state id result ≡ with_bytes (lifting_with st id m) s bytes.now }
{
    Marks {
        waiting: 0,
        used: place_after(m.used, bytes.len()),
        start: start_after(p, m.used, m.start),
        closing: closing_of(res),
        ..m
    }
}

// What the bytes that a step used make of the marks.
pub fn after_bytes(
    m: Marks,
    id: u16,
    p: Position,
    open: bool,
    res: Result<Event, Refusal>,
    bytes: &[u8],
) -> Marks
    ensures { (st : State) (s : Stepped) → Seen st s p «open» (told_event res)
        → lifting_with s.state id result ≡ after_bytes (lifting_with st id m) s bytes.now }
{
    if makes_whole(p, bytes) {
        return with_header(m, id, p, open, res, bytes);
    }
    with_bytes(m, p, res, bytes)
}
