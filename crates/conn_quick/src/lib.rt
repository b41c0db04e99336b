// Two ways of a step for most of the bytes of a long body: content of STDIN or DATA, and a header that goes on with such
// a stream. They change the frame and at most one slot, look at a few fields of the table and copy none of it.
#![tactic(auto)]

ghost use Rattle.std.specs.Prelude.{◌≡◌, true, List, ℕ, ◌≤◌, ◌<◌, length};
ghost use Rattle.record.specs.Header.{header_of};
ghost use Rattle.record_reader.specs.Position.{advanced};
ghost use Rattle.connection.specs.declared.state.Table.{Table};
ghost use Rattle.connection.specs.Sizes.{SLOTS};
ghost use Rattle.connection.specs.Decision.{open_state};
ghost use Rattle.connection.specs.Step.{advances};
ghost use Rattle.conn_quick.specs.Quick.{is_stream, is_shown, slot_of, stream_of};
ghost use Rattle.conn_quick.specs.Quick.{stream_to, goes_to, headed_to, is_headed};
ghost use Rattle.conn_quick.specs.Passes.{shows, Passes};

use conn_frame::{frame_after, frame_within};
use connection::event::{Event, Stream};
use connection::request::{Due, Standing, Turn};
use connection::sizes::SLOTS;
use connection::state::{Frame, Table, Target};
use record::header::{Header, read_header};
use record::names;
use record_reader::{Position, advance};
use request_input::stream_due;
use request_state::{is_spent, turn_type};
use slot_table::find_from;

// What such a step comes to: the bytes used, what it tells, and the frame afterwards. No bytes are used where it is
// none.
#[derive(Clone, Copy)]
pub struct Passed {
    pub used: usize,
    pub event: Event,
    pub frame: Frame,
}

// The same of a step that shows content, with the slot that it is for, and what it is due to there: the bytes used are
// counted.
#[derive(Clone, Copy)]
pub struct Showing {
    pub used: usize,
    pub event: Event,
    pub frame: Frame,
    pub slot: usize,
    pub due: Due,
}

fn is_stream(target: Target) -> bool
    ensures { result ≡ is_stream target }
{
    matches!(target, Target::Stdin(_) | Target::Data(_))
}

// Content of STDIN or DATA is left.
pub fn is_shown(f: Frame) -> bool
    ensures { result ≡ is_shown f.position.content f.target }
{
    0 < f.position.content && is_stream(f.target)
}

// The slot that it is for.
fn slot_of(target: Target) -> usize
    ensures { result ≡ slot_of target }
{
    match target {
        Target::Stdin(i) | Target::Data(i) => i as usize,
        _ => 0,
    }
}

// The stream that it is of.
fn stream_of(target: Target) -> Stream
    ensures { result ≡ stream_of target }
{
    match target {
        Target::Data(_) => Stream::Data,
        _ => Stream::Stdin,
    }
}

// Content that is shown.
pub fn show_content(ids: &[u16; SLOTS], f: Frame, piece: &[u8]) -> Showing
    requires { (is_shown f.position.content f.target ≡ true) × (slot_of f.target < SLOTS) }
    ensures { (result.slot < SLOTS) × ((t : Table) (g s : List ℕ) → t.ids ≡ ids.now
        → shows result t g s
        ≡ advances (open_state t f g) s piece.now (advanced f.position piece.now)) }
{
    let a = advance(f.position, piece);
    let slot = slot_of(f.target);
    let stream = stream_of(f.target);
    Showing {
        used: a.used,
        event: Event::Data {
            id: ids[slot],
            stream,
            count: a.used,
        },
        frame: frame_within(f, a.position, f.gathered, f.body),
        slot,
        due: stream_due(stream),
    }
}

// Where the content of the stream goes whose turn it is, of the request in slot i; PARAMS is kept and not shown.
fn stream_to(turn: Turn, i: usize) -> Target
    requires { i < SLOTS }
    ensures { result ≡ stream_to turn i }
{
    match turn {
        Turn::Stdin => Target::Stdin(i as u8),
        Turn::Data => Target::Data(i as u8),
        Turn::Params | Turn::Done => Target::Skip,
    }
}

fn goes_to(standing: Standing, kind: u8, i: usize) -> Target
    requires { i < SLOTS }
    ensures { result ≡ goes_to standing kind i }
{
    if is_spent(standing.life) || kind != turn_type(standing.turn) {
        return Target::Skip;
    }
    stream_to(standing.turn, i)
}

// Where a record's content goes if it goes on with STDIN or DATA.
#[tactic(auto, unfolding(crate::specs::Quick::headed_to))]
fn headed_to(t: Table, h: Header) -> Target
    ensures { result ≡ headed_to t h }
{
    if h.version != names::VERSION || h.id == 0 || h.content == 0 {
        return Target::Skip;
    }
    let Some(i) = find_from(&t.ids, t.occupied, h.id, 0) else {
        return Target::Skip;
    };
    goes_to(t.standings[i], h.kind, i)
}

// A piece that begins with a whole header.
fn is_headed(p: Position, bytes: usize) -> bool
    ensures { result ≡ is_headed p bytes }
{
    p.content == 0 && p.padding == 0 && p.held == 0 && 8 <= bytes
}

// The header at the start of a piece.
#[tactic(auto, unfolding(record::specs::Header::header_of))]
fn header_at(piece: &[u8]) -> Header
    requires { 8 ≤ length piece.now }
    ensures { result ≡ header_of piece.now }
{
    read_header([
        piece[0], piece[1], piece[2], piece[3], piece[4], piece[5], piece[6], piece[7],
    ])
}

// Nothing passes.
fn none_passed(f: Frame) -> Passed
    ensures { result.used ≡ 0 }
{
    Passed {
        used: 0,
        event: Event::Nothing,
        frame: f,
    }
}

// A header that goes on with STDIN or DATA.
pub fn pass_header(t: Table, f: Frame, piece: &[u8]) -> Passed
    ensures { 0 < result.used → Passes result t f piece.now }
{
    if !is_headed(f.position, piece.len()) {
        return none_passed(f);
    }
    let h = header_at(piece);
    let target = headed_to(t, h);
    if !is_stream(target) {
        return none_passed(f);
    }
    Passed {
        used: 8,
        event: Event::Nothing,
        frame: frame_after(h, target),
    }
}
