// Content bytes of a record, each given to what they are for.
#![tactic(auto)]

ghost use Rattle.std.specs.Prelude.{◌≡◌, List, ℕ, ◌+◌, ◌≤◌, ◌<◌, length};
ghost use Rattle.connection.specs.declared.state.Table.{Table};
ghost use Rattle.connection.specs.declared.state.Frame.{Frame};
ghost use Rattle.connection.specs.declared.request.Due.{Due};
ghost use Rattle.connection.specs.Codes.{event_of, stream_due};
ghost use Rattle.connection.specs.declared.event.Event.{Event};
ghost use Rattle.connection.specs.Sizes.{SLOTS, STORE, QUERY};
ghost use Rattle.connection.specs.Slots.{request_at, area_at, put_area, free_slot_of};
ghost use Rattle.connection.specs.Fits.{Aimed};
ghost use Rattle.connection.specs.Step.{frame_within, reads, opens, begun, of_begin, of_query, of_request, on_target};
ghost use Rattle.connection.specs.Decision.{open_state, applied};

use conn_begin::of_begin;
use conn_frame::{frame_within, only_frame};
use conn_management::on_query;
use connection::decision::{Change, Decision};
use connection::event::{Event, Stream};
use connection::request::Request;
use connection::sizes::{AREA, QUERY};
use connection::state::{Frame, Table, Target};
use record_reader::Position;
use request_input::{count_shown, grow, stream_due};
use slot_table::request_at;
use slot_word::lowest_free;
use wire::copy_into;

// Bytes of a query.
#[tactic(auto, unfolding(connection::specs::Step::of_query))]
fn of_query(f: Frame, gathered: &mut [u8], bytes: &[u8], p: Position) -> Decision
    requires { (f.gathered ≤ QUERY) × (length bytes.now ≤ 65535) × (length gathered.old ≤ 65535) }
    ensures { (t : Table) (s : List ℕ) → applied result t gathered.new s
        ≡ of_query (open_state t f gathered.old) s bytes.now p }
{
    copy_into(gathered, f.gathered, bytes);
    let length = f.gathered + bytes.len();
    if p.content == 0 {
        let none = frame_within(f, p, 0, f.body);
        return on_query(&gathered[..gathered.len().min(length)], none);
    }
    let more = frame_within(f, p, length, f.body);
    only_frame(more, Event::Nothing)
}

// PARAMS content for the request in slot i; its own area is lent.
#[tactic(auto, unfolding(connection::specs::Step::of_request))]
fn of_params(area: &mut [u8], r: Request, i: usize, f: Frame, bytes: &[u8], p: Position) -> Decision
    ensures { (t : Table) (g s : List ℕ) → request_at t i ≡ r → area_at s i ≡ area.old
        → applied result t g (put_area s i area.new)
        ≡ of_request (open_state t f g) s Due.Params i bytes.now p }
{
    let grown = grow(r, area, bytes);
    Decision {
        change: Change::Put(i, grown),
        frame: frame_within(f, p, f.gathered, f.body),
        event: Event::Nothing,
    }
}

// STDIN or DATA content for the request in slot i: n bytes are shown.
fn of_stream(r: Request, i: usize, f: Frame, stream: Stream, n: usize, p: Position) -> Decision
    ensures { (t : Table) (g s bytes : List ℕ) → request_at t i ≡ r → length bytes ≡ n
        → applied result t g s ≡ of_request (open_state t f g) s (stream_due stream) i bytes p }
{
    let counted = count_shown(r, stream_due(stream), n);
    Decision {
        change: Change::Put(i, counted),
        frame: frame_within(f, p, f.gathered, f.body),
        event: Event::Data {
            id: r.id,
            stream,
            count: n,
        },
    }
}

// Content that is skipped: only the frame changes.
fn skipped(f: Frame, p: Position) -> Decision
    ensures { (t : Table) (g s : List ℕ) → applied result t g s
        ≡ reads (open_state t f g) s (frame_within f p f.gathered f.body) (event_of Event.Nothing) }
{
    only_frame(frame_within(f, p, f.gathered, f.body), Event::Nothing)
}

// Content bytes of the record being read; p is the position after them.
pub fn feed(
    t: Table,
    f: Frame,
    store: &mut [u8],
    gathered: &mut [u8; QUERY],
    bytes: &[u8],
    p: Position,
) -> Decision
    requires { (length store.old ≡ STORE) × (Aimed f.target t f.gathered f.position.content)
        × (length bytes.now ≤ 65535) }
    ensures { applied result t gathered.new store.new
        ≡ on_target f.target (open_state t f gathered.old) store.old bytes.now p }
{
    match f.target {
        Target::Skip => skipped(f, p),
        Target::Begin(id) => {
            let free = lowest_free(t.occupied) as usize;
            of_begin(f, free, id, bytes, p)
        }
        Target::Query => of_query(f, gathered, bytes, p),
        Target::Params(i) => {
            let slot = i as usize;
            let r = request_at(t, slot);
            let a = slot * AREA;
            of_params(&mut store[a..a + AREA], r, slot, f, bytes, p)
        }
        Target::Stdin(i) => {
            let slot = i as usize;
            let r = request_at(t, slot);
            of_stream(r, slot, f, Stream::Stdin, bytes.len(), p)
        }
        Target::Data(i) => {
            let slot = i as usize;
            let r = request_at(t, slot);
            of_stream(r, slot, f, Stream::Data, bytes.len(), p)
        }
    }
}
