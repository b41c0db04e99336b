// One step of a connection that may read: what its bytes come to, and the table changed by it.
#![tactic(auto)]

ghost use Rattle.std.specs.Prelude.{◌≡◌, List, ℕ, ◌≤◌, ◌<◌, length, take, true};
ghost use Rattle.connection.specs.Shape.{in_shape};
ghost use Rattle.connection.specs.Sizes.{STORE};
ghost use Rattle.connection.specs.Fits.{Aimed};
ghost use Rattle.connection.specs.Step.{frame_at, on_phase, open_with, advances};
ghost use Rattle.record.specs.declared.header.Header.{Header};
ghost use Rattle.record_reader.specs.declared.Phase.{Phase};
ghost use Rattle.record_reader.specs.Position.{advanced};
ghost use Rattle.connection.specs.Fits.{HeaderFits};
ghost use Rattle.connection.specs.Decision.{open_state, applied, conn_after, store_after};
ghost use Rattle.conn_step.specs.Answer.{stepped_by};
ghost use Rattle.connection.specs.Step.{state_of};
ghost use Rattle.conn_step.specs.Outcome.{outcome_of};

use conn_content::feed;
use conn_frame::{closed, frame_at, only_frame};
use conn_header::judge;
use connection::answer::{Refusal, Stepped};
use connection::decision::{Change, Decision};
use connection::event::Event;
use connection::sizes::QUERY;
use connection::state::{Conn, Frame, Table};
use record_reader::{Phase, Position, advance};
use slot_table::{put_request, take_request};
use wire::clear;

// What the bytes used come to, by the phase that they are of. (A header's numbers fit, by its type.)
fn decide(
    t: Table,
    f: Frame,
    store: &mut [u8],
    gathered: &mut [u8; QUERY],
    bytes: &[u8],
    phase: Phase,
    p: Position,
) -> Decision
    requires { (length store.old ≡ STORE) × (Aimed f.target t f.gathered f.position.content)
        × (length bytes.now ≤ 65535) }
    ensures { (applied result t gathered.new store.new
        ≡ on_phase phase (open_state t f gathered.old) store.old bytes.now p)
        × ((h : Header) → phase ≡ Phase.Whole h → HeaderFits h) }
{
    match phase {
        Phase::Content => feed(t, f, store, gathered, bytes, p),
        Phase::Padding | Phase::Part => only_frame(frame_at(f, p), Event::Nothing),
        Phase::Whole(h) => judge(t, store, h),
    }
}

// All that a step comes to, in small values: the table stands in the one place where it is changed.
#[derive(Clone, Copy)]
struct Outcome {
    used: usize,
    result: Result<Event, Refusal>,
    change: Change,
    frame: Frame,
}

// What a step comes to.
fn go_on(t: Table, f: Frame, store: &mut [u8], gathered: &mut [u8; QUERY], piece: &[u8]) -> Outcome
    requires { (length store.old ≡ STORE) × (in_shape (open_with t f) ≡ true) }
    ensures { (outcome_of result t gathered.new store.new
        ≡ advances (open_state t f gathered.old) store.old piece.now
        (advanced f.position piece.now)) × (in_shape (conn_after result.change t result.frame) ≡ true) }
{
    let a = advance(f.position, piece);
    let m = decide(t, f, store, gathered, &piece[..a.used], a.phase, a.position);
    Outcome {
        used: a.used,
        result: Ok(m.event),
        change: m.change,
        frame: m.frame,
    }
}

// One step over a piece, of a connection that may read: it stays in one phase and uses as many bytes as that phase
// still needs or the piece has. The table is changed in place and has one way out: each way out that carried it would
// copy it once more.
pub fn take_step(c: Conn, store: &mut [u8], gathered: &mut [u8; QUERY], piece: &[u8]) -> Stepped
    requires { (length store.old ≡ STORE) × (in_shape c ≡ true) × (c.«open» ≡ true) }
    ensures { (stepped_by result gathered.new store.new
        ≡ advances (state_of c gathered.old) store.old piece.now
        (advanced c.frame.position piece.now)) × (in_shape result.conn ≡ true) }
{
    let mut t = c.table;
    let mut open = true;
    let o = go_on(t, c.frame, store, gathered, piece);
    let mut frame = o.frame;
    match o.change {
        Change::Keep => {}
        Change::Put(i, r) => {
            t = put_request(t, i, r);
        }
        Change::Take(i, r) => {
            t = take_request(t, i, r);
        }
        Change::Close => {
            clear(store);
            let none = closed();
            t = none.table;
            frame = none.frame;
            open = none.open;
        }
    }
    Stepped {
        used: o.used,
        result: o.result,
        conn: Conn {
            table: t,
            frame,
            open,
        },
    }
}
