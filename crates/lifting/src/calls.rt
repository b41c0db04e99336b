// The calls: a start, a call that goes on over a piece and into a buffer that may be short, and the verdict.
ghost use Rattle.std.specs.Prelude.{◌≡◌, ◌&&◌, List, ℕ, length, if◌then◌else◌};
ghost use Rattle.wire.specs.Test.{◌<?◌};
ghost use Rattle.wire.specs.Buffer.{put_at};
ghost use Rattle.connection.specs.Step.{State, Stepped};
ghost use Rattle.conn_step.specs.Answer.{told_event};
ghost use Rattle.call_start.specs.Answer.{started_by};
ghost use Rattle.lifting.specs.Call.{lifting_of, lift_started, header_written, step_over, lifted, verdict_now};
ghost use Rattle.lifting.specs.Answer.{lift_started_by, lifted_by, verdict_by};
ghost use Rattle.lifting.specs.Ways.{started_for, marks_of, lift_of_parts, lifting_with, outcome_with, goes};
ghost use Rattle.lifting.specs.Ways.{Seen, HasRoom};

use crate::marks::{Marks, after_bytes, copies_content, is_between};
use crate::way::{Way, offer, way_of};
use crate::{Lift, LiftStarted, Lifted, Moved, Verdict};
use call_start::start;
use call_step::step;
use conn_frame::closed;
use connection::answer::{Refusal, Started};
use connection::event::Event;
use connection::sizes::{QUERY, STORE};
use connection::state::Conn;
use record_reader::Position;
use wire::copy_into;

// The receiver's start; for id 0 it is refused by 3.
#[tactic(auto, unfolding(crate::specs::Ways::started_for))]
fn start_for(store: &mut [u8], gathered: &mut [u8; QUERY], id: u16) -> Started
    ensures { started_by result gathered.new store.new
        ≡ started_for gathered.old store.old id }
{
    if store.len() == STORE && id == 0 {
        return Started {
            result: Err(Refusal::NotActive),
            conn: closed(),
        };
    }
    start(store, gathered)
}

// Starts the lift of a request: its receiver is a fresh connection, the store and the gathered bytes are zeroed.
// Refused, by 2 for a store of another size and then by 3 for id 0, the lent bytes stay as they are.
pub fn start_lift(store: &mut [u8], gathered: &mut [u8; QUERY], id: u16) -> LiftStarted
    ensures { lift_started_by result gathered.new store.new
        ≡ lift_started gathered.old store.old id }
{
    let started = start_for(store, gathered, id);
    LiftStarted {
        result: started.result,
        lift: Lift {
            conn: started.conn,
            id,
            begun: false,
            copied: false,
            header: [0; 8],
            waiting: 0,
            used: 0,
            start: 0,
            closing: None,
        },
    }
}

// What a call comes to, in small values: the state stands in the one place where it is put together.
#[derive(Clone, Copy)]
struct Outcome {
    marks: Marks,
    result: Result<Moved, Refusal>,
}

// Writes of the header that waits as many bytes as there is room for. (A lift that was made by other means may say
// that more than eight wait; that is taken for eight.)
fn write_header(m: Marks, out: &mut [u8]) -> Outcome
    ensures { (id : ℕ) (s : Stepped) → outcome_with result id s out.new
        ≡ header_written (lifting_with s.state id m) s.store out.old }
{
    let waiting = m.waiting.min(8);
    let n = waiting.min(out.len());
    let start = 8 - waiting;
    copy_into(out, 0, &m.header[start..start + n]);
    Outcome {
        marks: Marks {
            waiting: waiting - n,
            ..m
        },
        result: Ok(Moved {
            used: 0,
            written: n,
        }),
    }
}

// Writes bytes that are copied, and answers how many.
fn write_copied(copies: bool, bytes: &[u8], out: &mut [u8]) -> usize
    ensures { (result ≡ (if copies then length bytes.now else 0))
        × (HasRoom copies bytes.now out.old
        → out.new ≡ (if copies then put_at out.old 0 bytes.now else out.old)) }
{
    if copies {
        copy_into(out, 0, bytes);
        return bytes.len();
    }
    0
}

// The receiver used these bytes: they are written where they are content that is copied.
fn read_on(
    m: Marks,
    id: u16,
    p: Position,
    open: bool,
    res: Result<Event, Refusal>,
    bytes: &[u8],
    out: &mut [u8],
) -> Outcome
    ensures { (st : State) (s : Stepped) → Seen st s p «open» (told_event res)
        → HasRoom (m.copied && (0 <? p.content)) bytes.now out.old
        → outcome_with result id s out.new
        ≡ step_over (lifting_with st id m) s bytes.now out.old }
{
    let copies = copies_content(m.copied, p.content);
    let written = write_copied(copies, bytes, out);
    Outcome {
        marks: after_bytes(m, id, p, open, res, bytes),
        result: Ok(Moved {
            used: bytes.len(),
            written,
        }),
    }
}

// What a call comes to, by its way.
fn go(
    way: Way,
    m: Marks,
    id: u16,
    p: Position,
    open: bool,
    res: Result<Event, Refusal>,
    bytes: &[u8],
    out: &mut [u8],
) -> Outcome
    ensures { (st : State) (s : Stepped) → Seen st s p «open» (told_event res)
        → HasRoom (m.copied && (0 <? p.content)) bytes.now out.old
        → outcome_with result id s out.new
        ≡ goes way (lifting_with st id m) s bytes.now out.old }
{
    match way {
        Way::Refused(why) => Outcome {
            marks: m,
            result: Err(why),
        },
        Way::Header => write_header(m, out),
        Way::Stands => Outcome {
            marks: m,
            result: Ok(Moved {
                used: 0,
                written: 0,
            }),
        },
        Way::Reads => read_on(m, id, p, open, res, bytes, out),
    }
}

// A lift taken apart.
fn marks_of(l: Lift) -> Marks
    ensures { result ≡ marks_of l }
{
    let header = l.header;
    Marks {
        begun: l.begun,
        copied: l.copied,
        header,
        waiting: l.waiting,
        used: l.used,
        start: l.start,
        closing: l.closing,
    }
}

// A lift put together.
fn lift_of(conn: Conn, id: u16, m: Marks) -> Lift
    ensures { result ≡ lift_of_parts conn id m }
{
    let header = m.header;
    Lift {
        conn,
        id,
        begun: m.begun,
        copied: m.copied,
        header,
        waiting: m.waiting,
        used: m.used,
        start: m.start,
        closing: m.closing,
    }
}

// Goes on over a piece of the capture: writes what is copied at the start of the lent buffer, and answers how many
// bytes it used and wrote. A header that waits is written first, and nothing is used while it waits. After a close
// nothing is used. The receiver makes one step in any case, over no bytes where none are to be used.
pub fn lift(
    l: Lift,
    store: &mut [u8],
    gathered: &mut [u8; QUERY],
    piece: &[u8],
    out: &mut [u8],
) -> Lifted
    ensures { lifted_by result gathered.new store.new out.new
        ≡ lifted (lifting_of l gathered.old) store.old piece.now out.old }
{
    let p = l.conn.frame.position;
    let copies = copies_content(l.copied, p.content);
    let offered = offer(l.waiting, l.id, copies, piece.len(), out.len());
    let stepped = step(l.conn, store, gathered, &piece[..offered]);
    let told = stepped.result;
    let way = way_of(told, l.id, l.waiting);
    let marks = marks_of(l);
    let outcome = go(
        way,
        marks,
        l.id,
        p,
        stepped.conn.open,
        told,
        &piece[..stepped.used],
        out,
    );
    Lifted {
        lift: lift_of(stepped.conn, l.id, outcome.marks),
        result: outcome.result,
    }
}

// What the capture is, of all that was used so far.
#[tactic(auto, unfolding(crate::specs::Call::verdict_now))]
pub fn lift_verdict(l: Lift) -> Verdict
    ensures { (gathered : List ℕ) → verdict_by result ≡ verdict_now (lifting_of l gathered) }
{
    match l.closing {
        Some(cause) => Verdict::Closed { cause, at: l.start },
        None if is_between(l.conn.frame.position) => Verdict::Clean,
        None => Verdict::Cut,
    }
}
