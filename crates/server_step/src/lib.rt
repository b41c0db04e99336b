// One step of the web server's end: it is refused, or what the bytes of its phase come to is decided in small values,
// and the table is changed in one place.
#![tactic(auto)]

ghost use Rattle.std.specs.Prelude.{◌≡◌, Bool, true, length};
ghost use Rattle.connection.specs.declared.state.Table.{Table};
ghost use Rattle.record_reader.specs.declared.Phase.{Phase};
ghost use Rattle.server.specs.Step.{state_of, stepped};
ghost use Rattle.server.specs.Decision.{inner_in, stream_ended, applied};
ghost use Rattle.server_header.specs.Rows.{Seen};
ghost use Rattle.server_content.specs.Fed.{Fed};
ghost use Rattle.server_step.specs.declared.StepCheck.{StepCheck};
ghost use Rattle.server_step.specs.Answer.{stepped_by};
ghost use Rattle.server_step.specs.Outcome.{unchanged, left_by, words_of, no_frame, server_of, outcome_of, staying};
ghost use Rattle.server_step.specs.Outcome.{phased};
ghost use Rattle.server_step.specs.Check.{checked_step, by_check};

use connection::answer::Output;
use connection::sizes::{QUERY, SLOTS};
use connection::state::Table;
use record_reader::{Phase, advance, between};
use server::answer::{ServerRefusal, ServerStepped};
use server::decision::{Change, Decision};
use server::event::ServerEvent;
use server::state::{Frame, Server, Target};
use server_check::in_shape;
use server_content::feed;
use server_header::{Words, judge};
use slot_table::{free_request, no_requests};
use slot_word::mark_slot;

// Whether a step is refused, has nothing to read, or reads. Three ways: to be idle is no refusal, and reads nothing.
#[derive(Debug, Clone, Copy, PartialEq, Eq)]
enum StepCheck {
    Refused(ServerRefusal),
    Idle,
    Read,
}

// All that a step comes to, in small values: the table stands in the one place where it is changed.
#[derive(Clone, Copy)]
struct Outcome {
    used: usize,
    result: Result<ServerEvent, ServerRefusal>,
    change: Change,
    frame: Frame,
}

// Rows 9 and 1, then the empty piece.
#[tactic(auto, unfolding(crate::specs::Check::checked_step))]
fn check_step(fits: bool, open: bool, bytes: usize) -> StepCheck
    ensures { result ≡ checked_step fits «open» bytes }
{
    if !fits {
        return StepCheck::Refused(ServerRefusal::OutOfShape);
    }
    if !open {
        return StepCheck::Refused(ServerRefusal::Closed);
    }
    if bytes == 0 {
        return StepCheck::Idle;
    }
    StepCheck::Read
}

// Padding and parts of a header are read in silence.
fn in_silence(f: Frame) -> Decision
    ensures { result ≡ unchanged f }
{
    // An array that is a field goes into a literal by a variable: the borrow checker covers it only so.
    let body = f.body;
    Decision {
        change: Change::Keep,
        target: f.target,
        gathered: f.gathered,
        body,
        event: ServerEvent::Nothing,
    }
}

// What the bytes used come to, by the phase that they are of.
fn decide(
    ids: &[u16; SLOTS],
    w: Words,
    f: Frame,
    values: &mut [u8; QUERY],
    bytes: &[u8],
    phase: Phase,
    left: usize,
) -> Decision
    requires { phase ≡ Phase.Content → Fed f.target f.gathered (length bytes.now) }
    ensures { (t : Table) → Seen t ids.now w
        → applied result t values.new
        ≡ left_by phase (inner_in t f values.old) bytes.now left }
{
    match phase {
        Phase::Content => feed(ids, f, values, bytes, left),
        Phase::Padding => in_silence(f),
        Phase::Part => in_silence(f),
        Phase::Whole(h) => judge(ids, w, h),
    }
}

// A step that reads: it stays in one phase and uses as many bytes as that phase still needs or the piece has.
fn go_on(ids: &[u16; SLOTS], w: Words, f: Frame, values: &mut [u8; QUERY], piece: &[u8]) -> Outcome
    requires { Fed f.target f.gathered f.position.content }
    ensures { (t : Table) → Seen t ids.now w
        → outcome_of result t true values.new
        ≡ phased (server_of t f true) values.old piece.now }
{
    let position = f.position;
    let a = advance(position, piece);
    let used = a.used;
    let phase = a.phase;
    let p = a.position;
    let z: usize = 0;
    let m = decide(ids, w, f, values, &piece[z..used], phase, p.content);
    let change = m.change;
    let target = m.target;
    let body = m.body;
    let event = m.event;
    Outcome {
        used: used,
        result: Ok(event),
        change: change,
        frame: Frame {
            position: p,
            target: target,
            gathered: m.gathered,
            body: body,
        },
    }
}

// A step that changes nothing.
fn stay(f: Frame, res: Result<ServerEvent, ServerRefusal>) -> Outcome
    ensures { result ≡ staying f res }
{
    Outcome {
        used: 0,
        result: res,
        change: Change::Keep,
        frame: f,
    }
}

// What a step comes to, by its check.
fn settle(
    check: StepCheck,
    ids: &[u16; SLOTS],
    w: Words,
    f: Frame,
    values: &mut [u8; QUERY],
    piece: &[u8],
) -> Outcome
    requires { check ≡ StepCheck.Read → Fed f.target f.gathered f.position.content }
    ensures { (t : Table) (o : Bool) → Seen t ids.now w
        → (check ≡ StepCheck.Read → o ≡ true)
        → outcome_of result t o values.new
        ≡ by_check check (server_of t f o) values.old piece.now }
{
    match check {
        StepCheck::Refused(why) => stay(f, Err(why)),
        StepCheck::Idle => stay(f, Ok(ServerEvent::Nothing)),
        StepCheck::Read => go_on(ids, w, f, values, piece),
    }
}

// A stream of the request in slot i ended: its mark is set, and nothing else changes.
fn end_stream(t: Table, i: usize, output: Output) -> Table
    ensures { result ≡ stream_ended t i output }
{
    let mut table = t;
    match output {
        Output::Stdout => {
            table.out_ended = mark_slot(t.out_ended, i, true);
        }
        Output::Stderr => {
            table.err_ended = mark_slot(t.err_ended, i, true);
        }
    }
    table
}

// What a header is judged by, beside the ids.
fn words_of(t: Table) -> Words
    ensures { result ≡ words_of t }
{
    Words {
        occupied: t.occupied,
        out_ended: t.out_ended,
        err_ended: t.err_ended,
    }
}

// The frame between two records.
fn no_frame() -> Frame
    ensures { result ≡ no_frame }
{
    Frame {
        position: between(),
        target: Target::Skip,
        gathered: 0,
        body: [0; 8],
    }
}

// One step over a piece; the lent bytes hold a result of values while it comes in. The table is changed in place and
// has one way out: each way out that carried it would copy it once more.
pub fn step_server(c: Server, values: &mut [u8; QUERY], piece: &[u8]) -> ServerStepped
    ensures { stepped_by result values.new
        ≡ stepped (state_of c values.old) piece.now }
{
    let mut t = c.table;
    let f = c.frame;
    let mut open = c.open;
    let fits = in_shape(&t.ids, &t.lengths, t.occupied, f);
    let check = check_step(fits, open, piece.len());
    let w = words_of(t);
    let o = settle(check, &t.ids, w, f, values, piece);
    let change = o.change;
    let mut frame = o.frame;
    let result = o.result;
    match change {
        Change::Keep => {}
        Change::EndStream(i, output) => {
            t = end_stream(t, i, output);
        }
        Change::Free(i) => {
            t = free_request(t, i);
        }
        Change::Close => {
            t = no_requests();
            frame = no_frame();
            open = false;
        }
    }
    ServerStepped {
        used: o.used,
        result: result,
        server: Server {
            table: t,
            frame: frame,
            open: open,
        },
    }
}
