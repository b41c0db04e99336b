// The calls that read: one step, and steps up to the next event. Both are one loop, which tests row 9 once. The loop is
// lent what waits for the pump; the calls without a queue lend that nothing does. (The test of what waits and its drop at
// a close stand inside the loop, since around it they would have the table copied twice more in every step.)
#![tactic(auto)]

ghost use Rattle.std.specs.Prelude.{◌≡◌, true, false, length};
ghost use Rattle.connection.specs.Codes.{event_of};
ghost use Rattle.connection.specs.Sizes.{SLOTS, STORE};
ghost use Rattle.connection.specs.Shape.{in_shape, ◌and◌};
ghost use Rattle.connection.specs.Step.{state_of, advances, stepped};
ghost use Rattle.record_reader.specs.Position.{advanced};
ghost use Rattle.conn_check.specs.Fits.{shape_of};
ghost use Rattle.queue.specs.Numbers.{kept_waits};
ghost use Rattle.queue.specs.Calls.{waits_fit};
ghost use Rattle.conn_step.specs.Answer.{told_number, told_event, stepped_by};
ghost use Rattle.call_step.specs.Check.{checked_step};
ghost use Rattle.call_step.specs.Next.{is_none, is_silent, next_event, is_due};
ghost use Rattle.call_step.specs.Beside.{steps_beside};

use conn_check::in_shape;
use conn_quick::{is_shown, pass_header, show_content};
use conn_step::take_step;
use connection::answer::{Refusal, Stepped};
use connection::event::Event;
use connection::request::Shown;
use connection::sizes::{QUERY, SLOTS, STORE};
use connection::state::{Conn, Frame};
use queue::sizes::WAITS;
use request_state::show_more;
use wait_numbers::{keep_waits, waits_fit};

// Whether a step goes on: yes; there is nothing to read; or it is refused. (The first two are no refusals: a Result of
// a bool would not say which is which.)
#[derive(Clone, Copy)]
enum StepCheck {
    Read,
    Idle,
    Refused(Refusal),
}

// Rows 2, 9 and 1, and the empty piece.
fn check_step(size: usize, fits: bool, open: bool, bytes: usize) -> StepCheck
    ensures { result ≡ checked_step size fits «open» bytes }
{
    if size != STORE {
        return StepCheck::Refused(Refusal::StoreSize);
    }
    if !fits {
        return StepCheck::Refused(Refusal::OutOfShape);
    }
    if !open {
        return StepCheck::Refused(Refusal::Closed);
    }
    if bytes == 0 {
        return StepCheck::Idle;
    }
    StepCheck::Read
}

// A step that was not refused and told nothing.
fn is_silent(res: Result<Event, Refusal>) -> bool
    ensures { result ≡ is_silent (told_number res) (told_event res) }
{
    matches!(res, Ok(Event::Nothing))
}

// Another step follows where the call goes on, the last one was silent, and bytes are left.
fn is_due(on: bool, res: Result<Event, Refusal>, used: usize, bytes: usize) -> bool
    ensures { result ≡ is_due on (told_number res) (told_event res) used bytes }
{
    on && is_silent(res) && used < bytes
}

// The state with these ids, lengths and slots taken, and this frame, is in shape, and so is what waits.
fn both_fit<'a>(
    ids: &'a [u16; SLOTS],
    lengths: &'a [u16; SLOTS],
    occupied: u16,
    f: Frame,
    waits: &'a [u16; WAITS],
) -> bool
    ensures { result ≡ (waits_fit SLOTS waits.now occupied 0
        and shape_of ids.now lengths.now occupied f) }
{
    waits_fit(waits, occupied) && in_shape(ids, lengths, occupied, f)
}

// A step that is no quick one. If it closes the connection, what waits is dropped.
fn take_and_drop(
    c: Conn,
    store: &mut [u8],
    gathered: &mut [u8; QUERY],
    waits: &mut [u16; WAITS],
    piece: &[u8],
) -> Stepped
    requires { (length store.old ≡ STORE) × (in_shape c ≡ true) × (c.«open» ≡ true) }
    ensures { (stepped_by result gathered.new store.new
        ≡ advances (state_of c gathered.old) store.old piece.now
        (advanced c.frame.position piece.now)) × (in_shape result.conn ≡ true)
        × (waits.new ≡ kept_waits true result.conn.«open» waits.old) }
{
    let s = take_step(c, store, gathered, piece);
    keep_waits(waits, true, s.conn.open);
    s
}

// One step, or steps up to the next event where the call goes `on`. A step keeps the state's shape, so row 9 is tested
// before the first alone. Most steps over a long body take one of two quick ways: a header that goes on with a stream
// leaves the table as it is, and content that is shown changes a count, in place. (The count is read after the content
// is shown: read before, the table would be copied once more.)
fn steps(
    c: Conn,
    store: &mut [u8],
    gathered: &mut [u8; QUERY],
    waits: &mut [u16; WAITS],
    piece: &[u8],
    on: bool,
) -> Stepped
    ensures { (stepped_by result gathered.new store.new
        ≡ steps_beside (waits_fit SLOTS waits.old c.table.occupied 0) on
        (state_of c gathered.old) store.old piece.now)
        × (waits.new ≡ kept_waits c.«open» result.conn.«open» waits.old) }
{
    let mut t = c.table;
    let mut f = c.frame;
    let mut open = c.open;
    let mut result = Ok(Event::Nothing);
    let mut used: usize = 0;
    let n = piece.len();
    let fits = both_fit(&t.ids, &t.lengths, t.occupied, f, waits);
    let check = check_step(store.len(), fits, open, n);
    match check {
        StepCheck::Refused(why) => {
            result = Err(why);
        }
        StepCheck::Idle => {}
        StepCheck::Read => {
            let mut due = true;
            while due && !is_shown(f) {
                let q = pass_header(t, f, &piece[used..n]);
                if 0 < q.used {
                    used += q.used;
                    f = q.frame;
                    result = Ok(q.event);
                } else {
                    let conn = Conn {
                        table: t,
                        frame: f,
                        open,
                    };
                    let s = take_and_drop(conn, store, gathered, waits, &piece[used..n]);
                    let after = s.conn;
                    used += s.used;
                    t = after.table;
                    f = after.frame;
                    open = after.open;
                    result = s.result;
                }
                due = is_due(on, result, used, n);
            }
            if due {
                let s = show_content(&t.ids, f, &piece[used..n]);
                let i = s.slot;
                let before = Shown {
                    stdin: t.stdin_shown[i],
                    data: t.data_shown[i],
                };
                let shown = show_more(s.due, s.used, before);
                used += s.used;
                f = s.frame;
                t.stdin_shown[i] = shown.stdin;
                t.data_shown[i] = shown.data;
                result = Ok(s.event);
            }
        }
    }
    Stepped {
        used,
        result,
        conn: Conn {
            table: t,
            frame: f,
            open,
        },
    }
}

// One step over a piece.
pub fn step(c: Conn, store: &mut [u8], gathered: &mut [u8; QUERY], piece: &[u8]) -> Stepped
    ensures { stepped_by result gathered.new store.new
        ≡ stepped (state_of c gathered.old) store.old piece.now }
{
    let mut none = [0u16; WAITS];
    steps(c, store, gathered, &mut none, piece, false)
}

// Steps until something is told, a refusal, or the end of the piece. Of a data event the bytes are the last of those
// used.
pub fn next_event(c: Conn, store: &mut [u8], gathered: &mut [u8; QUERY], piece: &[u8]) -> Stepped
    ensures { stepped_by result gathered.new store.new
        ≡ next_event (state_of c gathered.old) store.old piece.now }
{
    let mut none = [0u16; WAITS];
    steps(c, store, gathered, &mut none, piece, true)
}

// A step, with what waits lent.
pub fn step_beside(
    c: Conn,
    store: &mut [u8],
    gathered: &mut [u8; QUERY],
    waits: &mut [u16; WAITS],
    piece: &[u8],
) -> Stepped
    ensures { (stepped_by result gathered.new store.new
        ≡ steps_beside (waits_fit SLOTS waits.old c.table.occupied 0) false
        (state_of c gathered.old) store.old piece.now)
        × (waits.new ≡ kept_waits c.«open» result.conn.«open» waits.old) }
{
    steps(c, store, gathered, waits, piece, false)
}

// Steps until something is told, with what waits lent.
pub fn next_beside(
    c: Conn,
    store: &mut [u8],
    gathered: &mut [u8; QUERY],
    waits: &mut [u16; WAITS],
    piece: &[u8],
) -> Stepped
    ensures { (stepped_by result gathered.new store.new
        ≡ steps_beside (waits_fit SLOTS waits.old c.table.occupied 0) true
        (state_of c gathered.old) store.old piece.now)
        × (waits.new ≡ kept_waits c.«open» result.conn.«open» waits.old) }
{
    steps(c, store, gathered, waits, piece, true)
}
