// Content bytes of a record, each given to what they are for. Of the table only the ids are lent.
#![tactic(auto)]

ghost use Rattle.std.specs.Prelude.{◌≡◌, List, ℕ, ◌+◌, ◌≤◌, length};
ghost use Rattle.wire.specs.Buffer.{copied};
ghost use Rattle.connection.specs.declared.state.Table.{Table};
ghost use Rattle.connection.specs.Sizes.{QUERY};
ghost use Rattle.connection.specs.Slots.{request_at};
ghost use Rattle.server.specs.declared.state.Target.{Target};
ghost use Rattle.server.specs.declared.event.ServerEvent.{ServerEvent};
ghost use Rattle.server.specs.Event.{Event};
ghost use Rattle.server.specs.Codes.{event_of};
ghost use Rattle.server.specs.Step.{on_target, of_values, taken};
ghost use Rattle.server.specs.Decision.{inner_in, applied};
ghost use Rattle.server_decision.specs.Decided.{goes_on};
ghost use Rattle.server_content.specs.Fed.{Fed};

use connection::answer::Output;
use connection::sizes::{QUERY, SLOTS};
use record::body::{EndBody, read_end_body, read_unknown_type};
use server::decision::{Change, Decision};
use server::event::ServerEvent;
use server::state::{Frame, Target};
use server_decision::{done_with, goes_on, of_list};
use wire::copy_into;

// Content that is skipped or shown: only what is left of it changes.
fn passing(f: Frame, left: usize, event: ServerEvent) -> Decision
    ensures { result ≡ goes_on left f.target f.gathered f.body event }
{
    let target = f.target;
    let body = f.body;
    goes_on(left, target, f.gathered, body, event)
}

// So many bytes of a request's output are shown.
fn of_output(f: Frame, id: u16, stream: Output, count: usize, left: usize) -> Decision
    ensures { result ≡ goes_on left f.target f.gathered f.body (ServerEvent.Output id stream count) }
{
    passing(
        f,
        left,
        ServerEvent::Output {
            id: id,
            stream: stream,
            count: count,
        },
    )
}

// The body of eight bytes with these bytes after those that are gathered.
fn body_with(f: Frame, bytes: &[u8]) -> [u8; 8]
    ensures { result ≡ copied f.body f.gathered bytes.now }
{
    let n = f.gathered;
    let mut body = f.body;
    copy_into(&mut body, n, bytes);
    body
}

// The body so far, with so many bytes more.
fn gathering(f: Frame, body: [u8; 8], more: usize, left: usize) -> Decision
    requires { f.gathered + more ≤ 8 }
    ensures { result ≡ goes_on left f.target (f.gathered + more) body ServerEvent.Nothing }
{
    let target = f.target;
    goes_on(left, target, f.gathered + more, body, ServerEvent::Nothing)
}

fn finished(id: u16, b: EndBody) -> ServerEvent
    ensures { event_of result ≡ Event.Finished id b.app_status b.protocol_status }
{
    ServerEvent::Finished {
        id: id,
        app_status: b.app_status,
        protocol_status: b.protocol_status,
    }
}

// END_REQUEST of the request in slot i: with the eighth byte its slot is given back.
fn of_end(f: Frame, i: usize, id: u16, bytes: &[u8], left: usize) -> Decision
    requires { f.gathered + length bytes.now ≤ 8 }
    ensures { (t : Table) (values : List ℕ) → (request_at t i).id ≡ id
        → applied result t values ≡ on_target (Target.End i) (inner_in t f values) bytes.now left }
{
    let body = body_with(f, bytes);
    if left == 0 {
        let event = finished(id, read_end_body(body));
        return done_with(Change::Free(i), event);
    }
    gathering(f, body, bytes.len(), left)
}

// UNKNOWN_TYPE: with the eighth byte the type is told.
fn of_unknown(f: Frame, bytes: &[u8], left: usize) -> Decision
    requires { f.gathered + length bytes.now ≤ 8 }
    ensures { (t : Table) (values : List ℕ) → applied result t values
        ≡ on_target Target.Unknown (inner_in t f values) bytes.now left }
{
    let body = body_with(f, bytes);
    if left == 0 {
        let kind = read_unknown_type(body);
        return done_with(Change::Keep, ServerEvent::Unknown { kind: kind });
    }
    gathering(f, body, bytes.len(), left)
}

// GET_VALUES_RESULT is gathered in the bytes that are lent for it, and told with its last byte.
fn of_values(f: Frame, values: &mut [u8], bytes: &[u8], left: usize) -> Decision
    requires { (f.gathered + length bytes.now ≤ QUERY) × (length values.old ≡ QUERY) }
    ensures { (t : Table) → applied result t values.new
        ≡ of_values (inner_in t f values.old) bytes.now left }
{
    let n = f.gathered;
    copy_into(values, n, bytes);
    let e = n + bytes.len();
    if left == 0 {
        let z: usize = 0;
        return of_list(&values[z..e]);
    }
    let target = f.target;
    let body = f.body;
    goes_on(left, target, e, body, ServerEvent::Nothing)
}

// Content bytes of the record being read, with so many left after them.
pub fn feed(
    ids: &[u16; SLOTS],
    f: Frame,
    values: &mut [u8; QUERY],
    bytes: &[u8],
    left: usize,
) -> Decision
    requires { Fed f.target f.gathered (length bytes.now) }
    ensures { (t : Table) → t.ids ≡ ids.now
        → applied result t values.new ≡ taken (inner_in t f values.old) bytes.now left }
{
    let target = f.target;
    match target {
        Target::Skip => passing(f, left, ServerEvent::Nothing),
        Target::Stdout(i) => {
            let slot = i as usize;
            let id = ids[slot];
            of_output(f, id, Output::Stdout, bytes.len(), left)
        }
        Target::Stderr(i) => {
            let slot = i as usize;
            let id = ids[slot];
            of_output(f, id, Output::Stderr, bytes.len(), left)
        }
        Target::End(i) => {
            let slot = i as usize;
            let id = ids[slot];
            of_end(f, slot, id, bytes, left)
        }
        Target::Values => of_values(f, values, bytes, left),
        Target::Unknown => of_unknown(f, bytes, left),
    }
}
