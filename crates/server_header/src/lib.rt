// The eighth byte of a header: it is whole, and judged by rows 51 to 56 in their order. Of the table it is given only
// the ids and three words.
#![tactic(auto)]

ghost use Rattle.std.specs.Prelude.{◌≡◌, List, ℕ, ◌<◌};
ghost use Rattle.connection.specs.declared.state.Table.{Table};
ghost use Rattle.connection.specs.Sizes.{SLOTS};
ghost use Rattle.connection.specs.RequestCalls.{is_ended};
ghost use Rattle.connection.specs.Slots.{request_at};
ghost use Rattle.server_header.specs.declared.Owner.{Owner};
ghost use Rattle.server.specs.declared.state.Frame.{Frame};
ghost use Rattle.server.specs.Step.{is_management, is_reply, output_target, on_management, on_output, on_request, judged};
ghost use Rattle.server.specs.Decision.{inner_in, applied};
ghost use Rattle.server_header.specs.Rows.{Seen, owner_in, is_known, checked_header, output_row, by_owner};

use connection::answer::Output;
use connection::sizes::{QUERY, SLOTS};
use record::header::Header;
use record::names;
use server::decision::{Change, Decision};
use server::event::{ServerClose, ServerEvent};
use server::state::Target;
use server_decision::{closing, done_with, goes_on, of_list};
use slot_table::find_from;
use slot_word::is_taken;

// The words of a table that a header is judged by: the slots that are taken, those whose STDOUT is ended, those whose
// STDERR is.
#[derive(Clone, Copy)]
pub struct Words {
    pub occupied: u16,
    pub out_ended: u16,
    pub err_ended: u16,
}

// Whom a record is for: the connection, the request of a slot, or nobody that is known here.
// Three ways, since a record of the connection has no slot and is still for somebody.
#[derive(Debug, Clone, Copy, PartialEq, Eq)]
enum Owner {
    Connection,
    Request(usize),
    Nobody,
}

// What a record of output is: too late, the end of its stream, or content to show.
// Three ways: each is answered by an event of its own.
#[derive(Debug, Clone, Copy, PartialEq, Eq)]
enum OutputRow {
    TooLate,
    Ends,
    Shows,
}

fn is_management(kind: u8) -> bool
    ensures { result ≡ is_management kind }
{
    matches!(kind, names::GET_VALUES_RESULT | names::UNKNOWN_TYPE)
}

fn is_reply(kind: u8) -> bool
    ensures { result ≡ is_reply kind }
{
    matches!(kind, names::END_REQUEST | names::STDOUT | names::STDERR) || is_management(kind)
}

// Management records have id 0; any other is for the request of its id.
fn owner_of(ids: &[u16; SLOTS], occupied: u16, kind: u8, id: u16) -> Owner
    ensures { result ≡ owner_in ids.now occupied kind id }
{
    if is_management(kind) {
        if id == 0 {
            return Owner::Connection;
        }
        return Owner::Nobody;
    }
    match find_from(ids, occupied, id, 0) {
        Some(i) => Owner::Request(i),
        None => Owner::Nobody,
    }
}

fn is_known(owner: Owner) -> bool
    ensures { result ≡ is_known owner }
{
    !matches!(owner, Owner::Nobody)
}

// Rows 51, 52 and 53: the first that holds.
#[tactic(auto, unfolding(crate::specs::Rows::checked_header))]
fn check_header(version: u8, reply: bool, known: bool) -> Result<(), ServerClose>
    ensures { result ≡ checked_header version reply known }
{
    if version != names::VERSION {
        return Err(ServerClose::Version);
    }
    if !reply {
        return Err(ServerClose::NoReply);
    }
    if !known {
        return Err(ServerClose::NotOpen);
    }
    Ok(())
}

// UNKNOWN_TYPE has 8 bytes (54), GET_VALUES_RESULT at most QUERY (55); an empty result is told at once.
fn on_management(kind: u8, n: usize) -> Decision
    ensures { (t : Table) (f : Frame) (values : List ℕ) → applied result t values
        ≡ on_management (inner_in t f values) kind n }
{
    if kind == names::UNKNOWN_TYPE {
        if n == 8 {
            return goes_on(n, Target::Unknown, 0, [0; 8], ServerEvent::Nothing);
        }
        return closing(ServerClose::BodyLength);
    }
    if QUERY < n {
        return closing(ServerClose::Values);
    }
    if n == 0 {
        return of_list(b"");
    }
    goes_on(n, Target::Values, 0, [0; 8], ServerEvent::Nothing)
}

// Row 56 comes first: of a stream that is ended an empty record is too late, too.
fn output_row(ended: bool, bytes: usize) -> OutputRow
    ensures { result ≡ output_row ended bytes }
{
    if ended {
        return OutputRow::TooLate;
    }
    if bytes == 0 {
        return OutputRow::Ends;
    }
    OutputRow::Shows
}

fn output_target(output: Output, i: usize) -> Target
    requires { i < SLOTS }
    ensures { result ≡ output_target output i }
{
    match output {
        Output::Stdout => Target::Stdout(i as u8),
        Output::Stderr => Target::Stderr(i as u8),
    }
}

// A record of output of the request in slot i, whose stream is ended or not.
fn on_output(output: Output, ended: bool, n: usize, i: usize, id: u16) -> Decision
    requires { i < SLOTS }
    ensures { (t : Table) (f : Frame) (values : List ℕ) → (request_at t i).id ≡ id
        → is_ended output (request_at t i).state ≡ ended
        → applied result t values ≡ on_output (inner_in t f values) output n i }
{
    match output_row(ended, n) {
        OutputRow::TooLate => closing(ServerClose::StreamEnded),
        OutputRow::Ends => done_with(
            Change::EndStream(i, output),
            ServerEvent::Ended { id, stream: output },
        ),
        OutputRow::Shows => goes_on(n, output_target(output, i), 0, [0; 8], ServerEvent::Nothing),
    }
}

// END_REQUEST, which has 8 bytes (54), or output.
fn on_request(kind: u8, n: usize, i: usize, id: u16, w: Words) -> Decision
    requires { i < SLOTS }
    ensures { (t : Table) (f : Frame) (values all : List ℕ) → Seen t all w → (request_at t i).id ≡ id
        → applied result t values ≡ on_request (inner_in t f values) kind n i }
{
    if kind == names::END_REQUEST {
        if n == 8 {
            return goes_on(n, Target::End(i as u8), 0, [0; 8], ServerEvent::Nothing);
        }
        return closing(ServerClose::BodyLength);
    }
    if kind == names::STDOUT {
        return on_output(Output::Stdout, is_taken(w.out_ended, i), n, i, id);
    }
    on_output(Output::Stderr, is_taken(w.err_ended, i), n, i, id)
}

// A record by whom it is for.
fn by_owner(owner: Owner, h: Header, w: Words) -> Decision
    requires { (i : ℕ) → owner ≡ Owner.Request i → i < SLOTS }
    ensures { (t : Table) (f : Frame) (values all : List ℕ) → Seen t all w
        → ((i : ℕ) → owner ≡ Owner.Request i → (request_at t i).id ≡ h.id)
        → applied result t values ≡ by_owner owner (inner_in t f values) h.kind h.content }
{
    let n = h.content as usize;
    match owner {
        Owner::Connection => on_management(h.kind, n),
        Owner::Request(i) => on_request(h.kind, n, i, h.id, w),
        Owner::Nobody => closing(ServerClose::NotOpen),
    }
}

// A header that is whole.
pub fn judge(ids: &[u16; SLOTS], w: Words, h: Header) -> Decision
    ensures { (t : Table) (f : Frame) (values : List ℕ) → Seen t ids.now w
        → applied result t values ≡ judged (inner_in t f values) h }
{
    let owner = owner_of(ids, w.occupied, h.kind, h.id);
    match check_header(h.version, is_reply(h.kind), is_known(owner)) {
        Err(cause) => closing(cause),
        Ok(()) => by_owner(owner, h, w),
    }
}
