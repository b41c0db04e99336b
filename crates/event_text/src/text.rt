// The lines of events, made in a draft.
ghost use Rattle.std.specs.Prelude.{◌≡◌, [], ◌∷◌, ◌≤◌, length};
ghost use Rattle.connection.specs.Codes.{role_number, stream_type, status_number, fault_cause, close_cause, event_of};
ghost use Rattle.event_text.specs.Line.{LONGEST, decimal, cause_text, flag, role_word, stream_word, kept_word, line};
ghost use Rattle.event_text.specs.Line.{measure_word, event_line, byte_line};
ghost use Rattle.event_text.specs.Words.{open_word, ready_word, end_word, abort_word, refuse_word, fault_word};
ghost use Rattle.event_text.specs.Words.{query_word, unknown_word, closed_word};
ghost use Rattle.event_text.specs.Draft.{Says};

use crate::draft::{
    Draft, add, add_cause, add_hex, add_kept, add_measure, add_number, add_role, add_stream, begin,
    blank, finish,
};
use codes::{close_number, close_place, fault_number, fault_place, status_number};
use connection::event::{Close, Event, Fault, Measure, Status, Stream};
use connection::request::Role;

// A line of a word and one number.
fn line_of_one(word: &[u8], a: u16) -> Draft
    requires { length word.now ≤ 7 }
    ensures { Says result (line word.now (decimal a ∷ [])) LONGEST }
{
    finish(add_number(begin(word), a))
}

// A line of a word and two numbers.
fn line_of_two(word: &[u8], a: u16, b: u16) -> Draft
    requires { length word.now ≤ 7 }
    ensures { Says result (line word.now (decimal a ∷ decimal b ∷ [])) LONGEST }
{
    finish(add_number(add_number(begin(word), a), b))
}

fn open_line(id: u16, role: Role, keep: bool) -> Draft
    ensures { Says result (line open_word (decimal id ∷ role_word (role_number role) ∷ kept_word keep ∷ [])) LONGEST }
{
    let named = add_role(add_number(begin(b"open"), id), role);
    finish(add_kept(named, keep))
}

fn ready_line(id: u16, n: u16) -> Draft
    ensures { Says result (line ready_word (decimal id ∷ decimal n ∷ [])) LONGEST }
{
    line_of_two(b"ready", id, n)
}

fn end_line(id: u16, stream: Stream, measure: Measure) -> Draft
    ensures { Says result
        (line end_word (decimal id ∷ stream_word (stream_type stream) ∷ measure_word measure ∷ [])) LONGEST }
{
    let streamed = add_stream(add_number(begin(b"end"), id), stream);
    finish(add_measure(streamed, measure))
}

fn abort_line(id: u16) -> Draft
    ensures { Says result (line abort_word (decimal id ∷ [])) LONGEST }
{
    line_of_one(b"abort", id)
}

fn refuse_line(id: u16, status: Status) -> Draft
    ensures { Says result (line refuse_word (decimal id ∷ decimal (status_number status) ∷ [])) LONGEST }
{
    line_of_two(b"refuse", id, u16::from(status_number(status)))
}

fn fault_line(id: u16, fault: Fault) -> Draft
    ensures { Says result (line fault_word (decimal id ∷ cause_text (fault_cause fault) ∷ [])) LONGEST }
{
    let begun = add_number(begin(b"fault"), id);
    finish(add_cause(begun, u16::from(fault_number(fault)), fault_place(fault)))
}

fn flag_digit(named: bool) -> u8
    ensures { result ≡ flag named }
{
    if named { b'1' } else { b'0' }
}

fn query_line(conns: bool, reqs: bool, mpxs: bool) -> Draft
    ensures { Says result (line query_word ((flag conns ∷ flag reqs ∷ flag mpxs ∷ []) ∷ [])) LONGEST }
{
    let flags = [
        b' ',
        flag_digit(conns),
        flag_digit(reqs),
        flag_digit(mpxs),
        b'\n',
    ];
    add(begin(b"query"), &flags)
}

fn unknown_line(kind: u8) -> Draft
    ensures { Says result (line unknown_word (decimal kind ∷ [])) LONGEST }
{
    line_of_one(b"unknown", u16::from(kind))
}

fn closed_line(close: Close) -> Draft
    ensures { Says result (line closed_word (cause_text (close_cause close) ∷ [])) LONGEST }
{
    let number = u16::from(close_number(close));
    finish(add_cause(begin(b"closed"), number, close_place(close)))
}

#[tactic(auto, unfolding(crate::specs::Line::event_line))]
pub(crate) fn event_line(e: Event) -> Draft
    ensures { Says result (event_line (event_of e)) LONGEST }
{
    match e {
        Event::Nothing => blank(),
        Event::Open { id, role, keep } => open_line(id, role, keep),
        Event::Ready { id, length } => ready_line(id, length),
        Event::Data { .. } => blank(),
        Event::End {
            id,
            stream,
            measure,
        } => end_line(id, stream, measure),
        Event::Abort { id } => abort_line(id),
        Event::Refuse { id, status } => refuse_line(id, status),
        Event::Fault { id, fault } => fault_line(id, fault),
        Event::Query {
            max_conns,
            max_reqs,
            mpxs_conns,
        } => query_line(max_conns, max_reqs, mpxs_conns),
        Event::Unknown { kind } => unknown_line(kind),
        Event::Closed { cause } => closed_line(cause),
    }
}

#[tactic(auto, using(crate::proofs::DraftLaws::line_of_3), unfolding(crate::specs::Line::byte_line))]
pub(crate) fn byte_line(id: u16, stream: Stream, byte: u8) -> Draft
    ensures { Says result (byte_line id (stream_type stream) byte) LONGEST }
{
    let streamed = add_stream(add_number(begin(b"byte"), id), stream);
    finish(add_hex(streamed, byte))
}
