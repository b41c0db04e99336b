// Rules 6 to 10: what a record does to a request that is active and not spent. The functions take the request's entry
// by value and its list as a slice. n is the content length in the header, x the content, or as much as there is.
ghost use Rattle.std.specs.Prelude.{◌≡◌, true, List, ℕ, ◌≤◌, length};
ghost use Rattle.connection.specs.Codes.{event_of, fault_cause, stream_type};
ghost use Rattle.stated_length.specs.Stated.{stated_in};
ghost use Rattle.plain.specs.Plain.{on_live, is_stream, on_stream, on_params, params_end, on_body, length_name};
ghost use Rattle.plain.specs.Plain.{against as measured, fault as faulted, abort as aborted};
ghost use Rattle.plain.specs.Plain.{ends as ended, next_turn};
ghost use Rattle.plain.specs.Code.{request_of, change};
ghost use Rattle.plain.specs.Promise.{Live, Becomes};

use crate::table::{ABORT, AREA, BEGIN, DATA, Entry, PARAMS, STDIN, Tells};
use connection::event::{Event, Fault, Measure, Stream};
use pair_list::{Ending, list_ending};
use pair_repeats::list_repeats;
use stated_length::stated_in;
use std::cmp::Ordering;

// The entry after a record, by how many bytes of the content its list grows, and what the record tells.
#[derive(Clone, Copy)]
pub struct Change {
    pub after: Entry,
    pub kept: usize,
    pub tells: Tells,
}

// Rules 6 and 10: the record's type.
pub fn on_live(e: Entry, list: &[u8], kind: u8, n: u16, x: &[u8]) -> Change
    requires { (Live e list.now) × (length x.now ≤ n) }
    ensures { Becomes e list.now x.now result
        (on_live (request_of e list.now) kind n x.now) }
{
    match kind {
        BEGIN => fault(e, Fault::BeginAgain),
        ABORT => abort(e),
        PARAMS | STDIN | DATA => on_stream(e, list, kind, n, x),
        _ => fault(e, Fault::WrongType),
    }
}

// Rule 7: a stream out of turn is a fault, even if the record is empty.
fn on_stream(e: Entry, list: &[u8], kind: u8, n: u16, x: &[u8]) -> Change
    requires { (Live e list.now) × (length x.now ≤ n) × (is_stream kind ≡ true) }
    ensures { Becomes e list.now x.now result
        (on_stream (request_of e list.now) kind n x.now) }
{
    if kind != e.turn {
        return fault(e, Fault::OutOfTurn);
    }
    match kind {
        PARAMS => on_params(e, list, n, x),
        STDIN => on_body(e, list, Stream::Stdin, n, x),
        _ => on_body(e, list, Stream::Data, n, x),
    }
}

// Rule 8: PARAMS in its turn.
fn on_params(e: Entry, list: &[u8], n: u16, x: &[u8]) -> Change
    requires { (Live e list.now) × (length x.now ≤ n) }
    ensures { Becomes e list.now x.now result
        (on_params (request_of e list.now) n x.now) }
{
    if AREA < list.len() + n as usize {
        return fault(e, Fault::TooLong);
    }
    if n == 0 {
        return params_end(e, list);
    }
    let length = (list.len() + x.len()) as u16;
    changed(Entry { length, ..e }, x.len(), Tells::Nothing)
}

// PARAMS end: the list is malformed, or else a name comes twice in it, or else it is ready.
fn params_end(e: Entry, list: &[u8]) -> Change
    requires { Live e list.now }
    ensures { (x : List ℕ) → Becomes e list.now x result
        (params_end (request_of e list.now)) }
{
    if let Ending::Malformed(place) = list_ending(list) {
        let at = place as u16;
        return fault(e, Fault::Malformed { at });
    }
    if list_repeats(list) {
        return fault(e, Fault::Repeated);
    }
    ends(
        e,
        Event::Ready {
            id: e.id,
            length: e.length,
        },
    )
}

// Rule 9: STDIN or DATA in its turn.
fn on_body(e: Entry, list: &[u8], stream: Stream, n: u16, x: &[u8]) -> Change
    requires { Live e list.now }
    ensures { Becomes e list.now x.now result
        (on_body (request_of e list.now) (stream_type stream) n x.now) }
{
    let id = e.id;
    if n == 0 {
        let measure = against(e.shown, stated_for(list, stream));
        return ends(
            e,
            Event::End {
                id,
                stream,
                measure,
            },
        );
    }
    let shown = e.shown + x.len();
    changed(Entry { shown, ..e }, 0, Tells::Bytes { id, stream })
}

// The length that the list states for a stream.
fn stated_for(list: &[u8], stream: Stream) -> Option<u32>
    ensures { result ≡ stated_in list.now (length_name (stream_type stream)) }
{
    match stream {
        Stream::Stdin => stated_in(list, b"CONTENT_LENGTH"),
        Stream::Data => stated_in(list, b"FCGI_DATA_LENGTH"),
    }
}

// What was shown against that length.
#[tactic(auto, unfolding(crate::specs::Plain::against))]
fn against(shown: usize, stated: Option<u32>) -> Measure
    ensures { result ≡ measured shown stated }
{
    let Some(length) = stated else {
        return Measure::Unstated;
    };
    match shown.cmp(&(length as usize)) {
        Ordering::Less => Measure::Short,
        Ordering::Equal => Measure::Exact,
        Ordering::Greater => Measure::Over,
    }
}

// A fault spends the request, and its parameters and counts are lost.
fn fault(e: Entry, fault: Fault) -> Change
    ensures { (list x : List ℕ) → Live e list → Becomes e list x result
        (faulted (request_of e list) (fault_cause fault)) }
{
    let after = Entry {
        spent: true,
        length: 0,
        shown: 0,
        ..e
    };
    changed(after, 0, Tells::Event(Event::Fault { id: e.id, fault }))
}

// An abort spends it, and nothing is lost.
fn abort(e: Entry) -> Change
    ensures { (list x : List ℕ) → Live e list → Becomes e list x result (aborted (request_of e list)) }
{
    let after = Entry { spent: true, ..e };
    changed(after, 0, Tells::Event(Event::Abort { id: e.id }))
}

// A stream ends, and the next one has the turn.
fn ends(e: Entry, event: Event) -> Change
    ensures { (list x : List ℕ) → Live e list → Becomes e list x result
        (ended (request_of e list) (event_of event)) }
{
    let turn = next_turn(e.role, e.turn);
    changed(
        Entry {
            turn,
            shown: 0,
            ..e
        },
        0,
        Tells::Event(event),
    )
}

// After PARAMS comes STDIN, but not for an authorizer (role 2); after STDIN comes DATA for a filter (role 3) alone.
#[tactic(auto, unfolding(crate::specs::Plain::next_turn))]
fn next_turn(role: u16, turn: u8) -> u8
    ensures { result ≡ next_turn role turn }
{
    match turn {
        PARAMS => if role == 2 { 0 } else { STDIN },
        STDIN => if role == 3 { DATA } else { 0 },
        _ => 0,
    }
}

fn changed(after: Entry, kept: usize, tells: Tells) -> Change
    ensures { result ≡ change after kept tells }
{
    Change { after, kept, tells }
}
