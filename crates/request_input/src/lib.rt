// What a record of an input stream does to one request. Each function is lent the request and its own
// area, and sees no other.
#![tactic(auto)]

ghost use Rattle.std.specs.Prelude.{◌≡◌, ◌≤◌, length};
ghost use Rattle.connection.specs.Request.{list_of, params_fault, params_ended, on_params, on_stdin, on_data, grown};
ghost use Rattle.connection.specs.Codes.{stream_due};
ghost use Rattle.connection.specs.Request.{measured, counts_on};
ghost use Rattle.stated_length.specs.Stated.{stated_in};
ghost use Rattle.request_fault.specs.Answer.{held, ruled_by};
ghost use Rattle.request_input.specs.Answer.{end_cause};

use connection::event::{Event, Fault, Measure, Stream};
use connection::request::{Due, Request, Turn};
use connection::sizes::AREA;
use pair_list::{Ending, list_ending};
use pair_repeats::list_repeats;
use request_fault::{Ruling, end_turn, fault};
use request_state::{after_params, after_stdin, show_more, with_shown};
use stated_length::stated_in;
use std::cmp::Ordering;
use wire::copy_into;

// The list of a request, in its area.
fn own_list<'a>(r: Request, area: &'a [u8]) -> &'a [u8]
    ensures { result.now ≡ list_of (held r area.now) }
{
    &area[..area.len().min(r.length as usize)]
}

// What it comes to for a list: a fault if the list is malformed, else a fault if it repeats a name, else ready.
#[tactic(auto, using(pair_list::proofs::ListLaws::ended_formed, pair_list::proofs::ListLaws::broken_formed), unfolding(connection::specs::Request::params_fault))]
fn list_end(list: &[u8]) -> Result<(), Fault>
    requires { length list.now ≤ 65535 }
    ensures { end_cause result ≡ params_fault list.now }
{
    if let Ending::Malformed(place) = list_ending(list) {
        return Err(Fault::Malformed { at: place as u16 });
    }
    if list_repeats(list) {
        return Err(Fault::Repeated);
    }
    Ok(())
}

// The end of PARAMS: the request is ready, or it has a fault.
#[tactic(auto, unfolding(connection::specs::Request::params_ended))]
fn end_params(r: Request, area: &mut [u8]) -> Ruling
    ensures { ruled_by result area.new ≡ params_ended (held r area.old) }
{
    match list_end(own_list(r, area)) {
        Err(why) => fault(r, area, why),
        Ok(()) => {
            let ready = Event::Ready {
                id: r.id,
                length: r.length,
            };
            end_turn(r, area, after_params(r.state.role), ready)
        }
    }
}

// PARAMS with n content bytes.
#[tactic(auto, unfolding(connection::specs::Request::on_params))]
pub fn on_params(r: Request, area: &mut [u8], n: u16) -> Ruling
    ensures { ruled_by result area.new ≡ on_params n (held r area.old) }
{
    if AREA < r.length as usize + n as usize {
        return fault(r, area, Fault::TooLong);
    }
    if n == 0 {
        return end_params(r, area);
    }
    Ruling {
        request: r,
        due: Due::Params,
        event: Event::Nothing,
    }
}

// A count against a stated length.
#[tactic(auto, unfolding(connection::specs::Request::measured))]
fn measure(count: u32, stated: Option<u32>) -> Measure
    ensures { result ≡ measured count stated }
{
    let Some(stated) = stated else {
        return Measure::Unstated;
    };
    match count.cmp(&stated) {
        Ordering::Less => Measure::Short,
        Ordering::Equal => Measure::Exact,
        Ordering::Greater => Measure::Over,
    }
}

// A count against the length that the request's list states under a name.
fn own_measure<'a>(r: Request, area: &'a [u8], name: &'a [u8], count: u32) -> Measure
    ensures { result ≡ measured count (stated_in (list_of (held r area.now)) name.now) }
{
    measure(count, stated_in(own_list(r, area), name))
}

// STDIN with n content bytes.
#[tactic(auto, unfolding(connection::specs::Request::on_stdin))]
pub fn on_stdin(r: Request, area: &mut [u8], n: u16) -> Ruling
    ensures { ruled_by result area.new ≡ on_stdin n (held r area.old) }
{
    if n == 0 {
        let measure = own_measure(r, area, b"CONTENT_LENGTH", r.state.shown.stdin);
        let end = Event::End {
            id: r.id,
            stream: Stream::Stdin,
            measure,
        };
        return end_turn(r, area, after_stdin(r.state.role), end);
    }
    Ruling {
        request: r,
        due: Due::Stdin,
        event: Event::Nothing,
    }
}

// DATA with n content bytes.
#[tactic(auto, unfolding(connection::specs::Request::on_data))]
pub fn on_data(r: Request, area: &mut [u8], n: u16) -> Ruling
    ensures { ruled_by result area.new ≡ on_data n (held r area.old) }
{
    if n == 0 {
        let measure = own_measure(r, area, b"FCGI_DATA_LENGTH", r.state.shown.data);
        let end = Event::End {
            id: r.id,
            stream: Stream::Data,
            measure,
        };
        return end_turn(r, area, Turn::Done, end);
    }
    Ruling {
        request: r,
        due: Due::Data,
        event: Event::Nothing,
    }
}

// PARAMS content for this request: into its area, after what it holds.
#[tactic(auto, unfolding(connection::specs::Request::grown))]
pub fn grow(r: Request, area: &mut [u8], bytes: &[u8]) -> Request
    ensures { held result area.new ≡ grown (held r area.old) bytes.now }
{
    let had = r.length as usize;
    let length = had.saturating_add(bytes.len());
    if AREA < length {
        return r;
    }
    copy_into(area, had, bytes);
    Request {
        length: length as u16,
        ..r
    }
}

// STDIN or DATA content for this request: n bytes are shown, and counted.
pub fn count_shown(r: Request, due: Due, n: usize) -> Request
    ensures { result ≡ counts_on due n r }
{
    let shown = show_more(due, n, r.state.shown);
    Request {
        state: with_shown(r.state, shown),
        ..r
    }
}

// What the content of a stream is due to.
pub fn stream_due(stream: Stream) -> Due
    ensures { result ≡ stream_due stream }
{
    match stream {
        Stream::Stdin => Due::Stdin,
        Stream::Data => Due::Data,
    }
}
