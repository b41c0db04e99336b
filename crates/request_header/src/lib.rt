// Rules 5 to 10: what a header does to the request that it names.
#![tactic(auto)]

ghost use Rattle.std.specs.Prelude.{◌≡◌};
ghost use Rattle.connection.specs.Request.{in_turn, is_input, on_input, on_live, on_header};
ghost use Rattle.request_fault.specs.Answer.{held, ruled_by};

use connection::event::{Event, Fault};
use connection::request::{Due, Request, Turn};
use record::names;
use request_fault::{Ruling, abort, fault};
use request_input::{on_data, on_params, on_stdin};
use request_state::{is_spent, turn_type};

// PARAMS, STDIN or DATA.
fn is_input(kind: u8) -> bool
    ensures { result ≡ is_input kind }
{
    matches!(kind, names::PARAMS | names::STDIN | names::DATA)
}

// A record of the stream whose turn it is.
fn in_turn(r: Request, area: &mut [u8], turn: Turn, n: u16) -> Ruling
    ensures { ruled_by result area.new ≡ in_turn turn n (held r area.old) }
{
    match turn {
        Turn::Params => on_params(r, area, n),
        Turn::Stdin => on_stdin(r, area, n),
        Turn::Data => on_data(r, area, n),
        Turn::Done => fault(r, area, Fault::OutOfTurn),
    }
}

// A record of an input stream.
#[tactic(auto, unfolding(connection::specs::Request::on_input))]
fn on_input(r: Request, area: &mut [u8], kind: u8, n: u16) -> Ruling
    ensures { ruled_by result area.new ≡ on_input kind n (held r area.old) }
{
    let turn = r.state.turn;
    if kind == turn_type(turn) {
        return in_turn(r, area, turn, n);
    }
    fault(r, area, Fault::OutOfTurn)
}

// A header for a request that is not spent.
#[tactic(auto, unfolding(connection::specs::Request::on_live))]
fn on_live(r: Request, area: &mut [u8], kind: u8, n: u16) -> Ruling
    ensures { ruled_by result area.new ≡ on_live kind n (held r area.old) }
{
    if kind == names::BEGIN_REQUEST {
        return fault(r, area, Fault::BeginAgain);
    }
    if kind == names::ABORT_REQUEST {
        return abort(r, area);
    }
    if is_input(kind) {
        return on_input(r, area, kind, n);
    }
    fault(r, area, Fault::WrongType)
}

// A header of that type, with n content bytes, for this request. Its area is lent.
#[tactic(auto, unfolding(connection::specs::Request::on_header))]
pub fn on_header(r: Request, area: &mut [u8], kind: u8, n: u16) -> Ruling
    ensures { ruled_by result area.new ≡ on_header kind n (held r area.old) }
{
    if is_spent(r.state.life) {
        return Ruling {
            request: r,
            due: Due::Skip,
            event: Event::Nothing,
        };
    }
    on_live(r, area, kind, n)
}
