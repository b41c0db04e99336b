// How one request is changed by a fault, an abort or the end of a stream. Each function is lent the request and its own
// area, and sees no other.
#![tactic(auto)]

ghost use Rattle.std.specs.Prelude.{◌≡◌};
ghost use Rattle.connection.specs.Codes.{event_of, fault_cause};
ghost use Rattle.connection.specs.Request.{faulted, aborted, turned};
ghost use Rattle.request_fault.specs.Answer.{held, ruled_by};

use connection::event::{Event, Fault};
use connection::request::{Due, Life, Request, Shown, Turn};
use request_state::{with_life, with_shown, with_turn};
use wire::clear;

// What a header does to its request: the request afterwards, where its content goes, and the event.
#[derive(Clone, Copy)]
pub struct Ruling {
    pub request: Request,
    pub due: Due,
    pub event: Event,
}

// A fault zeroes the area and the counts and spends the request.
#[tactic(auto, unfolding(connection::specs::Request::faulted))]
pub fn fault(r: Request, area: &mut [u8], fault: Fault) -> Ruling
    ensures { ruled_by result area.new ≡ faulted (held r area.old) (fault_cause fault) }
{
    clear(area);
    let spent = with_life(r.state, Life::Faulted);
    Ruling {
        request: Request {
            length: 0,
            state: with_shown(spent, Shown { stdin: 0, data: 0 }),
            ..r
        },
        due: Due::Skip,
        event: Event::Fault { id: r.id, fault },
    }
}

// An abort spends the request; its area and its counts stay.
#[tactic(auto, unfolding(connection::specs::Request::aborted))]
pub fn abort(r: Request, area: &mut [u8]) -> Ruling
    ensures { ruled_by result area.new ≡ aborted (held r area.old) }
{
    Ruling {
        request: Request {
            state: with_life(r.state, Life::Aborted),
            ..r
        },
        due: Due::Skip,
        event: Event::Abort { id: r.id },
    }
}

// A stream ends: the turn moves on.
#[tactic(auto, unfolding(connection::specs::Request::turned))]
pub fn end_turn(r: Request, area: &mut [u8], turn: Turn, event: Event) -> Ruling
    ensures { ruled_by result area.new ≡ turned (held r area.old) turn (event_of event) }
{
    Ruling {
        request: Request {
            state: with_turn(r.state, turn),
            ..r
        },
        due: Due::Skip,
        event,
    }
}
