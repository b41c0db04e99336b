// What headers and content decide alike: that a record goes on, that nothing is left of it, that a list of values is
// whole, and that the connection closes.
#![tactic(auto)]

ghost use Rattle.std.specs.Prelude.{◌≡◌, List, ℕ, ◌≤◌, length};
ghost use Rattle.connection.specs.declared.state.Table.{Table};
ghost use Rattle.server.specs.declared.state.Frame.{Frame};
ghost use Rattle.server.specs.Codes.{close_number};
ghost use Rattle.server.specs.Step.{target_if, closes, valued};
ghost use Rattle.server.specs.Decision.{inner_in, applied};
ghost use Rattle.server_decision.specs.Decided.{goes_on, done_with};

use pair_list::{Ending, list_ending};
use server::decision::{Change, Decision};
use server::event::{ServerClose, ServerEvent};
use server::state::Target;

// With its content used up a record's target is forgotten.
pub fn target_if(left: usize, target: Target) -> Target
    ensures { result ≡ target_if left target }
{
    if left == 0 { Target::Skip } else { target }
}

// A record goes on, with so many bytes of a body gathered; nothing else changes.
pub fn goes_on(
    left: usize,
    target: Target,
    gathered: usize,
    body: [u8; 8],
    event: ServerEvent,
) -> Decision
    ensures { result ≡ goes_on left target gathered body event }
{
    Decision {
        change: Change::Keep,
        target: target_if(left, target),
        gathered,
        body,
        event,
    }
}

// Nothing is left of a record but its padding.
pub fn done_with(change: Change, event: ServerEvent) -> Decision
    ensures { result ≡ done_with change event }
{
    Decision {
        change,
        target: Target::Skip,
        gathered: 0,
        body: [0; 8],
        event,
    }
}

// The connection closes.
pub fn closing(cause: ServerClose) -> Decision
    ensures { (t : Table) (f : Frame) (values : List ℕ) → applied result t values
        ≡ closes (inner_in t f values) (close_number cause) }
{
    done_with(Change::Close, ServerEvent::Closed { cause })
}

// A list of values whose last byte is in: malformed, it closes the connection by 55.
pub fn of_list(list: &[u8]) -> Decision
    requires { length list.now ≤ 65535 }
    ensures { (t : Table) (f : Frame) (values : List ℕ) → applied result t values
        ≡ valued (inner_in t f values) list.now }
{
    match list_ending(list) {
        Ending::End => done_with(
            Change::Keep,
            ServerEvent::Values {
                length: list.len() as u16,
            },
        ),
        Ending::Malformed(_) => closing(ServerClose::Values),
    }
}
