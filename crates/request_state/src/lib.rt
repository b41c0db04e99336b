// The state of one request: the turn of its streams, and whether it is spent.
#![tactic(auto)]

ghost use Rattle.std.specs.Prelude.{◌≡◌};
ghost use Rattle.connection.specs.Request.{with_turn, with_life, with_shown, counted, shown_more, is_spent};
ghost use Rattle.connection.specs.Request.{after_params, after_stdin, turn_type, opened};
ghost use Rattle.connection.specs.RequestCalls.{in_params, is_faulted};

use connection::request::{Due, Life, Request, RequestState, Role, Shown, Turn};
use record::names;

#[tactic(auto, unfolding(connection::specs::Request::with_turn))]
pub fn with_turn(state: RequestState, turn: Turn) -> RequestState
    ensures { result ≡ with_turn state turn }
{
    RequestState { turn, ..state }
}

#[tactic(auto, unfolding(connection::specs::Request::with_life))]
pub fn with_life(state: RequestState, life: Life) -> RequestState
    ensures { result ≡ with_life state life }
{
    RequestState { life, ..state }
}

// With what was shown of its input.
pub fn with_shown(state: RequestState, shown: Shown) -> RequestState
    ensures { result ≡ with_shown state shown }
{
    RequestState { shown, ..state }
}

// A count, n bytes later: it stays at its largest number.
#[tactic(auto, unfolding(connection::specs::Request::counted))]
fn count_on(count: u32, n: usize) -> u32
    ensures { result ≡ counted count n }
{
    u32::try_from((count as usize).saturating_add(n)).unwrap_or(u32::MAX)
}

// What was shown, n bytes of that content later.
pub fn show_more(due: Due, n: usize, shown: Shown) -> Shown
    ensures { result ≡ shown_more due n shown }
{
    match due {
        Due::Skip | Due::Params => shown,
        Due::Stdin => Shown {
            stdin: count_on(shown.stdin, n),
            ..shown
        },
        Due::Data => Shown {
            data: count_on(shown.data, n),
            ..shown
        },
    }
}

// Whether a request is faulted or aborted.
pub fn is_spent(life: Life) -> bool
    ensures { result ≡ is_spent life }
{
    matches!(life, Life::Faulted | Life::Aborted)
}

pub fn after_params(role: Role) -> Turn
    ensures { result ≡ after_params role }
{
    match role {
        Role::Responder | Role::Filter => Turn::Stdin,
        Role::Authorizer => Turn::Done,
    }
}

pub fn after_stdin(role: Role) -> Turn
    ensures { result ≡ after_stdin role }
{
    match role {
        Role::Responder | Role::Authorizer => Turn::Done,
        Role::Filter => Turn::Data,
    }
}

pub fn turn_type(turn: Turn) -> u8
    ensures { result ≡ turn_type turn }
{
    match turn {
        Turn::Params => names::PARAMS,
        Turn::Stdin => names::STDIN,
        Turn::Data => names::DATA,
        Turn::Done => 0,
    }
}

// An opened request.
#[tactic(auto, unfolding(connection::specs::Request::opened))]
pub fn open_request(id: u16, role: Role, keep: bool) -> Request
    ensures { result ≡ opened id role keep }
{
    Request {
        id,
        length: 0,
        state: RequestState {
            role,
            turn: Turn::Params,
            life: Life::Live,
            keep,
            out_ended: false,
            err_used: false,
            err_ended: false,
            shown: Shown { stdin: 0, data: 0 },
        },
    }
}

// PARAMS has not ended.
pub fn in_params(turn: Turn) -> bool
    ensures { result ≡ in_params turn }
{
    turn == Turn::Params
}

// A faulted request has lost its parameters.
pub fn is_faulted(life: Life) -> bool
    ensures { result ≡ is_faulted life }
{
    life == Life::Faulted
}
