// The answers of the calls that read, as numbers.
ghost use Rattle.std.specs.Prelude.{◌≡◌, []};
ghost use Rattle.connection.specs.Codes.{refusal_number};
ghost use Rattle.call_start.specs.Answer.{start_number, started_by};
ghost use Rattle.conn_step.specs.Answer.{stepped_by};
ghost use Rattle.call_value.specs.Answer.{numbered_by};
ghost use Rattle.call_walk.specs.Place.{read_by};
ghost use Rattle.call_request.specs.Answer.{request_by};
ghost use Rattle.call_count.specs.Answer.{counted_by};
ghost use Rattle.queue_place.specs.Lies.{lies_by};
ghost use Rattle.flat_answer.specs.ReadAnswers.{flat_started, flat_place, no_place, pair_flat, no_pair};
ghost use Rattle.flat_answer.specs.ReadAnswers.{flat_numbered, flat_read_from, request_flat, no_request, flat_request};
ghost use Rattle.flat_answer.specs.ReadAnswers.{flat_count, no_count, flat_stepped, unstepped};

use crate::answer::{FlatCount, FlatPair, FlatPlace, FlatRequest, FlatStarted, FlatStepped};
use codes::{refusal_number, role_number};
use connection::answer::{Refusal, Started, Stepped};
use connection::event::Event;
use connection::request::Request;
use flat_event::to_flat_event;
use flat_state::{FlatState, life_number, to_flat, turn_number};
use pairs::pair::{Pair, Read};

// The number of a refusal, 0 for none.
pub fn refusal_or_none(answer: Result<(), Refusal>) -> u8
    ensures { result ≡ start_number answer }
{
    match answer {
        Ok(()) => 0,
        Err(why) => refusal_number(why),
    }
}

#[tactic(auto, unfolding(crate::specs::ReadAnswers::flat_started))]
pub fn flat_started(s: Started) -> FlatStarted
    ensures { result ≡ flat_started (started_by s [] []) }
{
    FlatStarted {
        state: to_flat(s.conn),
        refusal: refusal_or_none(s.result),
    }
}

#[tactic(auto, unfolding(crate::specs::ReadAnswers::flat_stepped))]
pub fn flat_stepped(s: Stepped) -> FlatStepped
    ensures { result ≡ flat_stepped (stepped_by s [] []) }
{
    let state = to_flat(s.conn);
    match s.result {
        Ok(e) => FlatStepped {
            used: s.used,
            event: to_flat_event(e),
            state,
            refusal: 0,
        },
        Err(why) => FlatStepped {
            used: s.used,
            ..no_step(state, why)
        },
    }
}

pub fn no_step(state: FlatState, why: Refusal) -> FlatStepped
    ensures { result ≡ unstepped state (refusal_number why) }
{
    FlatStepped {
        used: 0,
        event: to_flat_event(Event::Nothing),
        state,
        refusal: refusal_number(why),
    }
}

pub fn no_place(why: Refusal) -> FlatPlace
    ensures { result ≡ no_place (refusal_number why) }
{
    FlatPlace {
        offset: 0,
        length: 0,
        refusal: refusal_number(why),
        found: 0,
    }
}

#[tactic(auto, unfolding(crate::specs::ReadAnswers::flat_place))]
pub fn flat_place(place: Result<Option<(usize, usize)>, Refusal>) -> FlatPlace
    ensures { result ≡ flat_place (lies_by place) }
{
    match place {
        Ok(Some((offset, length))) => FlatPlace {
            offset,
            length,
            refusal: 0,
            found: 1,
        },
        Ok(None) => FlatPlace {
            offset: 0,
            length: 0,
            refusal: 0,
            found: 0,
        },
        Err(why) => no_place(why),
    }
}

fn pair_of(p: Pair, next: usize) -> FlatPair
    ensures { result ≡ pair_flat p next }
{
    FlatPair {
        name: p.name,
        name_len: p.name_len,
        value: p.value,
        value_len: p.value_len,
        next,
        refusal: 0,
        kind: 1,
    }
}

fn no_pair(next: usize, refusal: u8, kind: u8) -> FlatPair
    ensures { result ≡ no_pair next refusal kind }
{
    FlatPair {
        name: 0,
        name_len: 0,
        value: 0,
        value_len: 0,
        next,
        refusal,
        kind,
    }
}

pub fn refused_pair(why: Refusal) -> FlatPair
    ensures { result ≡ no_pair 0 (refusal_number why) 0 }
{
    no_pair(0, refusal_number(why), 0)
}

// A pair by its number; the place after it is not told.
#[tactic(auto, unfolding(crate::specs::ReadAnswers::flat_numbered))]
pub fn flat_numbered(n: Result<Pair, Refusal>) -> FlatPair
    ensures { result ≡ flat_numbered (numbered_by n) }
{
    match n {
        Ok(p) => pair_of(p, 0),
        Err(why) => refused_pair(why),
    }
}

#[tactic(auto, unfolding(crate::specs::ReadAnswers::flat_read_from))]
pub fn flat_read_from(r: Result<Read, Refusal>) -> FlatPair
    ensures { result ≡ flat_read_from (read_by r) }
{
    match r {
        Ok(Read::Pair(p, next)) => pair_of(p, next),
        Ok(Read::End) => no_pair(0, 0, 2),
        Ok(Read::Malformed(at)) => no_pair(at, 0, 3),
        Err(why) => refused_pair(why),
    }
}

fn request_is(r: Request) -> FlatRequest
    ensures { result ≡ request_flat r }
{
    let state = r.state;
    FlatRequest {
        stdin_shown: state.shown.stdin,
        data_shown: state.shown.data,
        id: r.id,
        length: r.length,
        role: role_number(state.role),
        turn: turn_number(state.turn),
        life: life_number(state.life),
        keep: u8::from(state.keep),
        out_ended: u8::from(state.out_ended),
        err_used: u8::from(state.err_used),
        err_ended: u8::from(state.err_ended),
        refusal: 0,
    }
}

pub fn no_request(why: Refusal) -> FlatRequest
    ensures { result ≡ no_request (refusal_number why) }
{
    FlatRequest {
        stdin_shown: 0,
        data_shown: 0,
        id: 0,
        length: 0,
        role: 0,
        turn: 0,
        life: 0,
        keep: 0,
        out_ended: 0,
        err_used: 0,
        err_ended: 0,
        refusal: refusal_number(why),
    }
}

#[tactic(auto, unfolding(crate::specs::ReadAnswers::flat_request))]
pub fn flat_request(a: Result<Request, Refusal>) -> FlatRequest
    ensures { result ≡ flat_request (request_by a) }
{
    match a {
        Ok(r) => request_is(r),
        Err(why) => no_request(why),
    }
}

pub fn no_count(why: Refusal) -> FlatCount
    ensures { result ≡ no_count (refusal_number why) }
{
    FlatCount {
        count: 0,
        refusal: refusal_number(why),
    }
}

#[tactic(auto, unfolding(crate::specs::ReadAnswers::flat_count))]
pub fn flat_count(n: Result<u32, Refusal>) -> FlatCount
    ensures { result ≡ flat_count (counted_by n) }
{
    match n {
        Ok(count) => FlatCount { count, refusal: 0 },
        Err(why) => no_count(why),
    }
}
