// The table of requests: a slot's request read, put back, taken and given back; the slot of an id.
#![tactic(auto)]

ghost use Rattle.std.specs.Prelude.{◌≡◌, ◌-◌, ◌<◌};
ghost use Rattle.connection.specs.Sizes.{SLOTS};
ghost use Rattle.connection.specs.Slots.{no_state, no_request, no_requests, standing_of, request_at, put_request};
ghost use Rattle.connection.specs.Slots.{take_slot, free_slot, holds_id, find_from};

use connection::request::{Life, Request, RequestState, Role, Shown, Standing, Turn};
use connection::sizes::SLOTS;
use connection::state::Table;
use slot_word::{free_slot, is_taken, mark_slot, take_slot};

// The state of a free slot.
pub fn no_state() -> RequestState
    ensures { result ≡ no_state }
{
    RequestState {
        role: Role::Responder,
        turn: Turn::Params,
        life: Life::Live,
        keep: false,
        out_ended: false,
        err_used: false,
        err_ended: false,
        shown: Shown { stdin: 0, data: 0 },
    }
}

// The request of a free slot.
fn no_request() -> Request
    ensures { result ≡ no_request }
{
    Request {
        id: 0,
        length: 0,
        state: no_state(),
    }
}

// The part of a state that is no mark.
fn standing_of(state: RequestState) -> Standing
    ensures { result ≡ standing_of state }
{
    let RequestState {
        role,
        turn,
        life,
        ..
    } = state;
    Standing { role, turn, life }
}

// The request in slot i. From 16 on there is none.
#[tactic(auto, unfolding(connection::specs::Slots::request_at))]
pub fn request_at(t: Table, i: usize) -> Request
    ensures { result ≡ request_at t i }
{
    if i < SLOTS {
        let Standing { role, turn, life } = t.standings[i];
        return Request {
            id: t.ids[i],
            length: t.lengths[i],
            state: RequestState {
                role,
                turn,
                life,
                keep: is_taken(t.keep, i),
                out_ended: is_taken(t.out_ended, i),
                err_used: is_taken(t.err_used, i),
                err_ended: is_taken(t.err_ended, i),
                shown: Shown {
                    stdin: t.stdin_shown[i],
                    data: t.data_shown[i],
                },
            },
        };
    }
    no_request()
}

// Slot i with that request. There is no slot from 16 on.
#[tactic(auto, unfolding(connection::specs::Slots::put_request))]
pub fn put_request(mut t: Table, i: usize, r: Request) -> Table
    ensures { result ≡ put_request t i r }
{
    if i < SLOTS {
        t.ids[i] = r.id;
        t.lengths[i] = r.length;
        t.standings[i] = standing_of(r.state);
        t.keep = mark_slot(t.keep, i, r.state.keep);
        t.out_ended = mark_slot(t.out_ended, i, r.state.out_ended);
        t.err_used = mark_slot(t.err_used, i, r.state.err_used);
        t.err_ended = mark_slot(t.err_ended, i, r.state.err_ended);
        t.stdin_shown[i] = r.state.shown.stdin;
        t.data_shown[i] = r.state.shown.data;
    }
    t
}

// A free slot taken by that request.
#[tactic(auto, unfolding(connection::specs::Slots::take_slot))]
pub fn take_request(t: Table, i: usize, r: Request) -> Table
    ensures { result ≡ take_slot t i r }
{
    let mut table = put_request(t, i, r);
    table.occupied = take_slot(t.occupied, i);
    table
}

// A slot given back: its record is reset and it is free.
#[tactic(auto, unfolding(connection::specs::Slots::free_slot))]
pub fn free_request(t: Table, i: usize) -> Table
    ensures { result ≡ free_slot t i }
{
    let mut table = put_request(t, i, no_request());
    table.occupied = free_slot(t.occupied, i);
    table
}

// No slot is taken.
pub fn no_requests() -> Table
    ensures { result ≡ no_requests }
{
    Table {
        ids: [0; SLOTS],
        lengths: [0; SLOTS],
        standings: [standing_of(no_state()); SLOTS],
        keep: 0,
        out_ended: 0,
        err_used: 0,
        err_ended: 0,
        stdin_shown: [0; SLOTS],
        data_shown: [0; SLOTS],
        occupied: 0,
    }
}

// Whether slot i is taken and has that id.
#[tactic(auto, unfolding(connection::specs::Slots::holds_id))]
fn holds_id(ids: &[u16; SLOTS], occupied: u16, id: u16, i: usize) -> bool
    requires { i < SLOTS }
    ensures { result ≡ holds_id ids.now occupied id i }
{
    is_taken(occupied, i) && ids[i] == id
}

// The first slot from a given one on that is taken and has that id.
#[tactic(auto, using(crate::proofs::Laws::find_turn, crate::proofs::Laws::find_end))]
pub fn find_from(ids: &[u16; SLOTS], occupied: u16, id: u16, from: usize) -> Option<usize>
    ensures { result ≡ find_from (SLOTS - from) ids.now occupied id from }
{
    for i in from..SLOTS {
        if holds_id(ids, occupied, id, i) {
            return Some(i);
        }
    }
    None
}
