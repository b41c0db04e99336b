// The calls that ask for a request's parameters, for what a request is, and for how many are active.
ghost use Rattle.std.specs.Prelude.{◌≡◌};
ghost use Rattle.export_calls.specs.Ask.{exported_value, exported_list, exported_pair_at, exported_pair_from};
ghost use Rattle.export_calls.specs.Ask.{exported_request, exported_count};

use fastcgi_queue::{Refusal, WAITS, active_count, pair_at, pair_from, request_of};
use flat_answer::answer::{FlatCount, FlatPair, FlatPlace, FlatRequest};
use flat_answer::read::{
    flat_count, flat_numbered, flat_place, flat_read_from, flat_request, no_count, no_place,
    no_request, refused_pair,
};
use flat_state::{FlatState, from_flat, is_known};
use queue_place::{list_place, value_place};

// Where the value of the first pair with that name lies in the store. Refusals 9 of an unknown code, 2, 9, 1, 3, 4.
#[unsafe(no_mangle)]
pub extern "C" fn yot_value(
    state: FlatState,
    waits: &[u16; WAITS],
    store: &[u8],
    id: u16,
    name: &[u8],
) -> FlatPlace
    ensures { result ≡ exported_value state waits.now store.now id name.now }
{
    if !is_known(state) {
        return no_place(Refusal::OutOfShape);
    }
    let c = from_flat(state);
    flat_place(value_place(c, waits, store, id, name))
}

// Where a request's list lies in the store. The same refusals.
#[unsafe(no_mangle)]
pub extern "C" fn yot_list(
    state: FlatState,
    waits: &[u16; WAITS],
    store: &[u8],
    id: u16,
) -> FlatPlace
    ensures { result ≡ exported_list state waits.now store.now id }
{
    if !is_known(state) {
        return no_place(Refusal::OutOfShape);
    }
    let c = from_flat(state);
    flat_place(list_place(c, waits, store, id))
}

// The pair of number k, counted from 0. Refusals 9 of an unknown code, 2, 9, 1, 3, 4, 7.
#[unsafe(no_mangle)]
pub extern "C" fn yot_pair_at(
    state: FlatState,
    waits: &[u16; WAITS],
    store: &[u8],
    id: u16,
    k: usize,
) -> FlatPair
    ensures { result ≡ exported_pair_at state waits.now store.now id k }
{
    if !is_known(state) {
        return refused_pair(Refusal::OutOfShape);
    }
    let c = from_flat(state);
    flat_numbered(pair_at(c, waits, store, id, k))
}

// What is read at a place of a request's list. Refusals 9 of an unknown code, 2, 9, 1, 3, 4.
#[unsafe(no_mangle)]
pub extern "C" fn yot_pair_from(
    state: FlatState,
    waits: &[u16; WAITS],
    store: &[u8],
    id: u16,
    place: usize,
) -> FlatPair
    ensures { result ≡ exported_pair_from state waits.now store.now id place }
{
    if !is_known(state) {
        return refused_pair(Refusal::OutOfShape);
    }
    let c = from_flat(state);
    flat_read_from(pair_from(c, waits, store, id, place))
}

// What a request is. Refusals 9 of an unknown code, 9, 1, 3.
#[unsafe(no_mangle)]
pub extern "C" fn yot_request(state: FlatState, waits: &[u16; WAITS], id: u16) -> FlatRequest
    ensures { result ≡ exported_request state waits.now id }
{
    if !is_known(state) {
        return no_request(Refusal::OutOfShape);
    }
    let c = from_flat(state);
    flat_request(request_of(c, waits, id))
}

// How many requests are active. Refusals 9 of an unknown code, 9, 1.
#[unsafe(no_mangle)]
pub extern "C" fn yot_active_count(state: FlatState, waits: &[u16; WAITS]) -> FlatCount
    ensures { result ≡ exported_count state waits.now }
{
    if !is_known(state) {
        return no_count(Refusal::OutOfShape);
    }
    let c = from_flat(state);
    flat_count(active_count(c, waits))
}
