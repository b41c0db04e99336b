// Calls that ask for a request's parameters, for what a request is, and for how many requests are active, with what waits
// lent beside the state: they answer as without a queue, but for row 9, which is wider.
#![tactic(auto)]

ghost use Rattle.std.specs.Prelude.{◌≡◌, List, ℕ, length, Some, None, if◌then◌else◌};
ghost use Rattle.connection.specs.Sizes.{SLOTS};
ghost use Rattle.call_count.specs.Answer.{counted_by};
ghost use Rattle.call_request.specs.Answer.{request_by};
ghost use Rattle.call_value.specs.Answer.{source_by, numbered_by};
ghost use Rattle.call_list.specs.Part.{PartAt, PartOrElse};
ghost use Rattle.call_walk.specs.Place.{read_by};
ghost use Rattle.queue.specs.Calls.{lent, queue_value, queue_source, queue_pair, queue_walk, queue_request, queue_count};
ghost use Rattle.queue.specs.Calls.{waits_fit};
ghost use Rattle.queue_admit.specs.Admission.{is_barred};
ghost use Rattle.queue_list.specs.Places.{queue_value_place, queue_list_place, queue_read_from};

use call_count::active_count as count_alone;
use call_request::request_of as request_alone;
use call_value::{
    Source, pair_at as pair_alone, value as value_alone, value_source as source_alone,
};
use call_walk::{
    Walk, list_of as list_alone, list_refusal as refusal_alone, pair_from as from_alone,
};
use connection::answer::Refusal;
use connection::request::Request;
use connection::state::Conn;
use pairs::pair::{Pair, Read};
use queue::sizes::WAITS;
use queue_admit::is_barred;
use wait_numbers::waits_fit;

// Row 9's part on what waits, of a call that is not lent the store: none where it is out of shape.
fn fit(waits: &[u16; WAITS], occupied: u16) -> Option<()>
    ensures { result ≡ (if waits_fit SLOTS waits.now occupied 0 then Some tt else None) }
{
    if waits_fit(waits, occupied) {
        return Some(());
    }
    None
}

// The same of a call that is lent the store, if that has its size: before it comes row 2. The store is handed on, so
// that nothing is read in it before.
fn heeded<'a>(c: Conn, waits: &[u16; WAITS], store: &'a [u8]) -> Option<&'a [u8]>
    ensures { result
        ≡ (if is_barred waits.now c.table.occupied (length store.now) then None else Some store.entry) }
{
    if is_barred(waits, c.table.occupied, store.len()) {
        return None;
    }
    Some(store)
}

// The value of the first pair with that name, as a part of the store; the fallback where there is none, and where
// the call is refused (2, 9, 1, 3, 4).
pub fn value<'a>(
    c: Conn,
    waits: &[u16; WAITS],
    store: &'a [u8],
    id: u16,
    name: &[u8],
    fallback: &'a [u8],
) -> &'a [u8]
    ensures { ((gathered marks queue : List ℕ) → result.now
        ≡ queue_value (lent c gathered store.now waits.now marks queue) id name.now
        fallback.now)
        × PartOrElse store.entry fallback.entry result
        (queue_value_place c waits.now store.now id name.now) }
{
    if is_barred(waits, c.table.occupied, store.len()) {
        return fallback;
    }
    value_alone(c, store, id, name, fallback)
}

// Where value finds its answer, or why it is refused.
pub fn value_source(
    c: Conn,
    waits: &[u16; WAITS],
    store: &[u8],
    id: u16,
    name: &[u8],
) -> Result<Source, Refusal>
    ensures { (gathered marks queue : List ℕ) → source_by result
        ≡ queue_source (lent c gathered store.now waits.now marks queue) id name.now }
{
    let Some(heeded) = heeded(c, waits, store) else {
        return Err(Refusal::OutOfShape);
    };
    source_alone(c, heeded, id, name)
}

// The pair of number k, counted from 0. Refusals 2, 9, 1, 3, 4, 7.
pub fn pair_at(
    c: Conn,
    waits: &[u16; WAITS],
    store: &[u8],
    id: u16,
    k: usize,
) -> Result<Pair, Refusal>
    ensures { (gathered marks queue : List ℕ) → numbered_by result
        ≡ queue_pair (lent c gathered store.now waits.now marks queue) id k }
{
    let whole = heeded(c, waits, store).ok_or(Refusal::OutOfShape)?;
    pair_alone(c, whole, id, k)
}

// The list of the request that a call names, as the part of the store that it is; an empty part when refused.
pub fn list_of<'a>(c: Conn, waits: &[u16; WAITS], store: &'a [u8], id: u16) -> &'a [u8]
    ensures { ((gathered marks queue : List ℕ) → result.now
        ≡ (queue_walk (lent c gathered store.now waits.now marks queue) id).list)
        × PartAt store.entry result (queue_list_place c waits.now store.now id) }
{
    if is_barred(waits, c.table.occupied, store.len()) {
        return &store[..0];
    }
    list_alone(c, store, id)
}

// Why there is no list (2, 9, 1, 3, 4); 0 where there is one.
pub fn list_refusal(c: Conn, waits: &[u16; WAITS], store: &[u8], id: u16) -> u8
    ensures { (gathered marks queue : List ℕ) → result
        ≡ (queue_walk (lent c gathered store.now waits.now marks queue) id).refusal }
{
    if is_barred(waits, c.table.occupied, store.len()) {
        return 9;
    }
    refusal_alone(c, store, id)
}

// The walk at the first pair of a request's list. Refused (2, 9, 1, 3, 4): no bytes, the place 0 and the number.
pub fn walk_pairs<'a>(c: Conn, waits: &[u16; WAITS], store: &'a [u8], id: u16) -> Walk<'a>
    ensures { ((gathered marks queue : List ℕ) → (result.list.now
        ≡ (queue_walk (lent c gathered store.now waits.now marks queue) id).list)
        × (result.refusal ≡ (queue_walk (lent c gathered store.now waits.now marks queue) id).refusal))
        × PartAt store.entry result.list (queue_list_place c waits.now store.now id)
        × (result.place ≡ 0) }
{
    Walk {
        list: list_of(c, waits, store, id),
        place: 0,
        refusal: list_refusal(c, waits, store, id),
    }
}

// Reading on from a place of a request's list, for callers that hold a store and a number and no walk. Refused as the
// walk is (2, 9, 1, 3, 4).
pub fn pair_from(
    c: Conn,
    waits: &[u16; WAITS],
    store: &[u8],
    id: u16,
    place: usize,
) -> Result<Read, Refusal>
    ensures { read_by result ≡ queue_read_from c waits.now store.now id place }
{
    from_alone(
        c,
        heeded(c, waits, store).ok_or(Refusal::OutOfShape)?,
        id,
        place,
    )
}

// The request of an id: its id, the length of its list, and its state. From a queued finish until END is written it is
// spent, and the streams whose ends wait are ended. Refusals 9, 1, 3.
pub fn request_of(c: Conn, waits: &[u16; WAITS], id: u16) -> Result<Request, Refusal>
    ensures { (gathered store marks queue : List ℕ) → request_by result
        ≡ queue_request (lent c gathered store waits.now marks queue) id }
{
    let occupied = c.table.occupied;
    fit(waits, occupied).ok_or(Refusal::OutOfShape)?;
    request_alone(c, id)
}

// The number of active requests (rows 9 and 1).
pub fn active_count(c: Conn, waits: &[u16; WAITS]) -> Result<u32, Refusal>
    ensures { (gathered store marks queue : List ℕ) → counted_by result
        ≡ queue_count (lent c gathered store waits.now marks queue) }
{
    fit(waits, c.table.occupied).ok_or(Refusal::OutOfShape)?;
    count_alone(c)
}
