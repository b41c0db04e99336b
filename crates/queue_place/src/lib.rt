// Where a request's list, and the value of a name in it, lie in the store: for callers in other languages, which cannot
// be handed a part of it.
#![tactic(auto)]

ghost use Rattle.std.specs.Prelude.{◌≡◌, List, ℕ};
ghost use Rattle.queue.specs.Calls.{lent};
ghost use Rattle.queue_place.specs.Lies.{lies_by, value_lies, list_lies};

use call_list::list_at;
use connection::answer::Refusal;
use connection::state::Conn;
use pair_list::first_named;
use queue::sizes::WAITS;
use queue_admit::is_barred;

// Where the list of the request that a call names lies. Refusals 2, 9, 1, 3, 4.
pub fn list_place(
    c: Conn,
    waits: &[u16; WAITS],
    store: &[u8],
    id: u16,
) -> Result<Option<(usize, usize)>, Refusal>
    ensures { (gathered marks queue : List ℕ) → lies_by result
        ≡ list_lies (lent c gathered store.now waits.now marks queue) id }
{
    if is_barred(waits, c.table.occupied, store.len()) {
        return Err(Refusal::OutOfShape);
    }
    let (from, to) = list_at(c, store, id)?;
    Ok(Some((from, to - from)))
}

// Where the value of the first pair with that name lies. Refusals 2, 9, 1, 3, 4.
pub fn value_place(
    c: Conn,
    waits: &[u16; WAITS],
    store: &[u8],
    id: u16,
    name: &[u8],
) -> Result<Option<(usize, usize)>, Refusal>
    ensures { (gathered marks queue : List ℕ) → lies_by result
        ≡ value_lies (lent c gathered store.now waits.now marks queue) id name.now }
{
    if is_barred(waits, c.table.occupied, store.len()) {
        return Err(Refusal::OutOfShape);
    }
    let (from, to) = list_at(c, store, id)?;
    match first_named(&store[from..to], name) {
        Some(pair) => Ok(Some((from + pair.value, pair.value_len))),
        None => Ok(None),
    }
}
