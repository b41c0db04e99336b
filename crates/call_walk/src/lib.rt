// A walk over a request's pairs: the part of the store that is its list, and a place in it. Its functions are thin:
// the work is done by functions on the list and the place.
#![tactic(auto)]

ghost use Rattle.std.specs.Prelude.{◌≡◌};
ghost use Rattle.pairs.specs.Pair.{pair_at};
ghost use Rattle.connection.specs.Calls.{walk};
ghost use Rattle.call_list.specs.Listing.{listing};
ghost use Rattle.call_list.specs.Part.{PartAt};
ghost use Rattle.call_walk.specs.Place.{past_at, past_pair, read_by, read_from};

use call_list::list_at;
use codes::refusal_number;
use connection::answer::Refusal;
use connection::state::Conn;
use pairs::pair::{Pair, Read, read_pair};

// The list, a place in it, and the number of the refusal, 0 for none. A refused walk holds no bytes.
#[derive(Clone, Copy)]
pub struct Walk<'a> {
    pub list: &'a [u8],
    pub place: usize,
    pub refusal: u8,
}

// The list of the request that a call names, as the part of the store that it is; an empty part when refused.
pub fn list_of<'a>(c: Conn, store: &'a [u8], id: u16) -> &'a [u8]
    ensures { (result.now ≡ (walk c store.now id).list)
        × PartAt store.entry result (listing c store.now id).from }
{
    let Ok((from, to)) = list_at(c, store, id) else {
        return &store[..0];
    };
    &store[from..to]
}

// Why there is no list (2, 9, 1, 3, 4); 0 where there is one.
pub fn list_refusal(c: Conn, store: &[u8], id: u16) -> u8
    ensures { result ≡ (walk c store.now id).refusal }
{
    match list_at(c, store, id) {
        Ok(_) => 0,
        Err(why) => refusal_number(why),
    }
}

// The place past the pair at a place of a list; the same place at the end and before a malformed pair.
pub fn past(list: &[u8], place: usize) -> usize
    ensures { result ≡ past_at list.now place }
{
    match read_pair(list, place) {
        Read::Pair(_, next) => next,
        Read::End | Read::Malformed(_) => place,
    }
}

// The walk at the first pair of a request's list. Refused (2, 9, 1, 3, 4): no bytes, the place 0 and the number.
pub fn walk_pairs<'a>(c: Conn, store: &'a [u8], id: u16) -> Walk<'a>
    ensures { (result.list.now ≡ (walk c store.now id).list)
        × PartAt store.entry result.list (listing c store.now id).from × (result.place ≡ 0)
        × (result.refusal ≡ (walk c store.now id).refusal) }
{
    Walk {
        list: list_of(c, store, id),
        place: 0,
        refusal: list_refusal(c, store, id),
    }
}

// Reading on: the pair at the walk's place with the place after it, the end, or a malformed pair and its place.
// Whatever list and place a caller put together, there is an answer.
pub fn next_pair<'a>(w: Walk<'a>) -> Read
    ensures { result ≡ pair_at w.entry.list.now w.entry.place }
{
    read_pair(w.list, w.place)
}

// The same walk at another place.
pub fn moved_to<'a>(w: Walk<'a>, place: usize) -> Walk<'a>
    ensures { (result.list ≡ w.entry.list) × (result.place ≡ place) × (result.refusal ≡ w.entry.refusal) }
{
    Walk { place, ..w }
}

// The walk past the pair at its place; unmoved at the end and before a malformed pair.
pub fn past_pair<'a>(w: Walk<'a>) -> Walk<'a>
    ensures { result ≡ past_pair w.entry }
{
    moved_to(w, past(w.list, w.place))
}

// Reading on from a place of a request's list, by the walk's own functions.
fn read_on(c: Conn, store: &[u8], id: u16, place: usize) -> Read
    ensures { result ≡ pair_at (walk c store.now id).list place }
{
    next_pair(moved_to(walk_pairs(c, store, id), place))
}

// Reading on from a place of a request's list, for callers that hold a store and a number and no walk. Refused as the
// walk is (2, 9, 1, 3, 4).
pub fn pair_from(c: Conn, store: &[u8], id: u16, place: usize) -> Result<Read, Refusal>
    ensures { read_by result ≡ read_from c store.now id place }
{
    list_at(c, store, id)?;
    Ok(read_on(c, store, id, place))
}
