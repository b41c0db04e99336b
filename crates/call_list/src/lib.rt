// Where a request's list of parameters lies in the store.
#![tactic(auto)]

ghost use Rattle.std.specs.Prelude.{◌≡◌};
ghost use Rattle.call_list.specs.Listing.{no_list_of, listed_by, listing};

use call_admit::admit_lent;
use connection::answer::Refusal;
use connection::request::Standing;
use connection::sizes::AREA;
use connection::state::Conn;
use request_state::{in_params, is_faulted};

// Row 4: PARAMS has not ended, or the request is faulted.
fn no_list(s: Standing) -> bool
    ensures { result ≡ no_list_of s }
{
    in_params(s.turn) || is_faulted(s.life)
}

// Rows 2, 9, 1, 3 and 4, and where the list lies.
pub fn list_at(c: Conn, store: &[u8], id: u16) -> Result<(usize, usize), Refusal>
    ensures { listed_by result ≡ listing c store.now id }
{
    let slot = admit_lent(c, store, id)?;
    if no_list(c.table.standings[slot]) {
        return Err(Refusal::NotReady);
    }
    let from = slot * AREA;
    Ok((from, from + usize::from(c.table.lengths[slot])))
}
