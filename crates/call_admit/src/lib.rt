// What every call asks first: the rows of the table of refusals that are not the request's own, and the slot of its id.
#![tactic(auto)]

ghost use Rattle.std.specs.Prelude.{◌≡◌, length};
ghost use Rattle.call_admit.specs.Admission.{admitted_by, call_admission, lent_admission};

use conn_check::in_shape;
use connection::answer::Refusal;
use connection::sizes::STORE;
use connection::state::Conn;
use slot_table::find_from;

// Rows 9, 1 and 3: of a call that is not lent the store.
pub fn admit(c: Conn, id: u16) -> Result<usize, Refusal>
    ensures { admitted_by result ≡ call_admission c id }
{
    let table = c.table;
    if !in_shape(&table.ids, &table.lengths, table.occupied, c.frame) {
        return Err(Refusal::OutOfShape);
    }
    if !c.open {
        return Err(Refusal::Closed);
    }
    find_from(&table.ids, table.occupied, id, 0).ok_or(Refusal::NotActive)
}

// Rows 2, 9, 1 and 3: of a call that is lent the store, which has so many bytes.
pub fn admit_lent(c: Conn, store: &[u8], id: u16) -> Result<usize, Refusal>
    ensures { admitted_by result ≡ lent_admission c store.now id }
{
    if store.len() != STORE {
        return Err(Refusal::StoreSize);
    }
    admit(c, id)
}
