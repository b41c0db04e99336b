// The number of active requests.
#![tactic(auto)]

ghost use Rattle.std.specs.Prelude.{◌≡◌};
ghost use Rattle.connection.specs.Calls.{active_count};
ghost use Rattle.call_count.specs.Answer.{counted_by};

use conn_check::in_shape;
use connection::answer::Refusal;
use connection::state::Conn;
use slot_word::taken_count;

// The number of active requests (rows 9 and 1).
pub fn active_count(c: Conn) -> Result<u32, Refusal>
    ensures { counted_by result ≡ active_count c }
{
    let table = c.table;
    if !in_shape(&table.ids, &table.lengths, table.occupied, c.frame) {
        return Err(Refusal::OutOfShape);
    }
    if !c.open {
        return Err(Refusal::Closed);
    }
    Ok(taken_count(table.occupied))
}
