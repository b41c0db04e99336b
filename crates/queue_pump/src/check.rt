// The rows of a turn of the pump.
ghost use Rattle.std.specs.Prelude.{◌≡◌};
ghost use Rattle.connection.specs.Sizes.{SLOTS};
ghost use Rattle.connection.specs.Shape.{in_shape, ◌and◌};
ghost use Rattle.request_output.specs.Answer.{check_number};
ghost use Rattle.queue.specs.Calls.{waits_fit};
ghost use Rattle.queue_pump.specs.Serving.{pump_rows};

use conn_check::in_shape;
use connection::answer::Refusal;
use connection::sizes::STORE;
use connection::state::Conn;
use queue::sizes::{PUMPED, QUEUE, WAITS};
use wait_numbers::waits_fit;

// Row 9: the state and what waits are in shape.
pub fn is_fit<'a>(c: Conn, waits: &'a [u16; WAITS]) -> bool
    ensures { result ≡ (in_shape c and waits_fit SLOTS waits.now c.table.occupied 0) }
{
    let table = c.table;
    in_shape(&table.ids, &table.lengths, table.occupied, c.frame)
        && waits_fit(waits, table.occupied)
}

// Rows 2, 9, 1 and 6. The last is tested as a quotient, so that no product can overflow.
pub fn pump_check(
    store: usize,
    queue: usize,
    fits: bool,
    open: bool,
    out: usize,
    allowance: usize,
) -> Result<(), Refusal>
    ensures { check_number result ≡ pump_rows store queue fits «open» out allowance }
{
    if store != STORE {
        return Err(Refusal::StoreSize);
    }
    if queue != QUEUE {
        return Err(Refusal::StoreSize);
    }
    if !fits {
        return Err(Refusal::OutOfShape);
    }
    if !open {
        return Err(Refusal::Closed);
    }
    if out / PUMPED < allowance {
        return Err(Refusal::NoRoom);
    }
    Ok(())
}
