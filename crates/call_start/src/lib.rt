// Start.
#![tactic(auto)]

ghost use Rattle.std.specs.Prelude.{◌≡◌};
ghost use Rattle.connection.specs.Step.{started};
ghost use Rattle.call_start.specs.Answer.{started_by};

use conn_frame::{closed, no_frame};
use connection::answer::{Refusal, Started};
use connection::sizes::{QUERY, STORE};
use connection::state::Conn;
use slot_table::no_requests;
use wire::clear;

// Start: an open connection with no requests, the store and the gathered bytes zeroed. With a store of another size
// it is refused, a closed connection comes back, and the lent bytes stay as they are.
pub fn start(store: &mut [u8], gathered: &mut [u8; QUERY]) -> Started
    ensures { started_by result gathered.new store.new
        ≡ started gathered.old store.old }
{
    if store.len() != STORE {
        return Started {
            result: Err(Refusal::StoreSize),
            conn: closed(),
        };
    }
    clear(store);
    clear(gathered);
    Started {
        result: Ok(()),
        conn: Conn {
            table: no_requests(),
            frame: no_frame(),
            open: true,
        },
    }
}
