// The number of open requests.
#![tactic(auto)]

ghost use Rattle.std.specs.Prelude.{◌≡◌};
ghost use Rattle.server.specs.Calls.{open_count};
ghost use Rattle.server.specs.Answer.{counted_by};

use server::answer::ServerRefusal;
use server::state::Server;
use server_admit::check_state;
use slot_word::taken_count;

// How many requests are open (rows 9 and 1).
pub fn open_count(c: Server) -> Result<u32, ServerRefusal>
    ensures { counted_by result ≡ open_count c }
{
    check_state(c)?;
    Ok(taken_count(c.table.occupied))
}
