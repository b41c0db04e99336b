// What a request is: its role, whose turn it is, whether it is spent, its counts.
#![tactic(auto)]

ghost use Rattle.std.specs.Prelude.{◌≡◌};
ghost use Rattle.connection.specs.Calls.{request_named};
ghost use Rattle.call_request.specs.Answer.{request_by};

use call_admit::admit;
use connection::answer::Refusal;
use connection::request::Request;
use connection::state::Conn;
use slot_table::request_at;

// The request of an id: its id, the length of its list, and its state. Its input is all in once it is nobody's turn.
// Refusals 9, 1, 3.
pub fn request_of(c: Conn, id: u16) -> Result<Request, Refusal>
    ensures { request_by result ≡ request_named c id }
{
    let slot = admit(c, id)?;
    Ok(request_at(c.table, slot))
}
