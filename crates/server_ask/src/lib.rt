// The web server's end asks the station for values.
#![tactic(auto)]

ghost use Rattle.std.specs.Prelude.{◌≡◌};
ghost use Rattle.server.specs.Calls.{ask_refusal, ask_values};
ghost use Rattle.server.specs.Answer.{written_by};
ghost use Rattle.server_admit.specs.Admission.{check_number};
ghost use Rattle.server_ask.specs.Rows.{bad_query, own_rows};

use connection::sizes::QUERY;
use pair_list::{Ending, list_ending};
use record::names;
use record_writer::{record_fits, write_record};
use server::answer::{ServerRefusal, ServerWritten};
use server::state::Server;
use server_admit::check_state;

// Row 62: a list of names that is over 512 bytes or malformed.
#[tactic(auto, unfolding(pair_list::specs::List::well_formed))]
fn bad_query(list: &[u8]) -> bool
    ensures { result ≡ bad_query list.now }
{
    QUERY < list.len() || matches!(list_ending(list), Ending::Malformed(_))
}

// Rows 62 and 6, for a buffer of that many bytes.
#[tactic(auto, unfolding(crate::specs::Rows::own_rows), using(server_admit::proofs::Room::record_room, crate::proofs::Laws::not_long))]
fn own_check(list: &[u8], room: usize) -> Result<(), ServerRefusal>
    ensures { check_number result ≡ own_rows list.now room }
{
    if bad_query(list) {
        return Err(ServerRefusal::BadQuery);
    }
    if !record_fits(list.len(), 0, room) {
        return Err(ServerRefusal::NoRoom);
    }
    Ok(())
}

// Rows 9, 1, 62 and 6.
fn ask_check(c: Server, list: &[u8], room: usize) -> Result<(), ServerRefusal>
    ensures { check_number result ≡ ask_refusal c list.now room }
{
    check_state(c)?;
    own_check(list, room)
}

// The bytes written: one GET_VALUES record, or nothing where it is refused.
fn ask(c: Server, list: &[u8], out: &mut [u8]) -> Result<usize, ServerRefusal>
    ensures { written_by (record { wrote = result; server = c }) out.new ≡ ask_values c list.now out.old }
{
    ask_check(c, list, out.len())?;
    Ok(write_record(out, 0, names::GET_VALUES, 0, list))
}

// Asks for values: one GET_VALUES record with that list of names at the start of out. Refusals 9, 1, 62, 6.
pub fn ask_values(c: Server, list: &[u8], out: &mut [u8]) -> ServerWritten
    ensures { written_by result out.new ≡ ask_values c list.now out.old }
{
    ServerWritten {
        wrote: ask(c, list, out),
        server: c,
    }
}
