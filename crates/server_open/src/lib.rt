// The web server's end opens a request.
#![tactic(auto)]

ghost use Rattle.std.specs.Prelude.{◌≡◌, not, ℕ, ltb};
ghost use Rattle.slot_word.specs.Word.{lowest_free};
ghost use Rattle.record.specs.Names.{BEGIN_REQUEST};
ghost use Rattle.record.specs.Body.{begin_body_bytes};
ghost use Rattle.record_writer.specs.Written.{Placed, record_placed};
ghost use Rattle.connection.specs.Slots.{is_found};
ghost use Rattle.server.specs.Calls.{is_role, role_of, open_refusal, open_request};
ghost use Rattle.server.specs.Answer.{written_by};
ghost use Rattle.server_admit.specs.Admission.{check_number};
ghost use Rattle.server_open.specs.Rows.{own_rows};

use connection::request::Role;
use connection::sizes::SLOTS;
use record::body::begin_body;
use record::names;
use record_writer::{record_fits, write_record};
use request_state::open_request as opened_request;
use server::answer::{ServerRefusal, ServerWritten};
use server::state::Server;
use server_admit::check_state;
use slot_table::{find_from, take_request};
use slot_word::lowest_free;

// A BEGIN_REQUEST record at the start of out; the bytes written, 0 if it does not fit.
fn write_begin(out: &mut [u8], id: u16, role: u16, keep: bool) -> usize
    ensures { record { next = result; buffer = out.new }
        ≡ record_placed out.old 0 BEGIN_REQUEST id (begin_body_bytes role keep) }
{
    write_record(out, 0, names::BEGIN_REQUEST, id, &begin_body(role, keep))
}

fn is_role(role: u16) -> bool
    ensures { result ≡ is_role role }
{
    matches!(role, names::RESPONDER | names::AUTHORIZER | names::FILTER)
}

// The role of that number; a number that no role has is a responder here, and is refused before (row 60).
fn role_of(role: u16) -> Role
    ensures { result ≡ role_of role }
{
    match role {
        names::AUTHORIZER => Role::Authorizer,
        names::FILTER => Role::Filter,
        _ => Role::Responder,
    }
}

// The lowest-numbered free slot, or 16.
fn free_slot(occupied: u16) -> usize
    ensures { result ≡ lowest_free 16 occupied }
{
    lowest_free(occupied) as usize
}

// Rows 57 to 60 and 6, from the parts of the table that they depend on.
#[tactic(auto, unfolding(crate::specs::Rows::own_rows))]
fn own_check(
    ids: &[u16; SLOTS],
    occupied: u16,
    id: u16,
    role: u16,
    fits: bool,
) -> Result<(), ServerRefusal>
    ensures { check_number result ≡ own_rows ids.now occupied id role fits }
{
    if id == 0 {
        return Err(ServerRefusal::IdZero);
    }
    if find_from(ids, occupied, id, 0).is_some() {
        return Err(ServerRefusal::IdOpen);
    }
    if SLOTS <= free_slot(occupied) {
        return Err(ServerRefusal::NoSlot);
    }
    if !is_role(role) {
        return Err(ServerRefusal::UnknownRole);
    }
    if !fits {
        return Err(ServerRefusal::NoRoom);
    }
    Ok(())
}

// Rows 9, 1, 57 to 60 and 6.
fn open_check(c: Server, id: u16, role: u16, fits: bool) -> Result<(), ServerRefusal>
    ensures { (room long : ℕ) → fits ≡ not (ltb room long) → check_number result
        ≡ open_refusal c id role room long }
{
    check_state(c)?;
    own_check(&c.table.ids, c.table.occupied, id, role, fits)
}

// Opens a request: BEGIN_REQUEST at the start of out. Refusals 9, 1, 57, 58, 59, 60, 6.
pub fn open_request(c: Server, id: u16, role: u16, keep: bool, out: &mut [u8]) -> ServerWritten
    ensures { written_by result out.new ≡ open_request c id role keep out.old }
{
    match open_check(c, id, role, record_fits(8, 0, out.len())) {
        Err(why) => ServerWritten {
            wrote: Err(why),
            server: c,
        },
        Ok(()) => {
            let written = write_begin(out, id, role, keep);
            let request = opened_request(id, role_of(role), keep);
            ServerWritten {
                wrote: Ok(written),
                server: Server {
                    table: take_request(c.table, free_slot(c.table.occupied), request),
                    ..c
                },
            }
        }
    }
}
