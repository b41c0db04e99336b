// What every call of the web server's end asks first: the rows of its table of refusals that are about the state, and
// the slot of the id that it names.
#![tactic(auto)]

ghost use Rattle.std.specs.Prelude.{◌≡◌};
ghost use Rattle.server.specs.Step.{step_refusal};
ghost use Rattle.server_admit.specs.Admission.{check_number, admitted_by, call_admission};

use server::answer::ServerRefusal;
use server::state::Server;
use server_check::in_shape;
use slot_table::find_from;

// Rows 9 and 1: the state's shape, and whether the connection is open.
#[tactic(auto, unfolding(server::specs::Step::step_refusal), using(server_check::proofs::Laws::shape_of_lem))]
pub fn check_state(c: Server) -> Result<(), ServerRefusal>
    ensures { check_number result ≡ step_refusal c }
{
    if !in_shape(&c.table.ids, &c.table.lengths, c.table.occupied, c.frame) {
        return Err(ServerRefusal::OutOfShape);
    }
    if !c.open {
        return Err(ServerRefusal::Closed);
    }
    Ok(())
}

// Rows 9, 1 and 3: of a call that names a request.
pub fn admit(c: Server, id: u16) -> Result<usize, ServerRefusal>
    ensures { admitted_by result ≡ call_admission c id }
{
    check_state(c)?;
    find_from(&c.table.ids, c.table.occupied, id, 0).ok_or(ServerRefusal::NotOpen)
}
