// Whether a state of the web server's end is in shape (row 9 of its table of refusals).
#![tactic(auto)]

ghost use Rattle.std.specs.Prelude.{◌≡◌, eqb, ◌+◌};
ghost use Rattle.server.specs.declared.state.Target.{Target};
ghost use Rattle.server_check.specs.Fits.{target_of, shape_of};

use conn_check::{due_fits, position_fits, within};
use connection::sizes::{QUERY, SLOTS};
use server::state::{Frame, Target};
use slot_check::slots_fit;

// The bytes of a body that are gathered and those that are left make eight.
fn make_eight(gathered: usize, left: usize) -> bool
    ensures { result ≡ eqb (gathered + left) 8 }
{
    gathered <= 8 && left == 8 - gathered
}

// The body of an END_REQUEST is due to a slot that is taken.
fn end_fits(occupied: u16, i: u8, gathered: usize, left: usize) -> bool
    ensures { result ≡ target_of (Target.End i) occupied gathered left }
{
    due_fits(occupied, i) && make_eight(gathered, left)
}

fn target_fits(target: Target, occupied: u16, gathered: usize, left: usize) -> bool
    ensures { result ≡ target_of target occupied gathered left }
{
    match target {
        Target::Skip => true,
        Target::Stdout(i) | Target::Stderr(i) => due_fits(occupied, i),
        Target::End(i) => end_fits(occupied, i, gathered, left),
        Target::Values => within(QUERY, gathered, left),
        Target::Unknown => make_eight(gathered, left),
    }
}

// The state with these ids, lengths and slots taken, and this frame, is in shape.
#[tactic(auto, unfolding(server::specs::Shape::in_shape), using(crate::proofs::Laws::target_of_lem))]
pub fn in_shape<'a>(
    ids: &'a [u16; SLOTS],
    lengths: &'a [u16; SLOTS],
    occupied: u16,
    f: Frame,
) -> bool
    ensures { result ≡ shape_of ids.now lengths.now occupied f }
{
    slots_fit(ids, lengths, occupied)
        && position_fits(f.position)
        && target_fits(f.target, occupied, f.gathered, f.position.content)
}
