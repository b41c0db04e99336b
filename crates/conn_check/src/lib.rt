// Whether a state is in shape (row 9 of the table of refusals).
#![tactic(auto)]

ghost use Rattle.std.specs.Prelude.{◌≡◌, [], leb, ◌+◌};
ghost use Rattle.connection.specs.declared.state.Target.{Target};
ghost use Rattle.connection.specs.Shape.{position_fits};
ghost use Rattle.conn_check.specs.Fits.{due_of, target_of, shape_of};

use connection::sizes::{AREA, QUERY, SLOTS};
use connection::state::{Frame, Target};
use record_reader::Position;
use slot_check::slots_fit;
use slot_table::find_from;
use slot_word::is_taken;

#[tactic(auto, unfolding(connection::specs::Shape::position_fits))]
pub fn position_fits(p: Position) -> bool
    ensures { result ≡ position_fits p }
{
    p.held <= 7 && p.content <= 65535 && p.padding <= 255
}

// Content is due to one of the slots, and that slot is taken.
pub fn due_fits(occupied: u16, i: u8) -> bool
    ensures { result ≡ due_of occupied i }
{
    let slot = i as usize;
    slot < SLOTS && is_taken(occupied, slot)
}

// A BEGIN body's bytes make 8, for an id that is neither 0 nor active.
#[tactic(auto, using(crate::proofs::Laws::eight, crate::proofs::Laws::not_eight, crate::proofs::Laws::over_eight))]
fn begin_fits(ids: &[u16; SLOTS], occupied: u16, id: u16, gathered: usize, left: usize) -> bool
    ensures { result ≡ target_of (Target.Begin id) ids.now [] occupied gathered left }
{
    gathered <= 8 && left == 8 - gathered && id != 0 && find_from(ids, occupied, id, 0).is_none()
}

// Some bytes and some more are not over a limit.
#[tactic(auto, using(wire::proofs::BufferLaws::room_left))]
pub fn within(limit: usize, some: usize, more: usize) -> bool
    ensures { result ≡ leb (some + more) limit }
{
    some <= limit && more <= limit - some
}

// PARAMS content is due to a slot that is taken, and does not pass AREA.
#[tactic(auto, using(crate::proofs::Laws::due_slot))]
fn params_fit(lengths: &[u16; SLOTS], occupied: u16, i: u8, left: usize) -> bool
    ensures { result ≡ target_of (Target.Params i) [] lengths.now occupied 0 left }
{
    due_fits(occupied, i) && within(AREA, lengths[i as usize] as usize, left)
}

fn target_fits<'a>(
    target: Target,
    ids: &'a [u16; SLOTS],
    lengths: &'a [u16; SLOTS],
    occupied: u16,
    gathered: usize,
    left: usize,
) -> bool
    ensures { result ≡ target_of target ids.now lengths.now occupied gathered left }
{
    match target {
        Target::Skip => true,
        Target::Begin(id) => begin_fits(ids, occupied, id, gathered, left),
        Target::Query => within(QUERY, gathered, left),
        Target::Params(i) => params_fit(lengths, occupied, i, left),
        Target::Stdin(i) | Target::Data(i) => due_fits(occupied, i),
    }
}

// The state with these ids, lengths and slots taken, and this frame, is in shape.
#[tactic(auto, unfolding(connection::specs::Shape::in_shape))]
pub fn in_shape<'a>(
    ids: &'a [u16; SLOTS],
    lengths: &'a [u16; SLOTS],
    occupied: u16,
    f: Frame,
) -> bool
    ensures { result ≡ shape_of ids.now lengths.now occupied f }
{
    slots_fit(ids, lengths, occupied)
        && position_fits(f.position)
        && target_fits(
            f.target,
            ids,
            lengths,
            occupied,
            f.gathered,
            f.position.content,
        )
}
