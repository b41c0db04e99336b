// The body of a BEGIN_REQUEST record: a request is opened, or its opening refused.
#![tactic(auto)]

ghost use Rattle.std.specs.Prelude.{◌≡◌, List, ℕ, ◌≤◌, length};
ghost use Rattle.connection.specs.declared.state.Table.{Table};
ghost use Rattle.connection.specs.declared.state.Frame.{Frame};
ghost use Rattle.connection.specs.Sizes.{QUERY};
ghost use Rattle.connection.specs.Slots.{free_slot_of};
ghost use Rattle.connection.specs.Step.{opens, begun, of_begin};
ghost use Rattle.connection.specs.Decision.{open_state, applied};

use conn_frame::{frame_within, only_frame};
use connection::decision::{Change, Decision};
use connection::event::{Event, Status};
use connection::request::Role;
use connection::sizes::SLOTS;
use connection::state::Frame;
use record::body::{BeginBody, read_begin_body};
use record::names;
use record_reader::Position;
use request_state::open_request;
use wire::copy_into;

// A known role: the request is opened in the lowest-numbered free slot, if there is one.
#[tactic(auto, unfolding(connection::specs::Step::opens))]
fn open_in(free: usize, id: u16, role: Role, b: BeginBody, f: Frame) -> Decision
    ensures { (t : Table) (fr : Frame) (g s : List ℕ) → free_slot_of t ≡ free → applied result t g s
        ≡ opens (open_state t fr g) s id b role f }
{
    if free < SLOTS {
        let keep = b.keep;
        return Decision {
            change: Change::Take(free, open_request(id, role, keep)),
            frame: f,
            event: Event::Open { id, role, keep },
        };
    }
    only_frame(
        f,
        Event::Refuse {
            id,
            status: Status::Overloaded,
        },
    )
}

// A BEGIN_REQUEST body that is whole.
#[tactic(auto, unfolding(connection::specs::Step::begun))]
fn begin(free: usize, id: u16, b: BeginBody, f: Frame) -> Decision
    ensures { (t : Table) (fr : Frame) (g s : List ℕ) → free_slot_of t ≡ free → applied result t g s
        ≡ begun (open_state t fr g) s id b f }
{
    match b.role {
        names::RESPONDER => open_in(free, id, Role::Responder, b, f),
        names::AUTHORIZER => open_in(free, id, Role::Authorizer, b, f),
        names::FILTER => open_in(free, id, Role::Filter, b, f),
        _ => only_frame(
            f,
            Event::Refuse {
                id,
                status: Status::UnknownRole,
            },
        ),
    }
}

// Bytes of a BEGIN_REQUEST body.
#[tactic(auto, unfolding(connection::specs::Step::of_begin))]
pub fn of_begin(f: Frame, free: usize, id: u16, bytes: &[u8], p: Position) -> Decision
    requires { (f.gathered ≤ QUERY) × (length bytes.now ≤ 65535) }
    ensures { (t : Table) (g s : List ℕ) → free_slot_of t ≡ free → applied result t g s
        ≡ of_begin (open_state t f g) s id bytes.now p }
{
    let mut body = f.body;
    copy_into(&mut body, f.gathered, bytes);
    if p.content == 0 {
        let none = frame_within(f, p, 0, [0; 8]);
        return begin(free, id, read_begin_body(body), none);
    }
    let more = frame_within(f, p, f.gathered + bytes.len(), body);
    only_frame(more, Event::Nothing)
}
