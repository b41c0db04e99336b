// The eighth byte of a header: it is whole, and the ten rules judge it in their order.
#![tactic(auto)]

ghost use Rattle.std.specs.Prelude.{◌≡◌, List, ℕ, ◌<◌, length};
ghost use Rattle.connection.specs.declared.state.Table.{Table};
ghost use Rattle.connection.specs.declared.state.Frame.{Frame};
ghost use Rattle.connection.specs.Sizes.{SLOTS, STORE};
ghost use Rattle.connection.specs.Slots.{request_at, area_at, put_area};
ghost use Rattle.connection.specs.Step.{due_to, on_inactive, on_active, judged};
ghost use Rattle.connection.specs.Decision.{open_state, applied};

use conn_frame::{closing, frame_after, only_frame};
use conn_management::on_management;
use connection::decision::{Change, Decision};
use connection::event::{Close, Event};
use connection::request::{Due, Request};
use connection::sizes::AREA;
use connection::state::{Table, Target};
use record::header::Header;
use record::names;
use request_header::on_header;
use slot_table::{find_from, request_at};

// Rule 4: a header whose id is not active.
#[tactic(auto, unfolding(connection::specs::Step::on_inactive))]
fn on_inactive(h: Header) -> Decision
    ensures { (t : Table) (fr : Frame) (g s : List ℕ) → applied result t g s ≡ on_inactive (open_state t fr g) s h }
{
    if h.kind != names::BEGIN_REQUEST {
        return only_frame(frame_after(h, Target::Skip), Event::Nothing);
    }
    if h.content == 8 {
        return only_frame(frame_after(h, Target::Begin(h.id)), Event::Nothing);
    }
    closing(Close::BeginLength)
}

// Where the content of the request in slot i goes.
fn due_to(due: Due, i: usize) -> Target
    requires { i < SLOTS }
    ensures { result ≡ due_to due i }
{
    match due {
        Due::Skip => Target::Skip,
        Due::Params => Target::Params(i as u8),
        Due::Stdin => Target::Stdin(i as u8),
        Due::Data => Target::Data(i as u8),
    }
}

// Rules 5 to 10: the request in slot i decides; its own area is lent.
#[tactic(auto, unfolding(connection::specs::Step::on_active))]
fn on_active(area: &mut [u8], r: Request, i: usize, h: Header) -> Decision
    requires { i < SLOTS }
    ensures { (t : Table) (fr : Frame) (g s : List ℕ) → request_at t i ≡ r → area_at s i ≡ area.old
        → applied result t g (put_area s i area.new) ≡ on_active (open_state t fr g) s h i }
{
    let ruling = on_header(r, area, h.kind, h.content);
    Decision {
        change: Change::Put(i, ruling.request),
        frame: frame_after(h, due_to(ruling.due, i)),
        event: ruling.event,
    }
}

// Rules 1 to 10.
#[tactic(auto, unfolding(connection::specs::Step::judged))]
pub fn judge(t: Table, store: &mut [u8], h: Header) -> Decision
    requires { length store.old ≡ STORE }
    ensures { (fr : Frame) (g : List ℕ) → applied result t g store.new
        ≡ judged (open_state t fr g) store.old h }
{
    if h.version != names::VERSION {
        return closing(Close::Version);
    }
    if h.id == 0 {
        return on_management(h);
    }
    let Some(i) = find_from(&t.ids, t.occupied, h.id, 0) else {
        return on_inactive(h);
    };
    let r = request_at(t, i);
    let a = i * AREA;
    on_active(&mut store[a..a + AREA], r, i, h)
}
