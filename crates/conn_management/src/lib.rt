// Management records, which have id 0: a query, or a type that is not known (rules 2 and 3).
#![tactic(auto)]

ghost use Rattle.std.specs.Prelude.{◌≡◌, List, ℕ, ◌≤◌, length};
ghost use Rattle.connection.specs.declared.state.Table.{Table};
ghost use Rattle.connection.specs.declared.state.Frame.{Frame};
ghost use Rattle.connection.specs.Codes.{event_of};
ghost use Rattle.connection.specs.Step.{names, query_of, queried, on_management};
ghost use Rattle.connection.specs.Decision.{open_state, applied};

use conn_frame::{closing, frame_after, only_frame};
use connection::decision::Decision;
use connection::event::{Close, Event};
use connection::sizes::QUERY;
use connection::state::{Frame, Target};
use pair_list::{Ending, first_named, list_ending};
use record::header::Header;
use record::names;

// Whether a list has a pair of that name.
#[tactic(auto, unfolding(connection::specs::Step::names))]
fn has_name(list: &[u8], name: &[u8]) -> bool
    ensures { result ≡ names list.now name.now }
{
    first_named(list, name).is_some()
}

// Which of the three names a query has.
#[tactic(auto, unfolding(connection::specs::Step::query_of))]
fn query_event(list: &[u8]) -> Event
    ensures { event_of result ≡ query_of list.now }
{
    Event::Query {
        max_conns: has_name(list, b"FCGI_MAX_CONNS"),
        max_reqs: has_name(list, b"FCGI_MAX_REQS"),
        mpxs_conns: has_name(list, b"FCGI_MPXS_CONNS"),
    }
}

// A query that is whole.
#[tactic(auto, using(pair_list::proofs::ListLaws::ended_formed, pair_list::proofs::ListLaws::broken_formed), unfolding(connection::specs::Step::queried))]
pub fn on_query(list: &[u8], f: Frame) -> Decision
    requires { length list.now ≤ 65535 }
    ensures { (t : Table) (fr : Frame) (g s : List ℕ) → applied result t g s
        ≡ queried (open_state t fr g) s list.now f }
{
    match list_ending(list) {
        Ending::Malformed(place) => closing(Close::QueryMalformed { at: place as u16 }),
        Ending::End => only_frame(f, query_event(list)),
    }
}

// Rules 2 and 3: a header with id 0.
#[tactic(auto, unfolding(connection::specs::Step::on_management))]
pub fn on_management(h: Header) -> Decision
    ensures { (t : Table) (fr : Frame) (g s : List ℕ) → applied result t g s
        ≡ on_management (open_state t fr g) s h }
{
    if h.kind != names::GET_VALUES {
        return only_frame(
            frame_after(h, Target::Skip),
            Event::Unknown { kind: h.kind },
        );
    }
    if QUERY < h.content as usize {
        return closing(Close::QueryLength);
    }
    if h.content == 0 {
        return on_query(b"", frame_after(h, Target::Skip));
    }
    only_frame(frame_after(h, Target::Query), Event::Nothing)
}
