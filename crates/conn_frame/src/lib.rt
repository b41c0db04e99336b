// The frame, which is the record being read; what a step decides where nothing else changes; and how a connection
// closes.
#![tactic(auto)]

ghost use Rattle.std.specs.Prelude.{◌≡◌, List, ℕ};
ghost use Rattle.connection.specs.declared.state.Table.{Table};
ghost use Rattle.connection.specs.declared.state.Frame.{Frame};
ghost use Rattle.connection.specs.Codes.{close_cause};
ghost use Rattle.connection.specs.Step.{no_frame, target_if, frame_after, frame_within, frame_at, closes, closed_conn};
ghost use Rattle.connection.specs.Decision.{open_state, applied};
ghost use Rattle.conn_frame.specs.OnlyFrame.{only_frame};

use connection::decision::{Change, Decision};
use connection::event::{Close, Event};
use connection::state::{Conn, Frame, Target};
use record::header::Header;
use record_reader::{Position, between};
use slot_table::no_requests;

// The frame between two records.
pub fn no_frame() -> Frame
    ensures { result ≡ no_frame }
{
    Frame {
        position: between(),
        target: Target::Skip,
        gathered: 0,
        body: [0; 8],
    }
}

// With its content used up a record's target is forgotten.
pub fn target_if(left: usize, target: Target) -> Target
    ensures { result ≡ target_if left target }
{
    if left == 0 {
        return Target::Skip;
    }
    target
}

// The frame after a header, its content being for that target.
pub fn frame_after(h: Header, target: Target) -> Frame
    ensures { result ≡ frame_after h target }
{
    let content = h.content as usize;
    Frame {
        position: Position {
            content,
            padding: h.padding as usize,
            held: 0,
            header: [0; 8],
        },
        target: target_if(content, target),
        gathered: 0,
        body: [0; 8],
    }
}

// The frame within content, with so many bytes of a body gathered.
pub fn frame_within(f: Frame, position: Position, gathered: usize, body: [u8; 8]) -> Frame
    ensures { result ≡ frame_within f position gathered body }
{
    Frame {
        position,
        target: target_if(position.content, f.target),
        gathered,
        body,
    }
}

// The frame with another position, all else as it was.
pub fn frame_at(f: Frame, position: Position) -> Frame
    ensures { result ≡ frame_at f position }
{
    Frame { position, ..f }
}

// Nothing but the frame changes.
pub fn only_frame(frame: Frame, event: Event) -> Decision
    ensures { result ≡ only_frame frame event }
{
    Decision {
        change: Change::Keep,
        frame,
        event,
    }
}

// The connection closes.
#[tactic(auto, unfolding(connection::specs::Step::closes))]
pub fn closing(cause: Close) -> Decision
    ensures { (t : Table) (fr : Frame) (g s : List ℕ) → applied result t g s
        ≡ closes (open_state t fr g) s (close_cause cause) }
{
    Decision {
        change: Change::Close,
        frame: no_frame(),
        event: Event::Closed { cause },
    }
}

// A closed connection: no requests, between two records.
pub fn closed() -> Conn
    ensures { result ≡ closed_conn }
{
    Conn {
        table: no_requests(),
        frame: no_frame(),
        open: false,
    }
}
