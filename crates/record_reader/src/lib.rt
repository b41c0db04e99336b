// The position of a reader of records, the same at both ends of a connection.
#![tactic(auto)]

ghost use Rattle.std.specs.Prelude.{◌≡◌};
ghost use Rattle.record_reader.specs.Position.{between_records, advanced, in_header};

use record::header::{Header, read_header};
use wire::{copy_into, least};

// So many bytes are left of a record's content, then so many of its padding; with nothing left of either, the
// reader stands in the next header, of which the first `held` bytes are in.
#[derive(Clone, Copy, Debug, PartialEq, Eq)]
pub struct Position {
    pub content: usize,
    pub padding: usize,
    pub held: usize,
    pub header: [u8; 8],
}

// What the bytes used were: content, padding, a part of a header, or a part that made it whole.
#[derive(Clone, Copy, Debug, PartialEq, Eq)]
pub enum Phase {
    Content,
    Padding,
    Part,
    Whole(Header),
}

#[derive(Clone, Copy, Debug, PartialEq, Eq)]
pub struct Advanced {
    pub used: usize,
    pub phase: Phase,
    pub position: Position,
}

// Between two records.
pub fn between() -> Position
    ensures { result ≡ between_records }
{
    Position {
        content: 0,
        padding: 0,
        held: 0,
        header: [0; 8],
    }
}

#[tactic(auto, unfolding(crate::specs::Position::in_header))]
fn in_header(held: usize, header: [u8; 8], piece: &[u8]) -> Advanced
    ensures { result ≡ in_header held header piece.now }
{
    if 8 <= held {
        return Advanced {
            used: 0,
            phase: Phase::Part,
            position: Position {
                held,
                header,
                ..between()
            },
        };
    }
    let used = least(8 - held, piece.len());
    let mut bytes = header;
    copy_into(&mut bytes, held, &piece[..used]);
    let now_held = held + used;
    if now_held < 8 {
        return Advanced {
            used,
            phase: Phase::Part,
            position: Position {
                held: now_held,
                header: bytes,
                ..between()
            },
        };
    }
    let whole = read_header(bytes);
    Advanced {
        used,
        phase: Phase::Whole(whole),
        position: Position {
            content: whole.content as usize,
            padding: whole.padding as usize,
            ..between()
        },
    }
}

// Uses bytes of a piece, as many as the phase still needs or the piece has, and stays in that phase.
#[tactic(auto, unfolding(crate::specs::Position::advanced))]
pub fn advance(p: Position, piece: &[u8]) -> Advanced
    ensures { result ≡ advanced p piece.now }
{
    if 0 < p.content {
        let used = least(p.content, piece.len());
        return Advanced {
            used,
            phase: Phase::Content,
            position: Position {
                content: p.content - used,
                ..p
            },
        };
    }
    if 0 < p.padding {
        let used = least(p.padding, piece.len());
        return Advanced {
            used,
            phase: Phase::Padding,
            position: Position {
                content: 0,
                padding: p.padding - used,
                ..p
            },
        };
    }
    in_header(p.held, p.header, piece)
}
