// Fields of a state that both ends have, set to whatever is given. A field is read from the words after its name.
use crate::words::Words;
use connection::event::Stream;
use connection::request::{Life, Request, RequestState, Role, Shown, Turn};
use connection::sizes::SLOTS;
use connection::state::Table;
use record_reader::Position;
use slot_table::{put_request, request_at};

// A field of a request.
#[derive(Clone, Copy)]
pub enum RequestField {
    Id(u16),
    Length(u16),
    Role(Role),
    Keep(bool),
    Turn(Turn),
    Life(Life),
    OutEnded(bool),
    ErrUsed(bool),
    ErrEnded(bool),
    Shown(Stream, u32),
}

// A field of the table: its word, or one of the request in a slot.
#[derive(Clone, Copy)]
pub enum TableField {
    Occupied(u16),
    Slot(usize, RequestField),
}

// A field of where the reader stands.
#[derive(Clone, Copy)]
pub enum PositionField {
    Held(usize),
    Header([u8; 8]),
    Content(usize),
    Padding(usize),
}

fn read_role(words: &mut Words) -> Option<Role> {
    match words.next()? {
        b"1" => Some(Role::Responder),
        b"2" => Some(Role::Authorizer),
        b"3" => Some(Role::Filter),
        _ => None,
    }
}

fn read_turn(words: &mut Words) -> Option<Turn> {
    match words.next()? {
        b"params" => Some(Turn::Params),
        b"stdin" => Some(Turn::Stdin),
        b"data" => Some(Turn::Data),
        b"done" => Some(Turn::Done),
        _ => None,
    }
}

fn read_life(words: &mut Words) -> Option<Life> {
    match words.next()? {
        b"live" => Some(Life::Live),
        b"faulted" => Some(Life::Faulted),
        b"aborted" => Some(Life::Aborted),
        _ => None,
    }
}

// A slot's number.
pub fn read_slot(words: &mut Words) -> Option<usize> {
    words.up_to(SLOTS - 1)
}

// A field of the table by its name. Those that one end alone has, it reads itself.
pub fn read_table_field(name: &[u8], words: &mut Words) -> Option<TableField> {
    if matches!(name, b"occupied") {
        return Some(TableField::Occupied(words.short()?));
    }
    let slot = read_slot(words)?;
    let field = match name {
        b"id" => RequestField::Id(words.short()?),
        b"length" => RequestField::Length(words.short()?),
        b"role" => RequestField::Role(read_role(words)?),
        b"keep" => RequestField::Keep(words.flag()?),
        b"turn" => RequestField::Turn(read_turn(words)?),
        b"spent" => RequestField::Life(read_life(words)?),
        b"out_ended" => RequestField::OutEnded(words.flag()?),
        b"err_ended" => RequestField::ErrEnded(words.flag()?),
        _ => return None,
    };
    Some(TableField::Slot(slot, field))
}

// A field of where the reader stands by its name.
pub fn read_position_field(name: &[u8], words: &mut Words) -> Option<PositionField> {
    match name {
        b"held" => Some(PositionField::Held(words.size()?)),
        b"header" => Some(PositionField::Header(words.eight()?)),
        b"content" => Some(PositionField::Content(words.size()?)),
        b"padding" => Some(PositionField::Padding(words.size()?)),
        _ => None,
    }
}

impl RequestField {
    fn set(self, r: Request) -> Request {
        let state = r.state;
        let changed = match self {
            RequestField::Id(id) => return Request { id, ..r },
            RequestField::Length(length) => return Request { length, ..r },
            RequestField::Role(role) => RequestState { role, ..state },
            RequestField::Keep(keep) => RequestState { keep, ..state },
            RequestField::Turn(turn) => RequestState { turn, ..state },
            RequestField::Life(life) => RequestState { life, ..state },
            RequestField::OutEnded(out_ended) => RequestState { out_ended, ..state },
            RequestField::ErrUsed(err_used) => RequestState { err_used, ..state },
            RequestField::ErrEnded(err_ended) => RequestState { err_ended, ..state },
            RequestField::Shown(Stream::Stdin, stdin) => RequestState {
                shown: Shown {
                    stdin,
                    ..state.shown
                },
                ..state
            },
            RequestField::Shown(Stream::Data, data) => RequestState {
                shown: Shown {
                    data,
                    ..state.shown
                },
                ..state
            },
        };
        Request {
            state: changed,
            ..r
        }
    }
}

impl TableField {
    pub fn set(self, t: Table) -> Table {
        match self {
            TableField::Occupied(occupied) => Table { occupied, ..t },
            TableField::Slot(i, field) => put_request(t, i, field.set(request_at(t, i))),
        }
    }
}

impl PositionField {
    pub fn set(self, p: Position) -> Position {
        match self {
            PositionField::Held(held) => Position { held, ..p },
            PositionField::Header(header) => Position { header, ..p },
            PositionField::Content(content) => Position { content, ..p },
            PositionField::Padding(padding) => Position { padding, ..p },
        }
    }
}
