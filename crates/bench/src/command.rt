// A line as a command, with its arguments.
use fastcgi_server::{Input, QUERY, Stream};
use script::fields::{PositionField, TableField, read_position_field, read_table_field};
use script::words::{BYTES, Words};
use server::state::Target;

// A call that writes. Its first number is the id of a request.
#[derive(Clone, Copy)]
pub enum Writing<'a> {
    Open { id: u16, role: u16, keep: bool },
    Pair(u16, &'a [u8], &'a [u8]),
    Write(u16, Stream, &'a [u8]),
    End(u16, Input),
    Abort(u16),
    Ask(&'a [u8]),
}

// A field of the state or of what is lent beside it, and what it is set to.
#[derive(Clone, Copy)]
pub enum Field<'a> {
    Open(bool),
    Table(TableField),
    Position(PositionField),
    Target(Target),
    Gathered(usize),
    Body([u8; 8]),
    Values(&'a [u8]),
}

// Waiting and hanging up need a station. Of a call that writes the number is the size of its room.
#[derive(Clone, Copy)]
pub enum Command<'a> {
    Opened,
    Values,
    Start,
    Step(&'a [u8]),
    Feed(usize, &'a [u8]),
    Wait(u16),
    Hang,
    Write(Writing<'a>, usize),
    Poke(Field<'a>),
}

// What the content of the record being read is for.
fn read_target(words: &mut Words) -> Option<Target> {
    match words.next()? {
        b"skip" => Some(Target::Skip),
        b"stdout" => Some(Target::Stdout(words.byte()?)),
        b"stderr" => Some(Target::Stderr(words.byte()?)),
        b"end" => Some(Target::End(words.byte()?)),
        b"values" => Some(Target::Values),
        b"unknown" => Some(Target::Unknown),
        _ => None,
    }
}

// What stands after the word `poke`.
fn read_field<'a>(words: &mut Words<'a>) -> Option<Field<'a>> {
    let name = words.next()?;
    match name {
        b"target" => Some(Field::Target(read_target(words)?)),
        b"open" => Some(Field::Open(words.flag()?)),
        b"gathered" => Some(Field::Gathered(words.size()?)),
        b"body" => Some(Field::Body(words.eight()?)),
        b"values" => Some(Field::Values(words.bytes(QUERY)?)),
        b"held" | b"header" | b"content" | b"padding" => {
            Some(Field::Position(read_position_field(name, words)?))
        }
        _ => Some(Field::Table(read_table_field(name, words)?)),
    }
}

// Whether the connection is kept or dropped after a request.
fn read_keep(words: &mut Words) -> Option<bool> {
    match words.next()? {
        b"keep" => Some(true),
        b"drop" => Some(false),
        _ => None,
    }
}

// An input stream, PARAMS among them.
fn read_input(words: &mut Words) -> Option<Input> {
    match words.next()? {
        b"params" => Some(Input::Params),
        b"stdin" => Some(Input::Stdin),
        b"data" => Some(Input::Data),
        _ => None,
    }
}

// A call that writes. Its room is the last word.
fn read_writing<'a>(name: &[u8], words: &mut Words<'a>) -> Option<Writing<'a>> {
    match name {
        b"open" => Some(Writing::Open {
            id: words.short()?,
            role: words.short()?,
            keep: read_keep(words)?,
        }),
        b"pair" => Some(Writing::Pair(words.short()?, words.bytes(BYTES)?, words.bytes(BYTES)?)),
        b"write" => Some(Writing::Write(words.short()?, words.stream()?, words.bytes(BYTES)?)),
        b"end" => Some(Writing::End(words.short()?, read_input(words)?)),
        b"abort" => Some(Writing::Abort(words.short()?)),
        b"ask" => Some(Writing::Ask(words.bytes(BYTES)?)),
        _ => None,
    }
}

// A command by its name.
fn read_command<'a>(name: &[u8], words: &mut Words<'a>) -> Option<Command<'a>> {
    match name {
        b"opened" => Some(Command::Opened),
        b"values" => Some(Command::Values),
        b"start" => Some(Command::Start),
        b"step" => Some(Command::Step(words.bytes(BYTES)?)),
        b"feed" => Some(Command::Feed(words.piece()?, words.bytes(BYTES)?)),
        b"wait" => Some(Command::Wait(words.short()?)),
        b"hang" => Some(Command::Hang),
        b"poke" => Some(Command::Poke(read_field(words)?)),
        _ => Some(Command::Write(read_writing(name, words)?, words.room()?)),
    }
}

// A line as a command; none where it has too few words or too many, or one that is none of those that may stand there.
pub fn read_line<'a>(line: &'a [u8], room: &'a mut [u8]) -> Option<Command<'a>> {
    let mut words = Words::new(line, room);
    let command = read_command(words.next()?, &mut words)?;
    if words.is_over() { Some(command) } else { None }
}
