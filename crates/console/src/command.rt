// A line as a command, with its arguments.
use connection::answer::Output;
use connection::state::Target;
use console_queue::command::{Queued, WaitField, read_queued, read_wait_field};
use console_queue::memory::{WHOLE, WHOLE_QUEUE};
use fastcgi_queue::{QUERY, STORE};
use script::fields::{
    PositionField, RequestField, TableField, read_position_field, read_slot, read_table_field,
};
use script::number::number_of;
use script::words::{BYTES, Words};

// A question changes nothing. Of those about a request the first number is its id.
#[derive(Clone, Copy)]
pub enum Question<'a> {
    Active,
    Store,
    Numbers,
    Walk(u16),
    Area(u16),
    Counts(u16),
    Waits(u16),
    Pair(u16, usize),
    Value {
        id: u16,
        name: &'a [u8],
        fallback: &'a [u8],
    },
    Correct {
        thawed: &'a [u8],
        frozen: &'a [u8],
        tenths: i32,
        raw: u32,
    },
}

// A call that writes into a lent room.
#[derive(Clone, Copy)]
pub enum Writing<'a> {
    Owed,
    End(u16, Output),
    Pair(&'a [u8], &'a [u8]),
    Finish(u16, u32),
    Output(u16, Output, &'a [u8]),
    Reading { log: u32, tenths: i32, raw: u32 },
}

// A field of the state or of what is lent beside it, and what it is set to.
#[derive(Clone, Copy)]
pub enum Field<'a> {
    Open(bool),
    Table(TableField),
    Position(PositionField),
    Target(Target),
    Gathered(usize),
    Body(&'a [u8]),
    Byte(usize, u8),
    Waits(WaitField),
}

// Of a call that writes the number is the size of its room.
#[derive(Clone, Copy)]
pub enum Command<'a> {
    Ask(Question<'a>),
    Start,
    Lend(usize),
    LendQueue(usize),
    Step(&'a [u8]),
    Next(&'a [u8]),
    Feed(usize, &'a [u8]),
    Read(&'a [u8]),
    EndBody,
    NewBody,
    Write(Writing<'a>, usize),
    Queue(Queued<'a>),
    Pump { allowance: usize, room: usize },
    Poke(Field<'a>),
}

// What the content of the record being read is for.
fn read_target(words: &mut Words) -> Option<Target> {
    match words.next()? {
        b"skip" => Some(Target::Skip),
        b"begin" => Some(Target::Begin(words.short()?)),
        b"query" => Some(Target::Query),
        b"params" => Some(Target::Params(words.byte()?)),
        b"stdin" => Some(Target::Stdin(words.byte()?)),
        b"data" => Some(Target::Data(words.byte()?)),
        _ => None,
    }
}

// A field of a request that only this end has.
fn read_own_field(name: &[u8], words: &mut Words) -> Option<TableField> {
    let slot = read_slot(words)?;
    match name {
        b"err_used" => Some(TableField::Slot(slot, RequestField::ErrUsed(words.flag()?))),
        b"shown" => Some(TableField::Slot(
            slot,
            RequestField::Shown(words.stream()?, words.long()?),
        )),
        _ => None,
    }
}

// What stands after the word `poke`.
fn read_field<'a>(words: &mut Words<'a>) -> Option<Field<'a>> {
    let name = words.next()?;
    match name {
        b"target" => Some(Field::Target(read_target(words)?)),
        b"open" => Some(Field::Open(words.flag()?)),
        b"gathered" => Some(Field::Gathered(words.size()?)),
        b"body" => Some(Field::Body(words.bytes(QUERY)?)),
        b"byte" => Some(Field::Byte(words.up_to(STORE - 1)?, words.byte()?)),
        b"number" | b"mark" | b"queue" => Some(Field::Waits(read_wait_field(name, words)?)),
        b"err_used" | b"shown" => Some(Field::Table(read_own_field(name, words)?)),
        b"held" | b"header" | b"content" | b"padding" => {
            Some(Field::Position(read_position_field(name, words)?))
        }
        _ => Some(Field::Table(read_table_field(name, words)?)),
    }
}

// What stands after the word `lend`.
fn read_lend<'a>(words: &mut Words<'a>) -> Option<Command<'a>> {
    match words.next()? {
        b"queue" => Some(Command::LendQueue(words.up_to(WHOLE_QUEUE)?)),
        word => {
            let n = usize::try_from(number_of(word)?).ok()?;
            if n > WHOLE {
                return None;
            }
            Some(Command::Lend(n))
        }
    }
}

// The body that is read ends, or a new one begins.
fn read_body<'a>(words: &mut Words<'a>) -> Option<Command<'a>> {
    match words.next()? {
        b"end" => Some(Command::EndBody),
        b"new" => Some(Command::NewBody),
        _ => None,
    }
}

fn read_question<'a>(name: &[u8], words: &mut Words<'a>) -> Option<Question<'a>> {
    match name {
        b"active" => Some(Question::Active),
        b"store" => Some(Question::Store),
        b"numbers" => Some(Question::Numbers),
        b"walk" => Some(Question::Walk(words.short()?)),
        b"area" => Some(Question::Area(words.short()?)),
        b"counts" => Some(Question::Counts(words.short()?)),
        b"waits" => Some(Question::Waits(words.short()?)),
        b"pair" => Some(Question::Pair(words.short()?, words.size()?)),
        b"value" => Some(Question::Value {
            id: words.short()?,
            name: words.bytes(BYTES)?,
            fallback: words.bytes(BYTES)?,
        }),
        b"correct" => Some(Question::Correct {
            thawed: words.bytes(BYTES)?,
            frozen: words.bytes(BYTES)?,
            tenths: words.signed()?,
            raw: words.long()?,
        }),
        _ => None,
    }
}

// A call that writes. Its room is the last word.
fn read_writing<'a>(name: &[u8], words: &mut Words<'a>) -> Option<Writing<'a>> {
    match name {
        b"owed" => Some(Writing::Owed),
        b"end" => Some(Writing::End(words.short()?, words.output()?)),
        b"put" => Some(Writing::Pair(words.bytes(BYTES)?, words.bytes(BYTES)?)),
        b"finish" => Some(Writing::Finish(words.short()?, words.long()?)),
        b"say" => Some(Writing::Output(words.short()?, words.output()?, words.bytes(BYTES)?)),
        b"reading" => Some(Writing::Reading {
            log: words.long()?,
            tenths: words.signed()?,
            raw: words.long()?,
        }),
        _ => None,
    }
}

// A command by its name.
fn read_command<'a>(name: &[u8], words: &mut Words<'a>) -> Option<Command<'a>> {
    match name {
        b"start" => Some(Command::Start),
        b"lend" => read_lend(words),
        b"step" => Some(Command::Step(words.bytes(BYTES)?)),
        b"next" => Some(Command::Next(words.bytes(BYTES)?)),
        b"feed" => Some(Command::Feed(words.piece()?, words.bytes(BYTES)?)),
        b"read" => Some(Command::Read(words.bytes(BYTES)?)),
        b"body" => read_body(words),
        b"queue" => Some(Command::Queue(read_queued(words, BYTES)?)),
        b"pump" => Some(Command::Pump {
            allowance: words.size()?,
            room: words.room()?,
        }),
        b"poke" => Some(Command::Poke(read_field(words)?)),
        b"owed" | b"end" | b"put" | b"finish" | b"say" | b"reading" => {
            Some(Command::Write(read_writing(name, words)?, words.room()?))
        }
        _ => Some(Command::Ask(read_question(name, words)?)),
    }
}

// A line as a command; none where it has too few words or too many, or one that is none of those that may stand there.
pub fn read_line<'a>(line: &'a [u8], room: &'a mut [u8]) -> Option<Command<'a>> {
    let mut words = Words::new(line, room);
    let command = read_command(words.next()?, &mut words)?;
    if words.is_over() { Some(command) } else { None }
}
