// The commands of the queue, and the fields of what waits.
use crate::memory::Memory;
use connection::answer::Output;
use fastcgi_queue::{QUEUE, WAITS};
use script::words::Words;

// A call by which something comes to wait.
#[derive(Clone, Copy)]
pub enum Queued<'a> {
    Output(u16, Output, &'a [u8]),
    End(u16, Output),
    Finish(u16, u32),
}

// A number, a mark or a byte of the queue, and what it is set to.
#[derive(Clone, Copy)]
pub enum WaitField {
    Number(usize, u16),
    Mark(usize, u8),
    Byte(usize, u8),
}

// What stands after the word `queue`.
pub fn read_queued<'a>(words: &mut Words<'a>, most: usize) -> Option<Queued<'a>> {
    match words.next()? {
        b"say" => Some(Queued::Output(words.short()?, words.output()?, words.bytes(most)?)),
        b"end" => Some(Queued::End(words.short()?, words.output()?)),
        b"finish" => Some(Queued::Finish(words.short()?, words.long()?)),
        _ => None,
    }
}

// A field of what waits by its name.
pub fn read_wait_field(name: &[u8], words: &mut Words) -> Option<WaitField> {
    match name {
        b"number" => Some(WaitField::Number(words.up_to(WAITS - 1)?, words.short()?)),
        b"mark" => Some(WaitField::Mark(words.up_to(QUEUE - 1)?, words.byte()?)),
        b"queue" => Some(WaitField::Byte(words.up_to(QUEUE - 1)?, words.byte()?)),
        _ => None,
    }
}

impl WaitField {
    pub fn set(self, memory: &mut Memory) {
        match self {
            WaitField::Number(i, n) if i < WAITS => memory.waits[i] = n,
            WaitField::Mark(i, n) if i < QUEUE => memory.marks[i] = n,
            WaitField::Byte(i, n) if i < QUEUE => memory.queue[i] = n,
            _ => {}
        }
    }
}
