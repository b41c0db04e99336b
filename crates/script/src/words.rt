// A line read word by word. Between two words stands one space: two spaces have a word of no characters between them.
// Each method but `next` reads the next word as what it says, and gives nothing where the word is none or there is none.
use crate::hex::decode;
use crate::number::{number_of, signed_of};
use connection::answer::Output;
use connection::event::Stream;
use std::mem::take;

// The most bytes in hex that a line gives, and the most bytes of a room.
pub const BYTES: usize = 70000;

// The most bytes of a piece.
const PIECE: usize = 65536;

// What is left of the line, nothing once its last word is read; and the room for bytes in hex, of which each word takes
// what it needs.
#[derive(Drop)]
pub struct Words<'a> {
    rest: Option<&'a [u8]>,
    room: &'a mut [u8],
}

impl<'a> Words<'a> {
    pub fn new(line: &'a [u8], room: &'a mut [u8]) -> Self {
        Words {
            rest: Some(line),
            room,
        }
    }

    pub fn next(&mut self) -> Option<&'a [u8]> {
        let mut words = self.rest?.splitn(2, |b| *b == b' ');
        let word = words.next();
        self.rest = words.next();
        word
    }

    // Whether all words are read.
    pub fn is_over(&self) -> bool {
        self.rest.is_none()
    }

    pub fn number(&mut self) -> Option<u64> {
        number_of(self.next()?)
    }

    pub fn size(&mut self) -> Option<usize> {
        usize::try_from(self.number()?).ok()
    }

    pub fn up_to(&mut self, most: usize) -> Option<usize> {
        self.size().filter(|n| *n <= most)
    }

    pub fn byte(&mut self) -> Option<u8> {
        u8::try_from(self.number()?).ok()
    }

    // A number of 16 bits; so is an id.
    pub fn short(&mut self) -> Option<u16> {
        u16::try_from(self.number()?).ok()
    }

    // A number of 32 bits.
    pub fn long(&mut self) -> Option<u32> {
        u32::try_from(self.number()?).ok()
    }

    pub fn signed(&mut self) -> Option<i32> {
        signed_of(self.next()?)
    }

    // How many bytes a call is lent to write into.
    pub fn room(&mut self) -> Option<usize> {
        self.up_to(BYTES)
    }

    // The size of a piece: a piece has at least one byte.
    pub fn piece(&mut self) -> Option<usize> {
        self.up_to(PIECE).filter(|n| *n > 0)
    }

    // Bytes in hex, at most so many.
    pub fn bytes(&mut self, most: usize) -> Option<&'a [u8]> {
        let word = self.next()?;
        let room = take(&mut self.room);
        let n = decode(word, most, room)?;
        let (bytes, rest) = room.split_at_mut_checked(n)?;
        self.room = rest;
        Some(bytes)
    }

    // At most eight bytes in hex, with zeros after them.
    pub fn eight(&mut self) -> Option<[u8; 8]> {
        let mut eight = [0; 8];
        decode(self.next()?, 8, &mut eight)?;
        Some(eight)
    }

    pub fn flag(&mut self) -> Option<bool> {
        match self.next()? {
            b"0" => Some(false),
            b"1" => Some(true),
            _ => None,
        }
    }

    pub fn output(&mut self) -> Option<Output> {
        match self.next()? {
            b"stdout" => Some(Output::Stdout),
            b"stderr" => Some(Output::Stderr),
            _ => None,
        }
    }

    pub fn stream(&mut self) -> Option<Stream> {
        match self.next()? {
            b"stdin" => Some(Stream::Stdin),
            b"data" => Some(Stream::Data),
            _ => None,
        }
    }
}
