// Lines of standard input.
use host::{large_buffer, read_some};
use std::io;
use wire::copy_into;

// The most characters of a line.
pub const LINE: usize = 140000;

// How many bytes are read at once.
const PIECE: usize = 65536;

// What was read of the input and not cut into lines yet lies in the piece between two places.
#[derive(Clone, Copy)]
pub struct Input<'a> {
    rt: &'a HostRuntime,
    piece: [u8; PIECE],
    from: usize,
    to: usize,
}

// Adds a part of a line to what is held of it, and answers how much is held: LINE + 1 of a line that is too long.
fn hold(line: &mut [u8], held: usize, text: &[u8]) -> usize {
    if LINE.saturating_sub(held) < text.len() {
        return LINE + 1;
    }
    copy_into(line, held, text);
    held.saturating_add(text.len())
}

impl<'a> Input<'a> {
    pub fn new(rt: &'a HostRuntime) -> Self {
        Input {
            rt,
            piece: large_buffer(),
            from: 0,
            to: 0,
        }
    }

    // The next line, without its newline, which the last may lack: how many characters it has, or LINE + 1 where it is
    // too long. A proved loop has to end, and nothing says that the input does: so this one counts to a number of turns
    // that no run uses up.
    pub fn next_line(&mut self, line: &mut [u8; LINE]) -> io::Result<Option<usize>> {
        let mut held: usize = 0;
        for _ in 0..u64::MAX {
            let unread = self.piece.get(self.from..self.to).unwrap_or(&[]);
            if let Some(n) = unread.iter().position(|b| *b == b'\n') {
                self.from = self.from.saturating_add(n).saturating_add(1);
                return Ok(Some(hold(line, held, &unread[..n])));
            }
            held = hold(line, held, unread);
            self.from = 0;
            self.to = read_some(self.rt, &mut self.piece)?;
            if self.to == 0 {
                return Ok(Some(held).filter(|n| *n > 0));
            }
        }
        Ok(None)
    }
}
