// The page: the text of one line on its way to standard output, and the room that a call writes into.
use host::{decimal, write_out};
use std::io;
use wire::copy_into;

// How many bytes a page holds.
const PAGE: usize = 65536;

// What stands in a room before a call.
const FILL: u8 = 238;

// So many bytes of the text stand on the page and are not written out yet.
#[derive(Drop)]
pub struct Page<'a> {
    rt: &'a HostRuntime,
    text: [u8; PAGE],
    held: usize,
}

// Fills the room that a call is lent.
pub fn fill(room: &mut [u8]) {
    room.fill(FILL);
}

// The hex digit of a number below 16.
fn digit(d: u8) -> u8 {
    if d < 10 {
        b'0' + d
    } else {
        b'a' + (d - 10) % 16
    }
}

impl<'a> Page<'a> {
    pub fn new(rt: &'a HostRuntime) -> Self {
        Page {
            rt,
            text: [0; PAGE],
            held: 0,
        }
    }

    // Writes out what the page holds.
    fn flush(&mut self) -> io::Result<()> {
        let n = self.held.min(PAGE);
        self.held = 0;
        write_out(self.rt, &self.text[..n])
    }

    // Puts text after what the page holds. A text longer than a page is left out.
    pub fn put(&mut self, text: &[u8]) -> io::Result<()> {
        if PAGE.saturating_sub(self.held) < text.len() {
            self.flush()?;
        }
        if text.len() <= PAGE.saturating_sub(self.held) {
            copy_into(&mut self.text, self.held, text);
            self.held = self.held.saturating_add(text.len());
        }
        Ok(())
    }

    // A mark and a number in decimal.
    pub fn put_number(&mut self, mark: &[u8], n: u64) -> io::Result<()> {
        let mut digits = [0; 20];
        let k = decimal(n, &mut digits);
        self.put(mark)?;
        self.put(&digits[..k])
    }

    // Two hex digits for each byte, each put at its place: by `put` a long area took 1.3 times as long.
    pub fn put_pairs(&mut self, bytes: &[u8]) -> io::Result<()> {
        for b in bytes {
            if PAGE.saturating_sub(self.held) < 2 {
                self.flush()?;
            }
            let at = self.held;
            if at < PAGE - 1 {
                self.text[at] = digit(*b / 16);
                self.text[at + 1] = digit(*b % 16);
                self.held = at + 2;
            }
        }
        Ok(())
    }

    // A space and bytes in hex; `-` is no bytes.
    pub fn put_hex(&mut self, bytes: &[u8]) -> io::Result<()> {
        if bytes.is_empty() {
            return self.put(b" -");
        }
        self.put(b" ")?;
        self.put_pairs(bytes)
    }

    // `refused N`
    pub fn put_refused(&mut self, why: u8) -> io::Result<()> {
        self.put_number(b"refused ", u64::from(why))
    }

    // `refused N`, and ` changed` where the call changed something all the same.
    pub fn put_refusal(&mut self, why: u8, changed: bool) -> io::Result<()> {
        self.put_refused(why)?;
        if changed {
            self.put(b" changed")?;
        }
        Ok(())
    }

    // ` touched` where a byte after those written is not as the room was filled.
    pub fn put_touched(&mut self, room: &[u8], written: usize) -> io::Result<()> {
        let beyond = room.get(written..).unwrap_or(&[]);
        if beyond.iter().any(|b| *b != FILL) {
            self.put(b" touched")?;
        }
        Ok(())
    }

    // Ends the line, and writes out what the page holds.
    pub fn end_line(&mut self) -> io::Result<()> {
        self.put(b"\n")?;
        self.flush()
    }

    // A line of words alone.
    pub fn tell(&mut self, text: &[u8]) -> io::Result<()> {
        self.put(text)?;
        self.end_line()
    }

    // The line of a call that only answers a refusal.
    pub fn tell_refused(&mut self, why: u8) -> io::Result<()> {
        self.put_refused(why)?;
        self.end_line()
    }

    // The line of a call that writes: how many bytes and which, and a last word; or its refusal.
    pub fn tell_written(
        &mut self,
        written: Result<(usize, &[u8]), u8>,
        changed: bool,
        room: &[u8],
    ) -> io::Result<()> {
        let count = match written {
            Ok((n, last_word)) => {
                self.put_number(b"wrote ", n as u64)?;
                self.put_hex(room.get(..n).unwrap_or(&[]))?;
                self.put(last_word)?;
                n
            }
            Err(why) => {
                self.put_refusal(why, changed)?;
                0
            }
        };
        self.put_touched(room, count)?;
        self.end_line()
    }
}
