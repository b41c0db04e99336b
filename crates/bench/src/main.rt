// The web server's end played from a script: a command on each line of standard input, an answer on each line of
// standard output. With the arguments `station`, TO and FROM it drives a station besides: what is written goes to the
// pipe TO, and what the station answers comes from the pipe FROM.
#![tactic(auto)]

mod answer;
mod command;
mod memory;
mod station;
mod told;

use crate::answer::{new_bench, new_inbox};
use crate::command::read_line;
use crate::station::{is_asked, open_pipes};
use script::input::{Input, LINE};
use script::page::Page;
use script::words::BYTES;
use std::io;

// The buffers are made once. A proved loop has to end, and nothing says that the input does: so this one counts to a
// number of turns that no run uses up.
fn main(rt: HostRuntime) -> io::Result<()> {
    let asked = is_asked(&rt);
    let mut pipes = open_pipes(&rt, asked)?;
    let mut bench = new_bench();
    let mut inbox = new_inbox();
    let mut input = Input::new(&rt);
    let mut page = Page::new(&rt);
    let mut line = [0; LINE];
    let mut bytes = [0; BYTES];
    for _ in 0..u64::MAX {
        let Some(n) = input.next_line(&mut line)? else {
            return Ok(());
        };
        let Some(text) = line.get(..n) else {
            page.tell(b"long")?;
            continue;
        };
        match read_line(text, &mut bytes) {
            Some(command) => bench.answer(&mut page, &mut pipes, &mut inbox, command)?,
            None => page.tell(b"what")?,
        }
    }
    Ok(())
}
