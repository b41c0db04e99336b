// The calls tried by hand: a command on each line of standard input, an answer on each line of standard output.
#![tactic(auto)]

mod answer;
mod ask;
mod command;
mod correction;
mod readings;
mod told;
mod write;

use crate::answer::new_console;
use crate::command::read_line;
use script::input::{Input, LINE};
use script::page::Page;
use script::words::BYTES;
use std::io;

// The buffers are made once. A proved loop has to end, and nothing says that the input does: so this one counts to a
// number of turns that no run uses up.
fn main(rt: HostRuntime) -> io::Result<()> {
    let mut console = new_console();
    let mut input = Input::new(&rt);
    let mut page = Page::new(&rt);
    let mut line = [0; LINE];
    let mut bytes = [0; BYTES];
    for _ in 0..u64::MAX {
        let Some(n) = input.next_line(&mut line)? else {
            return Ok(());
        };
        let Some(text) = line.get(..n) else {
            page.tell(b"long")?;
            continue;
        };
        match read_line(text, &mut bytes) {
            Some(command) => console.answer(&mut page, command)?,
            None => page.tell(b"what")?,
        }
    }
    Ok(())
}
