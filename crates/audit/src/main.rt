// Asks the plain receiver for one event after another of a captured connection from standard input, and prints the
// lines that the replay prints.
#![tactic(auto)]

use connection::event::Event;
use event_text::{LONGEST, write_byte_line, write_line};
use host::{read_full, write_first, write_out};
use plain::{Answer, LastWord, event_at};
use std::io;

// The longest capture that it takes, 1 MiB.
const LARGEST: usize = 1048576;

fn print_event(rt: &HostRuntime, event: Event) -> io::Result<()> {
    let mut line = [0u8; LONGEST];
    let n = write_line(&mut line, 0, event);
    write_first(rt, &line, n)
}

fn print_last(rt: &HostRuntime, word: LastWord) -> io::Result<()> {
    match word {
        LastWord::Open => write_out(rt, b"stop open\n"),
        LastWord::Cut => write_out(rt, b"stop cut\n"),
        LastWord::Closed { cause } => {
            print_event(rt, Event::Closed { cause })?;
            write_out(rt, b"stop closed\n")
        }
    }
}

// Prints an answer, and says whether there is another event to ask for.
fn print_answer(rt: &HostRuntime, answer: Answer) -> io::Result<bool> {
    match answer {
        Answer::Event(event) => {
            print_event(rt, event)?;
            Ok(true)
        }
        Answer::Byte { id, stream, byte } => {
            let mut line = [0u8; LONGEST];
            let n = write_byte_line(&mut line, 0, id, stream, byte);
            write_first(rt, &line, n)?;
            Ok(true)
        }
        Answer::Last(word) => {
            print_last(rt, word)?;
            Ok(false)
        }
    }
}

// Asks from 0 on, up to the last word. (A proved loop has to end, so it counts to a number that no capture comes to.)
fn print_all(rt: &HostRuntime, capture: &[u8]) -> io::Result<()> {
    for k in 0..usize::MAX {
        if !print_answer(rt, event_at(capture, k))? {
            return Ok(());
        }
    }
    Ok(())
}

// Reads a capture to its end and prints its lines. There is room for one byte more than the longest capture has.
fn audit(rt: &HostRuntime, capture: &mut [u8]) -> io::Result<()> {
    let n = read_full(rt, capture)?;
    if LARGEST < n {
        return write_out(rt, b"audit: the capture is longer than 1048576 bytes\n");
    }
    print_all(rt, &capture[..n])
}

// (The array goes through a function of its own, because the length of so long a local array is not proved.)
fn audit_with(rt: &HostRuntime, capture: &mut [u8; LARGEST + 1]) -> io::Result<()> {
    audit(rt, capture)
}

fn main(rt: HostRuntime) -> io::Result<()> {
    let mut capture = [0u8; LARGEST + 1];
    audit_with(&rt, &mut capture)
}
