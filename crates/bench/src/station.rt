// A station on the other end of two pipes.
use host::{argument, argument_count, buffer};
use std::fs::{File, OpenOptions};
use std::io;
use std::io::{Read, Write};

// The numbers of the arguments: a word, the pipe that the station reads, and the one that it writes.
const WORD: usize = 1;

const TO: usize = 2;

const FROM: usize = 3;

// How many arguments there are then, with the program's name.
const ALL: usize = 4;

// What the station reads, until it is hung up, and what it writes. Where there is no station there is neither.
#[derive(Drop)]
pub struct Pipes {
    to: Option<File>,
    from: Option<File>,
}

// Whether the program is asked to drive a station.
pub fn is_asked(rt: &HostRuntime) -> bool {
    let mut word = buffer();
    let n = argument(rt, WORD, &mut word);
    if argument_count(rt) != ALL {
        return false;
    }
    matches!(&word[..n], b"station")
}

// Opens the file that argument i names.
fn open(rt: &HostRuntime, i: usize, options: &OpenOptions) -> io::Result<Option<File>> {
    let mut word = buffer();
    let n = argument(rt, i, &mut word);
    match str::from_utf8(&word[..n]) {
        Ok(path) => Ok(Some(options.open(rt, path)?)),
        Err(_) => Err(io::Error::from(io::ErrorKind::InvalidInput)),
    }
}

// Without a station.
fn no_pipes() -> Pipes {
    Pipes {
        to: None,
        from: None,
    }
}

// Opens the pipes, if the program is asked to drive a station: first the one that the station opens first.
pub fn open_pipes(rt: &HostRuntime, asked: bool) -> io::Result<Pipes> {
    if !asked {
        return Ok(no_pipes());
    }
    let mut writing = OpenOptions::new();
    writing.write(true);
    let mut reading = OpenOptions::new();
    reading.read(true);
    let to = open(rt, TO, &writing)?;
    let from = open(rt, FROM, &reading)?;
    Ok(Pipes { to, from })
}

// Whether there is a station, or was before it was hung up.
pub fn is_there(pipes: &Pipes) -> bool {
    pipes.from.is_some()
}

// Sends what a call wrote, if there is a station. To a station that has ended it cannot be sent, and what is heard of that station says so.
pub fn send(pipes: &mut Pipes, bytes: &[u8]) {
    if let Some(to) = &mut pipes.to {
        let _ = to.write_all(bytes);
    }
}

// Ends the station's input.
pub fn hang_up(pipes: &mut Pipes) {
    pipes.to = None;
}

// Reads what the station writes next: how many bytes came, 0 at its end.
pub fn receive(pipes: &mut Pipes, piece: &mut [u8]) -> usize {
    match &mut pipes.from {
        Some(from) => match from.read(piece) {
            Ok(n) => n,
            Err(_) => 0,
        },
        None => 0,
    }
}
