// Replays a captured connection from standard input: a line for each event and for each byte of data.
#![tactic(auto)]

use event_text::{LONGEST, write_byte_line, write_line};
use fastcgi::{Conn, Event, QUERY, STORE, Stream, next_event, start};
use host::{large_buffer, read_pieces, write_first, write_out};
use std::io;

// Writes out what the buffer holds, and answers where the next line goes: at its start.
fn flush(rt: &HostRuntime, out: &[u8], at: usize) -> io::Result<usize> {
    write_first(rt, out, at)?;
    Ok(0)
}

// Where the next line goes, with room for it.
fn with_room(rt: &HostRuntime, out: &[u8], at: usize) -> io::Result<usize> {
    if at <= out.len() && LONGEST <= out.len() - at {
        return Ok(at);
    }
    flush(rt, out, at)
}

// A line for each byte.
fn show_bytes(
    rt: &HostRuntime,
    out: &mut [u8],
    at: usize,
    id: u16,
    stream: Stream,
    bytes: &[u8],
) -> io::Result<usize> {
    let mut place = at;
    for byte in bytes {
        let room = with_room(rt, out, place)?;
        place = write_byte_line(out, room, id, stream, *byte);
    }
    Ok(place)
}

// The lines of an event; of data the bytes are the last of those used.
fn show(rt: &HostRuntime, out: &mut [u8], at: usize, e: Event, used: &[u8]) -> io::Result<usize> {
    if let Event::Data { id, stream, count } = e {
        let first = used.len().saturating_sub(count);
        return show_bytes(rt, out, at, id, stream, &used[first..]);
    }
    let room = with_room(rt, out, at)?;
    Ok(write_line(out, room, e))
}

// A connection, and the place of the next line.
#[derive(Clone, Copy)]
struct Replay {
    conn: Conn,
    at: usize,
}

// Goes through a piece from event to event, to its end or to a close.
fn replay_piece(
    rt: &HostRuntime,
    r: Replay,
    store: &mut [u8],
    gathered: &mut [u8; QUERY],
    piece: &[u8],
    out: &mut [u8],
) -> io::Result<Replay> {
    let mut conn = r.conn;
    let mut at = r.at;
    let mut from = 0;
    while from < piece.len() {
        let stepped = next_event(conn, store, gathered, &piece[from..]);
        conn = stepped.conn;
        let used = stepped.used;
        if used == 0 || piece.len() - from < used {
            return Ok(Replay { conn, at });
        }
        let next = from + used;
        if let Ok(event) = stepped.result {
            at = show(rt, out, at, event, &piece[from..next])?;
        }
        from = next;
    }
    Ok(Replay { conn, at })
}

// How it stops: closed, cut inside a record, or open between two.
fn stop(rt: &HostRuntime, c: Conn) -> io::Result<()> {
    let p = c.frame.position;
    if !c.open {
        return write_out(rt, b"stop closed\n");
    }
    if p.held == 0 && p.content == 0 && p.padding == 0 {
        return write_out(rt, b"stop open\n");
    }
    write_out(rt, b"stop cut\n")
}

fn main(rt: HostRuntime) -> io::Result<()> {
    let mut store = [0u8; STORE];
    let mut gathered = [0u8; QUERY];
    let mut out = large_buffer();
    let mut replay = Replay {
        conn: start(&mut store, &mut gathered).conn,
        at: 0,
    };
    // At the end of the input or after a close there is no more.
    read_pieces(&rt, |piece| {
        replay = replay_piece(&rt, replay, &mut store, &mut gathered, piece, &mut out)?;
        Ok(replay.conn.open)
    })?;
    flush(&rt, &out, replay.at)?;
    stop(&rt, replay.conn)
}
