// Bytes fed to an end of a connection, and all that its steps tell on one line.
use crate::page::Page;
use std::io;

// A stream whose bytes an event shows: its request, and the type of its records.
#[derive(Clone, Copy, PartialEq, Eq)]
pub struct Source {
    pub id: u16,
    pub kind: u8,
}

// What a step came to: how many bytes it used, and what it told, or the number of its refusal.
#[derive(Clone, Copy)]
pub struct Step<E> {
    pub used: usize,
    pub told: Result<E, u8>,
}

// An end of a connection, with all that its steps are lent.
pub trait End {
    type Event: Copy;

    // A step over a piece. What it finds is kept.
    fn step(&mut self, piece: &[u8]) -> Step<Self::Event>;

    // Whether the last step changed anything.
    fn is_changed(&self) -> bool;

    // The event that tells nothing.
    fn nothing() -> Self::Event;

    fn is_nothing(e: Self::Event) -> bool;

    fn is_close(e: Self::Event) -> bool;

    // Whose bytes an event shows, and how many.
    fn shown(e: Self::Event) -> Option<(Source, usize)>;

    // An event; the bytes that it shows are the last of those used.
    fn put_event(&self, page: &mut Page, e: Self::Event, used: &[u8]) -> io::Result<()>;
}

// What the steps told so far: the last event that was told, the bytes used by all steps together, and the number of the
// refusal that ended them. A step that is `alone` puts its event after the bytes used.
#[derive(Clone, Copy)]
pub struct Tale<E> {
    pub event: E,
    pub used: usize,
    pub refusal: Option<u8>,
    alone: bool,
}

// The last n bytes; none where there are fewer.
pub fn last_part(bytes: &[u8], n: usize) -> &[u8] {
    bytes
        .get(bytes.len().saturating_sub(n)..)
        .filter(|part| part.len() == n)
        .unwrap_or(&[])
}

// Where the piece ends that a place lies in.
fn piece_end(from: usize, size: usize, end: usize) -> usize {
    let Some(before) = from.checked_rem(size) else {
        return end;
    };
    from.saturating_add(size.saturating_sub(before)).min(end)
}

// Before the first step.
pub fn untold<E: End>(alone: bool) -> Tale<E::Event> {
    Tale {
        event: E::nothing(),
        used: 0,
        refusal: None,
        alone,
    }
}

// The mark between the events and what comes after them.
pub fn put_mark<E: End>(page: &mut Page, last: E::Event, mark: &[u8]) -> io::Result<()> {
    if E::is_nothing(last) {
        return Ok(());
    }
    page.put(mark)
}

// An event after the last one. Bytes of the stream that was shown last go on from those.
fn put_next<E: End>(
    end: &E,
    page: &mut Page,
    last: E::Event,
    event: E::Event,
    used: &[u8],
) -> io::Result<()> {
    if let (Some((before, _)), Some((source, count))) = (E::shown(last), E::shown(event)) {
        if before == source && count > 0 {
            return page.put_pairs(last_part(used, count));
        }
    }
    put_mark::<E>(page, last, b"; ")?;
    end.put_event(page, event, used)
}

// A step over what is left of a piece, and what it adds to the line.
pub fn take_step<E: End>(
    end: &mut E,
    page: &mut Page,
    tale: Tale<E::Event>,
    piece: &[u8],
) -> io::Result<Tale<E::Event>> {
    let step = end.step(piece);
    let event = step.told.unwrap_or(E::nothing());
    let told = Tale {
        used: tale.used.saturating_add(step.used),
        refusal: step.told.err(),
        ..tale
    };
    if E::is_nothing(event) {
        return Ok(told);
    }
    if !tale.alone {
        put_next(
            end,
            page,
            tale.event,
            event,
            piece.get(..step.used).unwrap_or(&[]),
        )?;
    }
    Ok(Tale { event, ..told })
}

// Whether no step is to follow: the last one closed the connection, was refused or used nothing.
fn is_over<E: End>(tale: Tale<E::Event>, before: usize) -> bool {
    E::is_close(tale.event) || tale.refusal.is_some() || tale.used <= before
}

// The end of a line of steps: the refusal, or a last word and a number.
fn put_end<E: End>(end: &E, page: &mut Page, tale: Tale<E::Event>) -> io::Result<()> {
    put_mark::<E>(page, tale.event, b"; ")?;
    match tale.refusal {
        Some(why) => page.put_refusal(why, end.is_changed())?,
        None => page.put_number(b"used ", tale.used as u64)?,
    }
    page.end_line()
}

// Feeds bytes in pieces of that size, and tells what the steps told and how many bytes they used. Each step but the last
// uses a byte, so there are no more steps than bytes.
pub fn feed<E: End>(
    end: &mut E,
    page: &mut Page,
    size: usize,
    input: &[u8],
) -> io::Result<Tale<E::Event>> {
    let mut tale = untold::<E>(false);
    let mut from: usize = 0;
    for _ in 0..input.len() {
        let piece = input
            .get(from..piece_end(from, size, input.len()))
            .unwrap_or(&[]);
        tale = take_step(end, page, tale, piece)?;
        if is_over::<E>(tale, from) || tale.used >= input.len() {
            break;
        }
        from = tale.used;
    }
    put_end(end, page, tale)?;
    Ok(tale)
}

// Takes a single step over all bytes, and tells how many it used and its event.
pub fn feed_once<E: End>(end: &mut E, page: &mut Page, input: &[u8]) -> io::Result<Tale<E::Event>> {
    let tale = take_step(end, page, untold::<E>(true), input)?;
    if tale.refusal.is_some() {
        put_end(end, page, tale)?;
        return Ok(tale);
    }
    page.put_number(b"used ", tale.used as u64)?;
    put_mark::<E>(page, tale.event, b" ")?;
    end.put_event(page, tale.event, input.get(..tale.used).unwrap_or(&[]))?;
    page.end_line()?;
    Ok(tale)
}
