// What the station keeps of its requests: an entry for each one that is ready and not answered to its end.
use fastcgi_queue::SLOTS;

// What is still to be told of a reading: its text once, without a newline, or so many lines of it. With no lines left,
// the complaint comes.
#[derive(Clone, Copy, Debug, PartialEq, Eq)]
pub enum Told {
    Once,
    Lines(u64),
}

// What is still to be said to a request. The first `place` bytes of what is being said, the line or the complaint, are
// said already.
#[derive(Clone, Copy, Debug, PartialEq, Eq)]
pub struct Entry {
    pub id: u16,
    pub told: Told,
    pub place: usize,
}

impl Entry {
    // The entry after n more bytes of its text.
    pub fn further(self, n: usize) -> Entry {
        Entry {
            place: self.place.saturating_add(n),
            ..self
        }
    }

    // The entry after a line.
    pub fn after_line(self) -> Entry {
        let left = match self.told {
            Told::Once => 0,
            Told::Lines(n) => n.saturating_sub(1),
        };
        Entry {
            told: Told::Lines(left),
            place: 0,
            ..self
        }
    }
}

// There are as many entries as there can be requests.
#[derive(Drop)]
pub struct Noted {
    pub entries: [Option<Entry>; SLOTS],
}

impl Noted {
    pub fn new() -> Noted {
        Noted {
            entries: [None; SLOTS],
        }
    }

    // A request is to be answered.
    pub fn note(&mut self, id: u16, told: Told) {
        for entry in &mut self.entries {
            if entry.is_none() {
                *entry = Some(Entry { id, told, place: 0 });
                return;
            }
        }
    }

    // Nothing more is to be said to a request.
    pub fn strike(&mut self, id: u16) {
        for entry in &mut self.entries {
            if entry.is_some_and(|e| e.id == id) {
                *entry = None;
                return;
            }
        }
    }
}
