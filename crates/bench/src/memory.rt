// The connection, and the values that are lent beside it.
use crate::command::{Field, Writing};
use fastcgi_server::{
    QUERY, Server, ServerStepped, abort_request, add_pair, ask_values, end_input, open_request,
    refusal_number, start_server, step_server, write_input,
};
use script::page::fill;
use server::state::Frame;

// A copy from before a call is what shows whether the call changed anything.
#[derive(Clone, Copy, PartialEq, Eq)]
pub struct Memory {
    pub server: Server,
    pub values: [u8; QUERY],
}

// A closed connection, and the values zeroed.
pub fn fresh() -> Memory {
    let mut values = [0; QUERY];
    let server = start_server(&mut values);
    Memory {
        server: Server {
            open: false,
            ..server
        },
        values,
    }
}

// All values, with zeros where there are fewer bytes.
fn all_values(bytes: &[u8]) -> [u8; QUERY] {
    let mut values = [0; QUERY];
    for (to, b) in values.iter_mut().zip(bytes) {
        *to = *b;
    }
    values
}

// The record being read with a field set.
fn with_frame(s: Server, frame: Frame) -> Server {
    Server { frame, ..s }
}

impl Memory {
    pub fn start(&mut self) {
        self.server = start_server(&mut self.values);
    }

    pub fn step(&mut self, piece: &[u8]) -> ServerStepped {
        let stepped = step_server(self.server, &mut self.values, piece);
        self.server = stepped.server;
        stepped
    }

    // A call that writes, into a room that is filled first: how many bytes it wrote, or the number of its refusal.
    pub fn fill_and_write(&mut self, call: Writing, room: &mut [u8]) -> Result<usize, u8> {
        fill(room);
        let s = self.server;
        let written = match call {
            Writing::Open { id, role, keep } => open_request(s, id, role, keep, room),
            Writing::Pair(id, name, value) => add_pair(s, id, name, value, room),
            Writing::Write(id, stream, bytes) => write_input(s, id, stream, bytes, room),
            Writing::End(id, input) => end_input(s, id, input, room),
            Writing::Abort(id) => abort_request(s, id, room),
            Writing::Ask(list) => ask_values(s, list, room),
        };
        self.server = written.server;
        written.wrote.map_err(refusal_number)
    }

    // Sets a field.
    pub fn poke(&mut self, field: Field) {
        let s = self.server;
        let f = s.frame;
        match field {
            Field::Open(open) => self.server = Server { open, ..s },
            Field::Table(field) => {
                self.server = Server {
                    table: field.set(s.table),
                    ..s
                }
            }
            Field::Position(field) => {
                self.server = with_frame(
                    s,
                    Frame {
                        position: field.set(f.position),
                        ..f
                    },
                )
            }
            Field::Target(target) => self.server = with_frame(s, Frame { target, ..f }),
            Field::Gathered(gathered) => self.server = with_frame(s, Frame { gathered, ..f }),
            Field::Body(body) => self.server = with_frame(s, Frame { body, ..f }),
            Field::Values(bytes) => self.values = all_values(bytes),
        }
    }
}
