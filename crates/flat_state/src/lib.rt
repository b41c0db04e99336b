// The state of a connection as numbers and arrays, for callers in other languages: made of a state, tested, and read
// back.
#![tactic(auto)]

ghost use Rattle.std.specs.Prelude.{◌≡◌};
ghost use Rattle.flat_state.specs.Flat.{turn_number, life_number, target_kind, target_number};
ghost use Rattle.flat_state.specs.Flat.{role_of, turn_of, life_of, target_of, standing_of, standings_of, codes_of};
ghost use Rattle.flat_state.specs.Flat.{every, within, known_target, flat_of, table_of, frame_of, conn_of, known};

use codes::role_number;
use connection::request::{Life, Role, Standing, Turn};
use connection::sizes::SLOTS;
use connection::state::{Conn, Frame, Table, Target};
use record_reader::Position;

// The state as C holds it. The fields stand from the widest to the narrowest, so that C leaves no gap between two of
// them. A usize is C's size_t; where that has eight bytes the whole has 304, and the last two are unused.
#[repr(C)]
#[derive(Clone, Copy)]
pub struct FlatState {
    // Where the reader stands: how much is left of the content and of the padding, and how many header bytes are in.
    pub content: usize,
    pub padding: usize,
    pub held: usize,
    // How many bytes of a body are gathered.
    pub gathered: usize,
    // The requests, slot by slot: what was shown of their input, their ids, and the lengths of their lists.
    pub stdin_shown: [u32; SLOTS],
    pub data_shown: [u32; SLOTS],
    pub ids: [u16; SLOTS],
    pub lengths: [u16; SLOTS],
    // Words with a bit for each slot: the marks of its request, and whether it is taken.
    pub keep: u16,
    pub out_ended: u16,
    pub err_used: u16,
    pub err_ended: u16,
    pub occupied: u16,
    // The id of the request to be opened, or the slot, that the content is for; 0 where the target has neither.
    pub target_number: u16,
    // The requests' roles, by FastCGI's numbers: 1 responder, 2 authorizer, 3 filter.
    pub roles: [u8; SLOTS],
    // Whose turn it is: 0 PARAMS, 1 STDIN, 2 DATA, 3 nobody's.
    pub turns: [u8; SLOTS],
    // Whether they are spent: 0 live, 1 faulted, 2 aborted.
    pub lives: [u8; SLOTS],
    // The header bytes that are in, and the bytes of a BEGIN_REQUEST body that are gathered.
    pub header: [u8; 8],
    pub body: [u8; 8],
    // What the content is for: 0 nothing, 1 a request to be opened, 2 a query, 3 PARAMS, 4 STDIN, 5 DATA.
    pub target: u8,
    // 1 open, 0 closed.
    pub open: u8,
}

// How the requests stand, slot by slot, as numbers.
#[derive(Clone, Copy)]
struct Codes {
    roles: [u8; SLOTS],
    turns: [u8; SLOTS],
    lives: [u8; SLOTS],
}

pub fn turn_number(turn: Turn) -> u8
    ensures { result ≡ turn_number turn }
{
    match turn {
        Turn::Params => 0,
        Turn::Stdin => 1,
        Turn::Data => 2,
        Turn::Done => 3,
    }
}

pub fn life_number(life: Life) -> u8
    ensures { result ≡ life_number life }
{
    match life {
        Life::Live => 0,
        Life::Faulted => 1,
        Life::Aborted => 2,
    }
}

fn target_kind(target: Target) -> u8
    ensures { result ≡ target_kind target }
{
    match target {
        Target::Skip => 0,
        Target::Begin(_) => 1,
        Target::Query => 2,
        Target::Params(_) => 3,
        Target::Stdin(_) => 4,
        Target::Data(_) => 5,
    }
}

// The id or the slot of a target, 0 where it has neither.
fn target_number(target: Target) -> u16
    ensures { result ≡ target_number target }
{
    match target {
        Target::Skip | Target::Query => 0,
        Target::Begin(id) => id,
        Target::Params(slot) | Target::Stdin(slot) | Target::Data(slot) => u16::from(slot),
    }
}

// The role that has a number; any but 1 and 2 is read as a filter's.
#[tactic(auto, unfolding(crate::specs::Flat::role_of))]
pub fn role_of(n: u8) -> Role
    ensures { result ≡ role_of n }
{
    match n {
        1 => Role::Responder,
        2 => Role::Authorizer,
        _ => Role::Filter,
    }
}

#[tactic(auto, unfolding(crate::specs::Flat::turn_of))]
fn turn_of(n: u8) -> Turn
    ensures { result ≡ turn_of n }
{
    match n {
        0 => Turn::Params,
        1 => Turn::Stdin,
        2 => Turn::Data,
        _ => Turn::Done,
    }
}

#[tactic(auto, unfolding(crate::specs::Flat::life_of))]
fn life_of(n: u8) -> Life
    ensures { result ≡ life_of n }
{
    match n {
        0 => Life::Live,
        1 => Life::Faulted,
        _ => Life::Aborted,
    }
}

#[tactic(auto, unfolding(crate::specs::Flat::standing_of))]
fn standing_of(role: u8, turn: u8, life: u8) -> Standing
    ensures { result ≡ standing_of role turn life }
{
    Standing {
        role: role_of(role),
        turn: turn_of(turn),
        life: life_of(life),
    }
}

#[tactic(auto, unfolding(crate::specs::Flat::target_of))]
fn target_of(kind: u8, number: u16) -> Target
    ensures { result ≡ target_of kind number }
{
    let slot = (number % 256) as u8;
    match kind {
        0 => Target::Skip,
        1 => Target::Begin(number),
        2 => Target::Query,
        3 => Target::Params(slot),
        4 => Target::Stdin(slot),
        _ => Target::Data(slot),
    }
}

fn codes_of(t: Table) -> Codes
    ensures { result ≡ codes_of t.standings }
{
    let mut roles = [0; SLOTS];
    let mut turns = [0; SLOTS];
    let mut lives = [0; SLOTS];
    for i in 0..SLOTS {
        let standing = t.standings[i];
        roles[i] = role_number(standing.role);
        turns[i] = turn_number(standing.turn);
        lives[i] = life_number(standing.life);
    }
    Codes {
        roles,
        turns,
        lives,
    }
}

fn standings_of(roles: [u8; SLOTS], turns: [u8; SLOTS], lives: [u8; SLOTS]) -> [Standing; SLOTS]
    ensures { result ≡ standings_of roles turns lives }
{
    let mut standings = [standing_of(0, 0, 0); SLOTS];
    for i in 0..SLOTS {
        standings[i] = standing_of(roles[i], turns[i], lives[i]);
    }
    standings
}

fn is_within(low: u8, high: u8, n: u8) -> bool
    ensures { result ≡ within low high n }
{
    (low <= n) & (n <= high)
}

// All of the numbers are from `low` to `high`. The loop has no way out and no branch, so that it is quick.
fn all_within(low: u8, high: u8, numbers: [u8; SLOTS]) -> bool
    ensures { result ≡ every (within low high) numbers }
{
    let mut all = true;
    for slot in 0..SLOTS {
        all &= is_within(low, high, numbers[slot]);
    }
    all
}

#[tactic(auto, unfolding(crate::specs::Flat::known_target))]
fn is_known_target(kind: u8, number: u16) -> bool
    ensures { result ≡ known_target kind number }
{
    match kind {
        0 | 2 => number == 0,
        1 => true,
        _ => (kind <= 5) & (number < 256),
    }
}

// The state as numbers and arrays.
#[tactic(auto, unfolding(crate::specs::Flat::flat_of))]
pub fn to_flat(c: Conn) -> FlatState
    ensures { result ≡ flat_of c }
{
    let Codes {
        roles,
        turns,
        lives,
    } = codes_of(c.table);
    // The check takes an array into a literal by a variable only.
    let ids = c.table.ids;
    let lengths = c.table.lengths;
    let stdin_shown = c.table.stdin_shown;
    let data_shown = c.table.data_shown;
    let header = c.frame.position.header;
    let body = c.frame.body;
    FlatState {
        content: c.frame.position.content,
        padding: c.frame.position.padding,
        held: c.frame.position.held,
        gathered: c.frame.gathered,
        stdin_shown,
        data_shown,
        ids,
        lengths,
        keep: c.table.keep,
        out_ended: c.table.out_ended,
        err_used: c.table.err_used,
        err_ended: c.table.err_ended,
        occupied: c.table.occupied,
        target_number: target_number(c.frame.target),
        roles,
        turns,
        lives,
        header,
        body,
        target: target_kind(c.frame.target),
        open: u8::from(c.open),
    }
}

#[tactic(auto, unfolding(crate::specs::Flat::table_of))]
fn table_of(f: FlatState) -> Table
    ensures { result ≡ table_of f }
{
    let ids = f.ids;
    let lengths = f.lengths;
    let standings = standings_of(f.roles, f.turns, f.lives);
    let stdin_shown = f.stdin_shown;
    let data_shown = f.data_shown;
    Table {
        ids,
        lengths,
        standings,
        keep: f.keep,
        out_ended: f.out_ended,
        err_used: f.err_used,
        err_ended: f.err_ended,
        stdin_shown,
        data_shown,
        occupied: f.occupied,
    }
}

#[tactic(auto, unfolding(crate::specs::Flat::frame_of))]
fn frame_of(f: FlatState) -> Frame
    ensures { result ≡ frame_of f }
{
    let header = f.header;
    let body = f.body;
    Frame {
        position: Position {
            content: f.content,
            padding: f.padding,
            held: f.held,
            header,
        },
        target: target_of(f.target, f.target_number),
        gathered: f.gathered,
        body,
    }
}

// The state that numbers and arrays stand for. Any are read as some state, and `is_known` says whether they are the
// numbers of one.
#[tactic(auto, unfolding(crate::specs::Flat::conn_of))]
pub fn from_flat(f: FlatState) -> Conn
    ensures { result ≡ conn_of f }
{
    Conn {
        table: table_of(f),
        frame: frame_of(f),
        open: f.open == 1,
    }
}

// Whether numbers and arrays are those of a state.
#[tactic(auto, unfolding(crate::specs::Flat::known))]
pub fn is_known(f: FlatState) -> bool
    ensures { result ≡ known f }
{
    all_within(1, 3, f.roles)
        & all_within(0, 3, f.turns)
        & all_within(0, 2, f.lives)
        & is_known_target(f.target, f.target_number)
        & (f.open <= 1)
}
