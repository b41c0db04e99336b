// Start.
#![tactic(auto)]

ghost use Rattle.std.specs.Prelude.{◌≡◌};
ghost use Rattle.server.specs.Step.{state_of, started};

use connection::sizes::QUERY;
use record_reader::between;
use server::state::{Frame, Server, Target};
use slot_table::no_requests;
use wire::clear;

// Start: open, with no requests, between two records; the bytes lent for a result of values are zeroed. It is never
// refused.
#[tactic(auto, unfolding(server::specs::Step::started))]
pub fn start_server(values: &mut [u8; QUERY]) -> Server
    ensures { state_of result values.new ≡ started values.old }
{
    clear(values);
    Server {
        table: no_requests(),
        frame: Frame {
            position: between(),
            target: Target::Skip,
            gathered: 0,
            body: [0; 8],
        },
        open: true,
    }
}
