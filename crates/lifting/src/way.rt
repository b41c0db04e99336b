// Which way a call of the lift takes: told by the receiver's answer, the id, and whether a header waits.
ghost use Rattle.std.specs.Prelude.{◌≡◌};
ghost use Rattle.lifting.specs.Ways.{offer_of, unless_waiting, way_of};

use connection::answer::Refusal;
use connection::event::Event;

// The call is refused; it writes a header that waits; it stands, after a close; or it reads on.
#[derive(Clone, Copy)]
pub enum Way {
    Refused(Refusal),
    Header,
    Stands,
    Reads,
}

// How many of so many bytes the receiver is offered. None while a header waits, or for id 0: its step then only says
// whether it refuses. Where they are copied, as many as there is room for.
#[tactic(auto, unfolding(crate::specs::Ways::offer_of))]
pub fn offer(waiting: usize, id: u16, copies: bool, bytes: usize, room: usize) -> usize
    ensures { result ≡ offer_of waiting id copies bytes room }
{
    if 0 < waiting || id == 0 {
        return 0;
    }
    if copies { room.min(bytes) } else { bytes }
}

// Row 3, and a header that waits, come after the receiver's own rows.
#[tactic(auto, unfolding(crate::specs::Ways::unless_waiting))]
fn unless_waiting(id: u16, waiting: usize, way: Way) -> Way
    ensures { result ≡ unless_waiting id waiting way }
{
    if id == 0 {
        return Way::Refused(Refusal::NotActive);
    }
    if 0 < waiting {
        return Way::Header;
    }
    way
}

// The receiver's row 1, a closed connection, is no refusal here.
pub fn way_of(res: Result<Event, Refusal>, id: u16, waiting: usize) -> Way
    ensures { result ≡ way_of res id waiting }
{
    match res {
        Ok(_) => unless_waiting(id, waiting, Way::Reads),
        Err(Refusal::Closed) => unless_waiting(id, waiting, Way::Stands),
        Err(why) => Way::Refused(why),
    }
}
