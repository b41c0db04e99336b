// The length of a name or a value.
ghost use Rattle.std.specs.Prelude.{◌≡◌, ◌+◌, ◌≤◌, length, get_or};
ghost use Rattle.pairs.specs.Length.{four_at, length_at};

use wire::number_of_four;

// The number of a length in four bytes, its top bit dropped.
#[tactic(auto, unfolding(crate::specs::Length::four_at))]
fn four_at(list: &[u8], at: usize) -> usize
    requires { (at + 4 ≤ length list.now) × (128 ≤ get_or list.now at 0) }
    ensures { result ≡ four_at list.now at }
{
    number_of_four(list[at] - 128, list[at + 1], list[at + 2], list[at + 3]) as usize
}

#[tactic(auto, unfolding(crate::specs::Length::length_at))]
pub fn read_length(list: &[u8], at: usize) -> Option<(usize, usize)>
    ensures { result ≡ length_at list.now at }
{
    if list.len() <= at {
        return None;
    }
    let first = list[at];
    if first < 128 {
        return Some((first as usize, at + 1));
    }
    if list.len() - at < 4 {
        return None;
    }
    Some((four_at(list, at), at + 4))
}
