// A pair read at a cursor.
ghost use Rattle.std.specs.Prelude.{◌≡◌};
ghost use Rattle.pairs.specs.Pair.{pair_at};

use crate::length::read_length;

// Where a pair's name and value lie in its list, and how long they are.
#[derive(Clone, Copy, Debug, PartialEq, Eq)]
pub struct Pair {
    pub name: usize,
    pub name_len: usize,
    pub value: usize,
    pub value_len: usize,
}

// What is read at a cursor: a pair and the cursor after it; the end of the list; or a pair that cannot be
// read, and the place where it starts.
#[derive(Clone, Copy, Debug, PartialEq, Eq)]
pub enum Read {
    Pair(Pair, usize),
    End,
    Malformed(usize),
}

#[tactic(auto, using(crate::proofs::PairLaws::length_next), unfolding(crate::specs::Pair::pair_at))]
pub fn read_pair(list: &[u8], at: usize) -> Read
    ensures { result ≡ pair_at list.now at }
{
    if list.len() <= at {
        return Read::End;
    }
    let Some((name_len, after)) = read_length(list, at) else {
        return Read::Malformed(at);
    };
    let Some((value_len, name)) = read_length(list, after) else {
        return Read::Malformed(at);
    };
    if list.len() - name < name_len || list.len() - name - name_len < value_len {
        return Read::Malformed(at);
    }
    let value = name + name_len;
    Read::Pair(
        Pair {
            name,
            name_len,
            value,
            value_len,
        },
        value + value_len,
    )
}
