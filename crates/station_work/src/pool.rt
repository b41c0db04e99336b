// The pool in which the bodies of requests are held until they are answered: blocks, and for each block the number of
// the one behind it. The blocks of a body are a chain, and so are the free ones.
ghost use Rattle.std.specs.Prelude.{◌≡◌};
ghost use Rattle.station_work.specs.Pool.{behind_of, linked, rest_of_block};

use connection::sizes::SLOTS;
use station_kept::{COMING, DROPPED, FIRST, ID, KEPT, LAST, LENGTH, PHASE, keep, kept_of, some};
use wire::copy_into;

// The bytes of a block, how many blocks there are, and the bytes of all of them.
pub const BLOCK: usize = 4096;

pub const BLOCKS: usize = 1024;

pub const POOL: usize = BLOCK * BLOCKS;

// For each block the number of the one behind it in its chain, and last the number of the first free block. Where there
// is none the number is BLOCKS.
pub const CHAINS: usize = BLOCKS + 1;

// A body: the first and the last block of its chain, and how many bytes it has. Where `fits` is false, no block was
// left.
#[derive(Clone, Copy, Debug, PartialEq, Eq)]
pub struct Body {
    pub first: usize,
    pub last: usize,
    pub length: usize,
    pub fits: bool,
}

// The number of the block behind one; of the first free block behind BLOCKS.
#[tactic(auto, unfolding(crate::specs::Pool::behind_of))]
pub fn behind(chains: &[usize; CHAINS], block: usize) -> usize
    ensures { result ≡ behind_of chains.now block }
{
    if BLOCKS < block {
        return BLOCKS;
    }
    chains[block]
}

#[tactic(auto, unfolding(crate::specs::Pool::linked))]
fn link(chains: &mut [usize; CHAINS], block: usize, next: usize)
    ensures { chains.new ≡ linked chains.old block next }
{
    if block <= BLOCKS {
        chains[block] = next;
    }
}

// All blocks are free.
pub fn free_all(chains: &mut [usize; CHAINS]) {
    for block in 0..BLOCKS {
        link(chains, block, block + 1);
    }
    link(chains, BLOCKS, 0);
}

// Takes a free block for the end of a chain, if there is one.
fn take_block(chains: &mut [usize; CHAINS]) -> Option<usize> {
    let block = behind(chains, BLOCKS);
    if BLOCKS <= block {
        return None;
    }
    let next = behind(chains, block);
    link(chains, BLOCKS, next);
    link(chains, block, BLOCKS);
    Some(block)
}

// Gives the blocks of a body back.
pub fn give_back(chains: &mut [usize; CHAINS], first: usize, last: usize) {
    if first < BLOCKS {
        let free = behind(chains, BLOCKS);
        link(chains, last, free);
        link(chains, BLOCKS, first);
    }
}

// A body with a block for its next byte.
fn with_room(chains: &mut [usize; CHAINS], body: Body) -> Body {
    if body.length % BLOCK != 0 {
        return body;
    }
    let Some(block) = take_block(chains) else {
        return Body {
            fits: false,
            ..body
        };
    };
    if body.length == 0 {
        return Body {
            first: block,
            last: block,
            ..body
        };
    }
    link(chains, body.last, block);
    Body {
        last: block,
        ..body
    }
}

// Puts bytes into a block from a place of it on.
fn put_in_block(pool: &mut [u8], block: usize, place: usize, bytes: &[u8]) {
    if block < BLOCKS && place < BLOCK {
        copy_into(pool, block * BLOCK + place, bytes);
    }
}

// Puts as many of the bytes behind a body as its last block takes.
fn append_some(
    pool: &mut [u8; POOL],
    chains: &mut [usize; CHAINS],
    body: Body,
    bytes: &[u8],
    from: usize,
) -> Body {
    let roomy = with_room(chains, body);
    if !roomy.fits {
        return roomy;
    }
    let place = roomy.length % BLOCK;
    let part = some(bytes, from, BLOCK - place);
    put_in_block(pool, roomy.last, place, part);
    Body {
        length: roomy.length.saturating_add(part.len()),
        ..roomy
    }
}

// Puts bytes behind a body, block by block.
pub fn append(
    pool: &mut [u8; POOL],
    chains: &mut [usize; CHAINS],
    body: Body,
    bytes: &[u8],
) -> Body {
    let mut longer = body;
    for _ in 0..bytes.len() {
        let from = longer.length.saturating_sub(body.length);
        if !longer.fits || bytes.len() <= from {
            return longer;
        }
        longer = append_some(pool, chains, longer, bytes, from);
    }
    longer
}

// The bytes of a body from a place on that lie in one block.
#[tactic(auto, unfolding(crate::specs::Pool::rest_of_block))]
pub fn rest_of_block<'a>(pool: &'a [u8], block: usize, place: usize, length: usize) -> &'a [u8]
    ensures { result.now ≡ rest_of_block pool.now block place length }
{
    if BLOCKS <= block || length <= place {
        return &[];
    }
    let inside = place % BLOCK;
    let n = (BLOCK - inside).min(length - place);
    some(pool, block * BLOCK + inside, n)
}

// The body of the request of entry i.
pub fn body_of(kept: &[usize; KEPT], i: usize) -> Body {
    Body {
        first: kept_of(kept, FIRST, i),
        last: kept_of(kept, LAST, i),
        length: kept_of(kept, LENGTH, i),
        fits: true,
    }
}

// The request of entry i needs its body no more, and goes on in another phase.
pub fn drop_body(kept: &mut [usize; KEPT], chains: &mut [usize; CHAINS], i: usize, phase: usize) {
    if i < SLOTS {
        give_back(chains, kept_of(kept, FIRST, i), kept_of(kept, LAST, i));
        keep(kept, FIRST, i, BLOCKS);
        keep(kept, PHASE, i, phase);
    }
}

// Holds a body that grew. One that did not fit is dropped, and so is what comes of it later.
pub fn hold(kept: &mut [usize; KEPT], chains: &mut [usize; CHAINS], i: usize, body: Body) {
    keep(kept, FIRST, i, body.first);
    keep(kept, LAST, i, body.last);
    keep(kept, LENGTH, i, body.length);
    if !body.fits {
        drop_body(kept, chains, i, DROPPED);
    }
}

// The request of entry i needs neither its body nor its entry any more.
pub fn strike(kept: &mut [usize; KEPT], chains: &mut [usize; CHAINS], i: usize) {
    drop_body(kept, chains, i, COMING);
    keep(kept, ID, i, 0);
}
