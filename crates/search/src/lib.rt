// The search for a key.
#![tactic(auto)]

ghost use Rattle.std.specs.Prelude.{◌≡◌, ◌<◌};
ghost use Rattle.spec.specs.Pool.{child};
ghost use Rattle.spec.specs.Search.{towards, seek};

use datatypes::{Link, Place, Side};

// Answers the side of node n that a key lies on; a smaller key lies left.
pub fn towards(pool: &[u32], k: u32, n: u32) -> Side
    ensures { result ≡ towards pool.now k n }
{
    if k < pool::word(pool, n, pool::KEY) {
        Side::L
    } else {
        Side::R
    }
}

// Answers node n's child on the side that a key lies on.
pub fn child_towards(pool: &[u32], k: u32, n: u32) -> u32
    ensures { result ≡ child pool.now (towards pool.now k n) n }
{
    pool::child(pool, towards(pool, k, n), n)
}

// Searches for a key from node n, which the link l holds, with so many nodes still allowed.
// kept: document 02 names this form, one loop that is left with the place it found; a `for` would test for no node twice.
pub fn seek(pool: &[u32], k: u32, l: Link, n: u32, allowed: u32) -> Place
    ensures { result ≡ seek pool.now k allowed l n }
{
    let mut link = l;
    let mut node = n;
    let mut remaining = allowed;
    loop {
        if node == 0 {
            break Place::Empty(link);
        }
        if remaining == 0 {
            break Place::TooDeep;
        }
        if k == pool::word(pool, node, pool::KEY) {
            break Place::Held(link, node);
        }
        let s = towards(pool, k, node);
        link = links::link_at(s, node);
        node = pool::child(pool, s, node);
        remaining -= 1;
    }
}
