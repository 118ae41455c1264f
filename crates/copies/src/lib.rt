// The stores by which a copy takes a node's place: replace and publish. Each function tries one store: it tests that the nodes are there, and the
// free node that it takes, before it changes anything.
#![tactic(auto)]

ghost use Rattle.std.specs.Prelude.{◌≡◌, ◌<◌, length};
ghost use Rattle.datatypes.specs.declared.Step.TheVariants.{Replace};
ghost use Rattle.spec.specs.Numbers.{pool_limit};
ghost use Rattle.spec.specs.Turn.{moved_link, moved_store, moved_write};
ghost use Rattle.spec.specs.FreeQueue.{Whole};
ghost use Rattle.heads.specs.Head.{TriesReading};
ghost use Rattle.copies.specs.Published.{Publishes};

use datatypes::{Head, Link, Side, Store, Stored, Write};

// Insert of a held key, B's (document 02, C-13): takes B', a copy of B with the record v, and stores it in B's link from above. B is retired.
// This is the write's list store; keys held doesn't change.
//
//        B               B'           B retired: its children are l and r
//       / \             / \
//      l   r     =>    l   r
#[tactic(auto, unfolding(spec::specs::Turn::step_finds, spec::specs::Turn::step_made, spec::specs::Turn::replace_store))]
pub fn replace(pool: &mut [u32], h: Head, reading: u32, l: Link, v: u64) -> Option<Stored>
    requires { (length pool.old < pool_limit) × Whole pool.old }
    ensures { TriesReading reading l (Replace v) pool.old h pool.new result }
{
    let b = pool::node_at(pool, h.root, l);
    let first = h.first;
    if b == 0 || first == 0 {
        return None;
    }
    let k = pool::word(pool, b, pool::KEY);
    let x = pool::child(pool, Side::L, b);
    let y = pool::child(pool, Side::R, b);
    let colour = pool::word(pool, b, pool::COLOUR);
    let copied = queue::take_as(pool, h, k, v, Side::L, x, y, colour, pool::LINKED);
    let linked = heads::set_link(pool, copied, l, first);
    let head = queue::retire(pool, linked, reading, b);
    Some(Stored {
        link: l,
        node: first,
        head,
    })
}

// Answers the copy's right link for B's, any other link as it is.
fn moved_link(b: u32, n: u32, l: Link) -> Link
    ensures { result ≡ moved_link b n l }
{
    match l {
        Link::Right(m) if m == b => Link::Right(n),
        _ => l,
    }
}

// Answers a store with its link moved so.
fn moved_store(b: u32, n: u32, x: Store) -> Store
    ensures { result ≡ moved_store b n x }
{
    Store {
        link: moved_link(b, n, x.link),
        ..x
    }
}

// Moves the stores to come that hang on node b's right to node n, the copy that takes b's place.
pub fn moved_write(b: u32, n: u32, w: Write) -> Write
    ensures { result ≡ moved_write b n w }
{
    let mut r = w;
    // kept: an array's `map` leaves the goal open
    for x in &mut r.stores {
        *x = moved_store(b, n, *x);
    }
    r
}

// Delete of B, other, first store: takes C', a copy of the successor C with B's colour and links, and stores it in B's link from above.
// B is retired, and all reading slots are awaited. This is the write's list store. The write in hand is to be moved to C' by moved_write.
//
//        B                  C'           B retired: its children are l and its right subtree
//       / \                / \
//      l   ..             l   ..
//         /        =>        /
//        F                  F
//       /                  /
//      C                  C
//       \                  \
//        y                  y
#[tactic(auto, unfolding(spec::specs::Turn::step_finds))]
pub fn publish(pool: &mut [u32], h: Head, reading: u32, l: Link, c: u32) -> Option<Stored>
    requires { (length pool.old < pool_limit) × Whole pool.old }
    ensures { Publishes reading l c pool.old h pool.new result }
{
    let b = pool::node_at(pool, h.root, l);
    let first = h.first;
    if b == 0 || first == 0 {
        return None;
    }
    let x = pool::child(pool, Side::L, b);
    let y = pool::child(pool, Side::R, b);
    let colour = pool::word(pool, b, pool::COLOUR);
    let taken = queue::take_copy(pool, h, c, Side::L, x, y, colour);
    let linked = heads::set_link(pool, taken, l, first);
    let awaiting = heads::await_readers(linked, reading);
    let head = queue::retire(pool, awaiting, reading, b);
    Some(Stored {
        link: l,
        node: first,
        head,
    })
}
