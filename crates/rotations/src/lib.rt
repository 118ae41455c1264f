// The stores of a rotation: diag and zig, left and right alike. Each function tries one store: it tests that the nodes are there, and
// the free node that it takes, before it changes anything.
// The drawings have the rising child on the left; l is the link from above, which holds the top C. Small letters are subtrees, and a
// subtree drawn twice is one, held by two links. docs/PICTURES.md draws whole runs, with a reader.
#![tactic(auto)]

ghost use Rattle.std.specs.Prelude.{◌≡◌, true, ◌<◌, length};
ghost use Rattle.datatypes.specs.declared.Step.TheVariants.{DiagLower, DiagRaise, ZigLowerA, ZigLowerC, ZigRaise};
ghost use Rattle.spec.specs.Numbers.{pool_limit};
ghost use Rattle.spec.specs.Register.{state, set_link};
ghost use Rattle.spec.specs.Turn.{made, painted, copy_node, copy_colour, risen_colour, under_copy, end_diag, end_diag_finds, end_zig};
ghost use Rattle.datatypes.specs.declared.Register.{Register};
ghost use Rattle.spec.specs.FreeQueue.{Whole};
ghost use Rattle.heads.specs.Head.{at, left, Follows, Tries, TriesReading};

use datatypes::{Head, Link, Purpose, Side, Stored};

// Answers the colour of the rotation's copies.
fn copy_colour(purpose: Purpose) -> u32
    ensures { result ≡ copy_colour purpose }
{
    match purpose {
        Purpose::ForInsert | Purpose::RedSibling => pool::RED,
        Purpose::BlackSibling => pool::BLACK,
    }
}

// Answers the risen node's colour, c being the top.
fn risen_colour(pool: &[u32], purpose: Purpose, c: u32) -> u32
    ensures { (q : Register) → result ≡ risen_colour purpose (state pool.now q) c }
{
    match purpose {
        Purpose::ForInsert | Purpose::RedSibling => pool::BLACK,
        Purpose::BlackSibling => pool::word(pool, c, pool::COLOUR),
    }
}

// Takes a copy of node n, with x on the side s and y on the other side, and stores it in the link l.
#[inline]
fn hang_copy(
    pool: &mut [u32],
    h: Head,
    n: u32,
    s: Side,
    x: u32,
    y: u32,
    colour: u32,
    l: Link,
) -> Stored
    requires { Whole pool.old }
    ensures { (q : Register) → left pool.new result q ≡ made (set_link (copy_node (at pool.old h q) n s x y colour) l h.first) l h.first }
{
    let taken = queue::take_copy(pool, h, n, s, x, y, colour);
    let head = heads::set_link(pool, taken, l, h.first);
    Stored {
        link: l,
        node: h.first,
        head,
    }
}

// Diag, first store: takes C', a copy of the top, which has B's inner child x on B's side, and stores it in B's inner link.
//
//        C               C
//       / \             / \
//      B   r           B   r
//     / \       =>    / \
//    o   x           o   C'
//                       / \
//                      x   r
#[tactic(auto, unfolding(spec::specs::Turn::step_finds, spec::specs::Turn::step_made, spec::specs::Turn::diag_lower))]
pub fn diag_lower(pool: &mut [u32], h: Head, l: Link, s: Side, purpose: Purpose) -> Option<Stored>
    requires { Whole pool.old }
    ensures { Tries l (DiagLower s purpose) pool.old h pool.new result }
{
    let c = pool::node_at(pool, h.root, l);
    let b = pool::child(pool, s, c);
    if b == 0 || h.first == 0 {
        return None;
    }
    let z = links::other(s);
    let x = pool::child(pool, z, b);
    let y = pool::child(pool, z, c);
    let link = links::link_at(z, b);
    Some(hang_copy(pool, h, c, s, x, y, copy_colour(purpose), link))
}

// Zig, first store: takes A', a copy of A, which has B's child x on A's inner side, and stores it in B's link on A's side.
//
//        C               C
//       / \             / \
//      A   r           A   r
//     / \       =>    / \
//    a   B           a   B
//       / \             / \
//      x   y           A'  y
//                     / \
//                    a   x
#[tactic(auto, unfolding(spec::specs::Turn::step_finds, spec::specs::Turn::step_made, spec::specs::Turn::zig_lower_a))]
pub fn zig_lower_a(pool: &mut [u32], h: Head, l: Link, s: Side, purpose: Purpose) -> Option<Stored>
    requires { Whole pool.old }
    ensures { Tries l (ZigLowerA s purpose) pool.old h pool.new result }
{
    let a = pool::child(pool, s, pool::node_at(pool, h.root, l));
    let b = pool::child(pool, links::other(s), a);
    if b == 0 || h.first == 0 {
        return None;
    }
    let x = pool::child(pool, s, a);
    let y = pool::child(pool, s, b);
    let link = links::link_at(s, b);
    Some(hang_copy(pool, h, a, s, x, y, copy_colour(purpose), link))
}

// Zig, second store: takes C', a copy of the top, which has B's other child y on A's side, and stores it in B's link on the other side.
//
//        C               C
//       / \             / \
//      A   r           A   r
//     / \       =>    / \
//    a   B           a   B
//       / \             / \
//      A'  y           A'  C'
//     / \             / \  / \
//    a   x           a  x y   r
#[tactic(auto, unfolding(spec::specs::Turn::step_finds, spec::specs::Turn::step_made, spec::specs::Turn::zig_lower_c))]
pub fn zig_lower_c(pool: &mut [u32], h: Head, l: Link, s: Side, purpose: Purpose) -> Option<Stored>
    requires { Whole pool.old }
    ensures { Tries l (ZigLowerC s purpose) pool.old h pool.new result }
{
    let z = links::other(s);
    let c = pool::node_at(pool, h.root, l);
    let b = pool::child(pool, z, pool::child(pool, s, c));
    if b == 0 || h.first == 0 {
        return None;
    }
    let x = pool::child(pool, z, b);
    let y = pool::child(pool, z, c);
    let link = links::link_at(z, b);
    Some(hang_copy(pool, h, c, s, x, y, copy_colour(purpose), link))
}

// Stores B in the link from above and gives B its colour.
fn raise(pool: &mut [u32], h: Head, l: Link, b: u32, colour: u32) -> Head
    ensures { Follows (λ st. painted (set_link st l b) b colour) pool.old h pool.new result }
{
    let r = heads::set_link(pool, h, l, b);
    pool::set_word(pool, b, pool::COLOUR, colour);
    r
}

// Ends the work under the copy that a red sibling's diag leaves, with the black sibling w on the side s: if w has no red child, w turns red
// and the copy black. Otherwise a rotation is still to come.
fn under_copy(pool: &mut [u32], s: Side, copy: u32)
    ensures { (q : Register) → state pool.new q ≡ under_copy (state pool.old q) s copy }
{
    let w = pool::child(pool, s, copy);
    if fixups::red_child(pool, w) {
        return;
    }
    pool::set_word(pool, w, pool::COLOUR, pool::RED);
    pool::set_word(pool, copy, pool::COLOUR, pool::BLACK);
}

// Makes the colour work after a diag's last store, B being risen.
fn end_diag(pool: &mut [u32], root: u32, purpose: Purpose, s: Side, b: u32)
    ensures { (q : Register) → q.root ≡ root → state pool.new q ≡ end_diag purpose (state pool.old q) s b }
{
    match purpose {
        Purpose::ForInsert => pool::set_word(pool, root, pool::COLOUR, pool::BLACK),
        Purpose::RedSibling => {
            let copy = pool::child(pool, links::other(s), b);
            under_copy(pool, s, copy);
        }
        Purpose::BlackSibling => {
            let outer = pool::child(pool, s, b);
            pool::set_word(pool, outer, pool::COLOUR, pool::BLACK);
        }
    }
}

// Tests whether the nodes that this colour work names are there.
fn end_diag_finds(pool: &[u32], purpose: Purpose, s: Side, b: u32) -> bool
    ensures { (q : Register) → result ≡ end_diag_finds purpose (state pool.now q) s b }
{
    match purpose {
        Purpose::ForInsert => true,
        Purpose::RedSibling => pool::child(pool, s, pool::child(pool, links::other(s), b)) != 0,
        Purpose::BlackSibling => pool::child(pool, s, b) != 0,
    }
}

// Diag, last store: stores B in the link from above and retires C, whose links stay for the readers that stand there.
//
//        D               D
//        |               |
//        C               B            C retired: its children are B and r
//       / \             / \
//      B   r     =>    o   C'
//     / \                 / \
//    o   C'              x   r
//       / \
//      x   r
#[tactic(auto, unfolding(spec::specs::Turn::step_finds, spec::specs::Turn::step_made, spec::specs::Turn::diag_raise))]
pub fn diag_raise(
    pool: &mut [u32],
    h: Head,
    reading: u32,
    l: Link,
    s: Side,
    purpose: Purpose,
) -> Option<Stored>
    requires { length pool.old < pool_limit }
    ensures { TriesReading reading l (DiagRaise s purpose) pool.old h pool.new result }
{
    let c = pool::node_at(pool, h.root, l);
    let b = pool::child(pool, s, c);
    if b == 0 || !end_diag_finds(pool, purpose, s, b) {
        return None;
    }
    let colour = risen_colour(pool, purpose, c);
    let risen = raise(pool, h, l, b, colour);
    end_diag(pool, risen.root, purpose, s, b);
    let head = queue::retire(pool, risen, reading, c);
    Some(Stored {
        link: l,
        node: b,
        head,
    })
}

// Makes the colour work after a zig's last store.
fn end_zig(pool: &mut [u32], root: u32, purpose: Purpose)
    ensures { (q : Register) → q.root ≡ root → state pool.new q ≡ end_zig purpose (state pool.old q) }
{
    if let Purpose::ForInsert = purpose {
        pool::set_word(pool, root, pool::COLOUR, pool::BLACK);
    }
}

// Zig, last store: stores B in the link from above and retires A and C, whose links stay for the readers that stand there.
//
//        D               D
//        |               |
//        C               B            A retired: its children are a and B
//       / \            /   \          C retired: its children are A and r
//      A   r     =>   A'    C'
//     / \            / \   / \
//    a   B          a   x y   r
//       / \
//      A'  C'
//     / \  / \
//    a  x y   r
#[tactic(auto, unfolding(spec::specs::Turn::step_finds, spec::specs::Turn::step_made, spec::specs::Turn::zig_raise))]
pub fn zig_raise(
    pool: &mut [u32],
    h: Head,
    reading: u32,
    l: Link,
    s: Side,
    purpose: Purpose,
) -> Option<Stored>
    requires { length pool.old < pool_limit }
    ensures { TriesReading reading l (ZigRaise s purpose) pool.old h pool.new result }
{
    let c = pool::node_at(pool, h.root, l);
    let a = pool::child(pool, s, c);
    let b = pool::child(pool, links::other(s), a);
    if b == 0 {
        return None;
    }
    let colour = risen_colour(pool, purpose, c);
    let risen = raise(pool, h, l, b, colour);
    end_zig(pool, risen.root, purpose);
    let head = queue::retire_two(pool, risen, reading, a, c);
    Some(Stored {
        link: l,
        node: b,
        head,
    })
}
