// The stores of a writer's turn that take a node out of the tree: unlink, promote, detach. Each function tries one store: it tests that the
// nodes are there before it changes anything. In the drawings small letters are subtrees, and a subtree drawn twice is one, held by two
// links.
#![tactic(auto)]

ghost use Rattle.std.specs.Prelude.{◌<◌, length};
ghost use Rattle.datatypes.specs.declared.Step.TheVariants.{Unlink, Promote, Detach};
ghost use Rattle.spec.specs.Numbers.{pool_limit};
ghost use Rattle.spec.specs.Register.{set_link};
ghost use Rattle.spec.specs.Free.{retire};
ghost use Rattle.spec.specs.Plan.{paint_delete_fixup};
ghost use Rattle.spec.specs.Turn.{one_less, painted};
ghost use Rattle.heads.specs.Head.{Follows, FollowsReading, TriesReading};

use datatypes::{Fixup, Head, Link, Side, Stored};
use paths::Path;

// Paints the colours of a fix-up along a path, where x came; then retires n.
// kept: fix, x and path by themselves, as paint_delete_fixup of the definitions takes them; a struct of the three is no plainer.
fn colour_and_retire(
    pool: &mut [u32],
    h: Head,
    reading: u32,
    fix: Fixup,
    x: u32,
    path: &Path,
    n: u32,
) -> Head
    requires { length pool.old < pool_limit }
    ensures { FollowsReading reading (λ st. retire (paint_delete_fixup st fix x path.now) n) pool.old h pool.new result }
{
    delete_fixups::paint_delete_fixup(pool, h.root, fix, x, path);
    queue::retire(pool, h, reading, n)
}

// Stores v in the link l; one key less is held.
#[tactic(auto, unfolding(spec::specs::Register::with_held))]
fn store_one_less(pool: &mut [u32], h: Head, l: Link, v: u32) -> Head
    ensures { Follows (λ st. one_less (set_link st l v)) pool.old h pool.new result }
{
    let stored = heads::set_link(pool, h, l, v);
    Head {
        held: counts::count_down(stored.held),
        ..stored
    }
}

// Delete of B, at most one child: stores that child x, or 0, in B's link from above; makes the colour work and retires B. This is the
// write's list store.
//
//        D             D
//        |             |
//        B      =>     x
//       /
//      x
#[tactic(auto, unfolding(spec::specs::Turn::step_finds, spec::specs::Turn::step_made, spec::specs::Turn::unlink_store))]
pub fn unlink(pool: &mut [u32], h: Head, reading: u32, l: Link) -> Option<Stored>
    requires { length pool.old < pool_limit }
    ensures { TriesReading reading l Unlink pool.old h pool.new result }
{
    let b = pool::node_at(pool, h.root, l);
    let x = delete_fixups::only_child(pool, b);
    let mut path = Path::new();
    paths::path_to(pool, h.root, pool::word(pool, b, pool::KEY), l, &mut path);
    let fix = delete_fixups::fixup_after_removal(pool, b, x, &path);
    if b == 0 || !fixups::nodes_found(fix) {
        return None;
    }
    let less = store_one_less(pool, h, l, x);
    let head = colour_and_retire(pool, less, reading, fix, x, &path, b);
    Some(Stored {
        link: l,
        node: x,
        head,
    })
}

// Stores C in B's link from above and gives C its colour, B's.
fn store_successor(pool: &mut [u32], h: Head, l: Link, n: u32, colour: u32) -> Head
    ensures { Follows (λ st. painted (one_less (set_link st l n)) n colour) pool.old h pool.new result }
{
    let stored = store_one_less(pool, h, l, n);
    pool::set_word(pool, n, pool::COLOUR, colour);
    stored
}

// Delete of B, right child C without left child, last store: stores C in B's link from above, gives C B's colour, makes the colour work and
// retires B. This is the write's list store.
//
//        D               D
//        |               |
//        B               C            B retired: its children are l and C
//       / \     =>      / \
//      l   C           l   y
//         / \
//        l   y
#[tactic(auto, unfolding(spec::specs::Turn::step_finds, spec::specs::Turn::step_made, spec::specs::Turn::promote_store))]
pub fn promote(pool: &mut [u32], h: Head, reading: u32, l: Link) -> Option<Stored>
    requires { length pool.old < pool_limit }
    ensures { TriesReading reading l Promote pool.old h pool.new result }
{
    let b = pool::node_at(pool, h.root, l);
    let n = pool::child(pool, Side::R, b);
    let x = pool::child(pool, Side::R, n);
    let mut path = Path::new();
    paths::path_to(pool, h.root, pool::word(pool, b, pool::KEY), l, &mut path);
    paths::below_right(&mut path, b);
    let fix = delete_fixups::fixup_after_removal(pool, n, x, &path);
    if n == 0 || !fixups::nodes_found(fix) {
        return None;
    }
    let colour = pool::word(pool, b, pool::COLOUR);
    let less = store_successor(pool, h, l, n, colour);
    let head = colour_and_retire(pool, less, reading, fix, x, &path, b);
    Some(Stored {
        link: l,
        node: n,
        head,
    })
}

// Delete of B, other, last store, after the awaited slots have ended: stores C's right child in F's left link, makes the colour work and
// retires C. C is found again from the link l, which holds C' now, by B's key.
//
//        C'              C'
//       / \             / \
//      l   ..          l   ..
//         /      =>       /
//        F               F
//       /               /
//      C               y              C retired: its right child is y
//       \
//        y
#[tactic(auto, unfolding(spec::specs::Turn::step_finds, spec::specs::Turn::step_made, spec::specs::Turn::detach_store))]
pub fn detach(pool: &mut [u32], h: Head, reading: u32, l: Link, key: u32) -> Option<Stored>
    requires { length pool.old < pool_limit }
    ensures { TriesReading reading l (Detach key) pool.old h pool.new result }
{
    let b = pool::node_at(pool, h.root, l);
    let mut path = Path::new();
    paths::path_to(pool, h.root, key, l, &mut path);
    paths::successor_path(pool, b, &mut path);
    let link = path.nearest();
    let n = pool::node_at(pool, h.root, link);
    let x = pool::child(pool, Side::R, n);
    let fix = delete_fixups::fixup_after_removal(pool, n, x, &path);
    if !path.reached() || n == 0 || !fixups::nodes_found(fix) {
        return None;
    }
    let stored = heads::set_link(pool, h, link, x);
    let head = colour_and_retire(pool, stored, reading, fix, x, &path, n);
    Some(Stored {
        link,
        node: x,
        head,
    })
}
