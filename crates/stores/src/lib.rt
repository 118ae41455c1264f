// The stores insert and adopt. Each function tries one store: it tests that the nodes are there, and the free node that it takes, before it changes
// anything.
#![tactic(auto)]

ghost use Rattle.std.specs.Prelude.{◌≡◌, true, false, ◌<◌, length, Some};
ghost use Rattle.datatypes.specs.declared.Register.{Register};
ghost use Rattle.datatypes.specs.declared.Side.TheVariants.{L};
ghost use Rattle.datatypes.specs.declared.Step.TheVariants.{Insert, Adopt};
ghost use Rattle.datatypes.specs.Side.{owner};
ghost use Rattle.spec.specs.Numbers.{pool_limit};
ghost use Rattle.spec.specs.Pool.{is_red, red_colour};
ghost use Rattle.spec.specs.Register.{state, set_link};
ghost use Rattle.spec.specs.Free.{take_node};
ghost use Rattle.spec.specs.Turn.{one_more, end_insert};
ghost use Rattle.spec.specs.FreeQueue.{Whole};
ghost use Rattle.heads.specs.Head.{Follows, Tries};

use datatypes::{Ending, Head, Link, Side, Stored};
use paths::Path;

// Stores a new red node in the link l; one key more is held.
#[tactic(auto, unfolding(spec::specs::Register::with_held))]
fn link_new(pool: &mut [u32], h: Head, l: Link, k: u32, v: u64) -> Head
    requires { (length pool.old < pool_limit) × Whole pool.old }
    ensures { Follows (λ st. one_more (set_link (take_node st k v L 0 0 red_colour) l h.first)) pool.old h pool.new result }
{
    let first = h.first;
    let taken = queue::take_as(pool, h, k, v, Side::L, 0, 0, pool::RED, pool::LINKED);
    let linked = heads::set_link(pool, taken, l, first);
    Head {
        held: counts::count_up(pool::nodes(pool), linked.held),
        ..linked
    }
}

// Turns the root black if no rotation is to come.
fn end_insert(pool: &mut [u32], root: u32, e: Ending)
    ensures { (q : Register) → q.root ≡ root → pool.new ≡ (end_insert e (state pool.old q)).pool }
{
    if let Ending::Balanced = e {
        pool::set_word(pool, root, pool::COLOUR, pool::BLACK);
    }
}

// Inserts under a black parent, or at the root: nothing but the root's colour changes besides.
fn insert_under_black(pool: &mut [u32], h: Head, l: Link, k: u32, v: u64) -> Stored
    requires { (length pool.old < pool_limit) × (is_red pool.old (owner l) ≡ false) × (h.first ≡ 0 → ⊥) × Whole pool.old }
    ensures { Tries l (Insert k v) pool.old h pool.new (Some result) }
{
    let first = h.first;
    let head = link_new(pool, h, l, k, v);
    pool::set_word(pool, head.root, pool::COLOUR, pool::BLACK);
    Stored {
        link: l,
        node: first,
        head,
    }
}

// Inserts under a red parent. A red aunt: parent and aunt turn black, the grandparent red, and the work goes on from there; the root ends
// black. A black aunt, or none: a rotation is to come.
//
//        G b               G r
//       /   \             /   \
//     P r   A r    =>   P b   A b
//                      /
//                    z r
#[tactic(auto, unfolding(spec::specs::Turn::step_finds, spec::specs::Turn::step_made, spec::specs::Turn::insert_store, spec::specs::Plan::fixup_after_insert))]
fn insert_under_red(pool: &mut [u32], h: Head, l: Link, k: u32, v: u64) -> Option<Stored>
    requires { (length pool.old < pool_limit) × (is_red pool.old (owner l) ≡ true) × (h.first ≡ 0 → ⊥) × Whole pool.old }
    ensures { Tries l (Insert k v) pool.old h pool.new result }
{
    let mut path = Path::new();
    paths::path_to(pool, h.root, k, l, &mut path);
    let fix = fixups::insert_fixup(pool, &path, 0);
    if !fixups::nodes_found(fix) {
        return None;
    }
    let first = h.first;
    let head = link_new(pool, h, l, k, v);
    fixups::paint_insert_fixup(pool, &path, fix.levels);
    end_insert(pool, head.root, fix.ending);
    Some(Stored {
        link: l,
        node: first,
        head,
    })
}

// Inserts: stores a new red node in the empty link l and makes the fix-up's colour work. This is the write's list store.
#[tactic(auto, unfolding(spec::specs::Turn::step_finds))]
pub fn insert(pool: &mut [u32], h: Head, l: Link, k: u32, v: u64) -> Option<Stored>
    requires { (length pool.old < pool_limit) × Whole pool.old }
    ensures { Tries l (Insert k v) pool.old h pool.new result }
{
    if h.first == 0 {
        return None;
    }
    if pool::is_red(pool, links::owner(l)) {
        return insert_under_red(pool, h, l, k, v);
    }
    Some(insert_under_black(pool, h, l, k, v))
}

// Delete of B, right child C without left child, first store: stores B's left child in C's left link.
//
//        B               B
//       / \             / \
//      l   C     =>    l   C
//           \             / \
//            y           l   y
#[tactic(auto, unfolding(spec::specs::Turn::step_finds, spec::specs::Turn::step_made, spec::specs::Turn::adopt_store))]
pub fn adopt(pool: &mut [u32], h: Head, l: Link) -> Option<Stored>
    ensures { Tries l Adopt pool.old h pool.new result }
{
    let b = pool::node_at(pool, h.root, l);
    let c = pool::child(pool, Side::R, b);
    if c == 0 {
        return None;
    }
    let x = pool::child(pool, Side::L, b);
    let link = Link::Left(c);
    let head = heads::set_link(pool, h, link, x);
    Some(Stored {
        link,
        node: x,
        head,
    })
}
