// What a delete loses: the fix-up after a black place is lost, and its colours.
#![tactic(auto)]

ghost use Rattle.std.specs.Prelude.{◌≡◌, cond, eqb, get_or};
ghost use Rattle.datatypes.specs.declared.Register.{Register};
ghost use Rattle.datatypes.specs.declared.Link.TheVariants.{Root};
ghost use Rattle.spec.specs.Register.{state, node_at};
ghost use Rattle.spec.specs.Plan.{two_children, only_child, fixup_after_removal, paint_end, paint_delete_fixup};

use datatypes::{Ending, Fixup, Link, Side};
use paths::Path;

// Tests whether node b has two children.
pub fn two_children(pool: &[u32], b: u32) -> bool
    ensures { result ≡ two_children pool.now b }
{
    let left = pool::child(pool, Side::L, b);
    let right = pool::child(pool, Side::R, b);
    (left != 0) & (right != 0)
}

// Answers the child of a node that has at most one, or 0.
pub fn only_child(pool: &[u32], b: u32) -> u32
    ensures { result ≡ only_child pool.now b }
{
    let left = pool::child(pool, Side::L, b);
    let right = pool::child(pool, Side::R, b);
    if left == 0 { right } else { left }
}

// Finds where the fix-up ends after the colour of node n is lost at the place of the path, where x came.
#[tactic(auto, unfolding(spec::specs::Plan::fixup_after_removal))]
pub fn fixup_after_removal(pool: &[u32], n: u32, x: u32, path: &Path) -> Fixup
    ensures { result ≡ fixup_after_removal pool.now n x path.now }
{
    if pool::is_red(pool, n) {
        return Fixup {
            levels: 0,
            ending: Ending::Balanced,
        };
    }
    fixups::delete_fixup(pool, path, 0, x)
}

// the node that a fix-up of so many levels ended at
fn end_node(pool: &[u32], root: u32, path: &Path, levels: u32, x: u32) -> u32
    ensures { result ≡ cond (eqb levels 0) x (node_at pool.now root (get_or path.now levels Root)) }
{
    if levels == 0 {
        return x;
    }
    let link = path.links().get(levels as usize).copied();
    pool::node_at(pool, root, link.unwrap_or(Link::Root))
}

// the node n that a fix-up ended at, black where the ending says so
fn paint_end(pool: &mut [u32], e: Ending, n: u32)
    ensures { (reg : Register) → pool.new ≡ paint_end e (state pool.old reg) n }
{
    if let Ending::Blacken = e {
        pool::set_word(pool, n, pool::COLOUR, pool::BLACK);
    }
}

// Paints the colours of a fix-up along a path, where x came. Of the register only the root is read.
#[tactic(auto, unfolding(spec::specs::Plan::paint_delete_fixup))]
pub fn paint_delete_fixup(pool: &mut [u32], root: u32, fix: Fixup, x: u32, path: &Path)
    ensures { (reg : Register) → reg.root ≡ root → pool.new ≡ (paint_delete_fixup (state pool.old reg) fix x path.now).pool }
{
    let end = end_node(pool, root, path, fix.levels, x);
    fixups::paint_delete_levels(pool, path, fix.levels);
    paint_end(pool, fix.ending, end);
}
