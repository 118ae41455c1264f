// The insert fix-up and the delete fix-up along a path, and the colours of the levels that they pass.
#![tactic(auto)]

ghost use Rattle.std.specs.Prelude.{◌≡◌, ◌+◌, ◌<◌, ◌^◌};
ghost use Rattle.datatypes.specs.declared.Form.TheVariants.{Diag};
ghost use Rattle.spec.specs.Pool.{paint, black_colour, red_colour};
ghost use Rattle.spec.specs.Plan.{insert_fixup, paint_insert_fixup, red_child, black_sibling as black_sibling_of, red_sibling, delete_fixup, paint_delete_levels};
ghost use Rattle.spec.specs.Turn.{nodes_found};
ghost use Rattle.paths.specs.Paths.{most_links};

use datatypes::{Ending, Fixup, Form, Link, Purpose, Rotation, Side};
use paths::Path;

// Tests whether a fix-up found every node that it names.
pub fn nodes_found(fix: Fixup) -> bool
    ensures { result ≡ nodes_found fix }
{
    !matches!(fix.ending, Ending::Missing)
}

// Goes up a path, with so many levels passed before, and finds where the insert fix-up ends.
#[tactic(auto, unfolding(spec::specs::Plan::insert_fixup))]
pub fn insert_fixup(pool: &[u32], path: &Path, mut levels: u32) -> Fixup
    requires { levels + most_links < 2 ^ 32 }
    ensures { result ≡ insert_fixup pool.now levels path.now }
{
    let mut rest = path.links();
    // kept: goes on until nothing is left; it counts nothing.
    while let [x, y, up @ ..] = rest {
        if !pool::is_red(pool, links::owner(*x)) {
            return Fixup {
                levels,
                ending: Ending::Balanced,
            };
        }
        let [z, ..] = up else {
            return Fixup {
                levels,
                ending: Ending::Missing,
            };
        };
        let side = links::side_of(*y);
        let aunt = pool::child(pool, links::other(side), links::owner(*y));
        if !pool::is_red(pool, aunt) {
            let rotation = Rotation {
                link: *z,
                form: links::form_of(links::side_of(*x), side),
                side,
                purpose: Purpose::ForInsert,
            };
            return Fixup {
                levels,
                ending: Ending::Rotate(rotation),
            };
        }
        rest = up;
        levels += 1;
    }
    let ending = if rest.is_empty() {
        Ending::Missing
    } else {
        Ending::Balanced
    };
    Fixup { levels, ending }
}

// the colours of one level: parent and aunt black, grandparent red
fn paint_level(pool: &mut [u32], parent: u32, aunt: u32, grandparent: u32)
    ensures { pool.new ≡ paint (paint (paint pool.old parent black_colour) aunt black_colour) grandparent red_colour }
{
    pool::set_word(pool, parent, pool::COLOUR, pool::BLACK);
    pool::set_word(pool, aunt, pool::COLOUR, pool::BLACK);
    pool::set_word(pool, grandparent, pool::COLOUR, pool::RED);
}

// Paints so many levels up a path: parent and aunt black, grandparent red.
#[tactic(auto, unfolding(spec::specs::Plan::paint_insert_fixup))]
pub fn paint_insert_fixup(pool: &mut [u32], path: &Path, levels: u32)
    ensures { pool.new ≡ paint_insert_fixup levels path.now pool.old }
{
    let mut rest = path.links();
    for _ in 0..levels {
        let [x, y, up @ ..] = rest else {
            return;
        };
        let aunt = pool::child(pool, links::other(links::side_of(*y)), links::owner(*y));
        paint_level(pool, links::owner(*x), aunt, links::owner(*y));
        rest = up;
    }
}

// Tests whether a child of w is red.
pub fn red_child(pool: &[u32], w: u32) -> bool
    ensures { result ≡ red_child pool.now w }
{
    pool::is_red(pool, pool::child(pool, Side::L, w))
        | pool::is_red(pool, pool::child(pool, Side::R, w))
}

// a black sibling w with a red child, on the side z under the link l
fn black_sibling(pool: &[u32], l: Link, z: Side, w: u32) -> Rotation
    ensures { result ≡ black_sibling_of pool.now l z w }
{
    let form = links::form_if(pool::is_red(pool, pool::child(pool, z, w)));
    Rotation {
        link: l,
        form,
        side: z,
        purpose: Purpose::BlackSibling,
    }
}

// a red sibling w
#[tactic(auto, unfolding(spec::specs::Plan::red_sibling))]
fn red_sibling(pool: &[u32], l: Link, z: Side, w: u32) -> Ending
    ensures { result ≡ red_sibling pool.now l z w }
{
    let s = links::other(z);
    let inner = pool::child(pool, s, w);
    if inner == 0 {
        return Ending::Missing;
    }
    let first = Rotation {
        link: l,
        form: Form::Diag,
        side: z,
        purpose: Purpose::RedSibling,
    };
    if red_child(pool, inner) {
        let second = black_sibling(pool, links::link_at(s, w), z, inner);
        return Ending::RotateTwice(first, second);
    }
    Ending::Rotate(first)
}

// Goes up a path, where x came, with so many levels passed before, and finds where the delete fix-up ends.
#[tactic(auto, using(crate::specs::Levels::delete_fixup_red), unfolding(spec::specs::Plan::delete_fixup))]
pub fn delete_fixup(pool: &[u32], path: &Path, mut levels: u32, x: u32) -> Fixup
    requires { levels + most_links < 2 ^ 32 }
    ensures { result ≡ delete_fixup pool.now levels x path.now }
{
    let mut node = x;
    let mut rest = path.links();
    // kept: goes on until a level ends it; it counts nothing by which it goes.
    loop {
        if pool::is_red(pool, node) {
            return Fixup {
                levels,
                ending: Ending::Blacken,
            };
        }
        let [l, up @ ..] = rest else {
            return Fixup {
                levels,
                ending: Ending::Missing,
            };
        };
        let [above, ..] = up else {
            return Fixup {
                levels,
                ending: Ending::Balanced,
            };
        };
        let z = links::other(links::side_of(*l));
        let parent = links::owner(*l);
        let w = pool::child(pool, z, parent);
        if w == 0 {
            return Fixup {
                levels,
                ending: Ending::Missing,
            };
        }
        if pool::is_red(pool, w) {
            return Fixup {
                levels,
                ending: red_sibling(pool, *above, z, w),
            };
        }
        if red_child(pool, w) {
            let rotation = black_sibling(pool, *above, z, w);
            return Fixup {
                levels,
                ending: Ending::Rotate(rotation),
            };
        }
        rest = up;
        levels += 1;
        node = parent;
    }
}

// Paints so many levels up a path: each sibling red.
#[tactic(auto, using(crate::specs::Levels::paint_delete_levels_none, crate::specs::Levels::paint_delete_levels_level))]
pub fn paint_delete_levels(pool: &mut [u32], path: &Path, levels: u32)
    ensures { pool.new ≡ paint_delete_levels levels path.now pool.old }
{
    for l in path.links().iter().take(levels as usize) {
        let w = pool::child(pool, links::other(links::side_of(*l)), links::owner(*l));
        pool::set_word(pool, w, pool::COLOUR, pool::RED);
    }
}
