// The stores that a write plans.
#![tactic(auto)]

ghost use Rattle.std.specs.Prelude.{◌≡◌, map, ◌<◌, ◌≤◌, ◌+◌, length};
ghost use Rattle.datatypes.specs.declared.Register.{Register};
ghost use Rattle.spec.specs.Numbers.{most_stores};
ghost use Rattle.spec.specs.Register.{state, write_of};
ghost use Rattle.spec.specs.Plan.{store, rotation_stores, ending_stores, plan, fixup_after_insert, insert_plan, replace_plan, unlink_plan, successor_plan, delete_plan};
ghost use Rattle.plans.specs.Planned.{planned};
ghost use Rattle.plans.specs.Pushed.{pushed, push_all};

use datatypes::{Ending, Fixup, Form, Link, Rotation, Side, Step, Store, Write};
use paths::Path;

// Plans one store more.
fn push(w: &mut Write, link: Link, step: Step)
    requires { w.old.count < most_stores }
    ensures { w.new ≡ pushed w.old (store link step) }
{
    w.stores[w.count as usize] = Store { link, step };
    w.count += 1;
}

// the stores of a rotation
fn push_rotation(w: &mut Write, t: Rotation)
    requires { w.old.count + length (rotation_stores t) ≤ most_stores }
    ensures { w.new ≡ push_all w.old (rotation_stores t) }
{
    let Rotation {
        link,
        form,
        side,
        purpose,
    } = t;
    match form {
        Form::Diag => {
            push(w, link, Step::DiagLower(side, purpose));
            push(w, link, Step::DiagRaise(side, purpose));
        }
        Form::Zig => {
            push(w, link, Step::ZigLowerA(side, purpose));
            push(w, link, Step::ZigLowerC(side, purpose));
            push(w, link, Step::ZigRaise(side, purpose));
        }
    }
}

// the stores that a fix-up's ending plans
fn push_ending(w: &mut Write, e: Ending)
    requires { w.old.count + length (ending_stores e) ≤ most_stores }
    ensures { w.new ≡ push_all w.old (ending_stores e) }
{
    match e {
        Ending::Rotate(t) => push_rotation(w, t),
        Ending::RotateTwice(t, u) => {
            push_rotation(w, t);
            push_rotation(w, u);
        }
        _ => {}
    }
}

// Plans these steps at the link l, and then the stores of a fix-up's ending.
#[tactic(auto, using(crate::specs::Pushed::no_stores, crate::specs::Pushed::steps_one))]
fn plan(l: Link, steps: &[Step], e: Ending) -> Option<Write>
    requires { length steps.now + length (ending_stores e) ≤ most_stores }
    ensures { result ≡ planned (plan (map (store l) steps.now) e) }
{
    if let Ending::Missing = e {
        return None;
    }
    let mut write = register::no_write();
    for step in steps {
        push(&mut write, l, *step);
    }
    push_ending(&mut write, e);
    Some(write)
}

// Finds where the fix-up after an insert of the key k at the link l ends.
#[tactic(auto, unfolding(spec::specs::Plan::fixup_after_insert))]
fn fixup_after_insert(pool: &[u32], root: u32, k: u32, l: Link) -> Fixup
    ensures { (q : Register) → q.root ≡ root → result ≡ fixup_after_insert (state pool.now q) k l }
{
    if !pool::is_red(pool, links::owner(l)) {
        return Fixup {
            levels: 0,
            ending: Ending::Balanced,
        };
    }
    let mut path = Path::new();
    paths::path_to(pool, root, k, l, &mut path);
    fixups::insert_fixup(pool, &path, 0)
}

// Plans the insert of the key k with its record v at the empty link l. Of the register only the root is read.
#[tactic(auto, unfolding(spec::specs::Plan::insert_plan))]
pub fn insert_plan(pool: &[u32], root: u32, k: u32, v: u64, l: Link) -> Option<Write>
    ensures { (q : Register) → q.root ≡ root → result ≡ planned (insert_plan (state pool.now q) k v l) }
{
    let fix = fixup_after_insert(pool, root, k, l);
    plan(l, &[Step::Insert(k, v)], fix.ending)
}

// Plans the insert of a held key, whose node the link l holds, with its record v: one store.
#[tactic(auto, using(crate::specs::Pushed::one_store))]
pub fn replace_plan(v: u64, l: Link) -> Write
    ensures { result ≡ write_of (replace_plan v l).stores }
{
    let mut write = register::no_write();
    push(&mut write, l, Step::Replace(v));
    write
}

// Plans the delete of node b, which has at most one child, at the end of a path.
#[tactic(auto, unfolding(spec::specs::Plan::unlink_plan))]
fn unlink_plan(pool: &[u32], l: Link, b: u32, path: &Path) -> Option<Write>
    ensures { (q : Register) → result ≡ planned (unlink_plan (state pool.now q) l b path.now) }
{
    let x = delete_fixups::only_child(pool, b);
    let fix = delete_fixups::fixup_after_removal(pool, b, x, path);
    plan(l, &[Step::Unlink], fix.ending)
}

// Plans the delete of node b, which has two children; the path leads to the next key's node.
#[tactic(auto, using(crate::specs::Pushed::removal_short))]
fn successor_plan(pool: &[u32], root: u32, l: Link, b: u32, path: &Path) -> Option<Write>
    ensures { (q : Register) → q.root ≡ root → result ≡ planned (successor_plan (state pool.now q) l b path.now) }
{
    if !path.reached() {
        return None;
    }
    let n = pool::node_at(pool, root, path.nearest());
    let x = pool::child(pool, Side::R, n);
    let fix = delete_fixups::fixup_after_removal(pool, n, x, path);
    let steps = if pool::child(pool, Side::L, pool::child(pool, Side::R, b)) == 0 {
        [Step::Adopt, Step::Promote]
    } else {
        [
            Step::Publish(n),
            Step::Detach(pool::word(pool, b, pool::KEY)),
        ]
    };
    plan(l, &steps, fix.ending)
}

// Plans the delete of node b, which the link l holds. Of the register only the root is read.
#[tactic(auto, unfolding(spec::specs::Plan::delete_plan))]
pub fn delete_plan(pool: &[u32], root: u32, l: Link, b: u32) -> Option<Write>
    ensures { (q : Register) → q.root ≡ root → result ≡ planned (delete_plan (state pool.now q) l b) }
{
    let mut path = Path::new();
    paths::path_to(pool, root, pool::word(pool, b, pool::KEY), l, &mut path);
    if !delete_fixups::two_children(pool, b) {
        return unlink_plan(pool, l, b, &path);
    }
    paths::successor_path(pool, b, &mut path);
    successor_plan(pool, root, l, b, &path)
}
