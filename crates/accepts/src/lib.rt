// Insert, delete and insert a list, on a register that is lent: their tests, and what they plan as the write in hand. Refused, pool and register are
// as they were.
#![tactic(auto)]

ghost use Rattle.std.specs.Prelude.{◌≡◌, List, ℕ};
ghost use Rattle.datatypes.specs.declared.Place.TheVariants.{Held, Empty};
ghost use Rattle.datatypes.specs.Refusals.{found_number};
ghost use Rattle.spec.specs.Register.{state};
ghost use Rattle.laws.specs.Tests.{lent_number};
ghost use Rattle.laws.specs.Lists.{list_number};
ghost use Rattle.spec.specs.Calls.{outcome, accepts, place_of, insert, delete, insert_list};
ghost use Rattle.accepts.specs.Taken.{idle_number, taken, Enough, Replaces};

use datatypes::{Acceptance, Link, Place, Refusal, Register, Write};
use refusals::Tested;

// Makes the tests that the three calls begin with: of what is lent, and of a write in hand.
fn idle_refusal(pool: &[u32], reg: &Register) -> Result<(), Refusal>
    ensures { found_number result ≡ idle_number (state pool.now reg.now) }
{
    refusals::lent_refusal(pool, reg, Tested::All)?;
    if reg.write.count != 0 {
        return Err(Refusal::WriteInHand);
    }
    Ok(())
}

// Tests whether so many nodes are free.
fn enough_free(free: u32, asked: u32) -> Result<(), Refusal>
    ensures { Enough free asked result }
{
    if free < asked {
        return Err(Refusal::TooFewFree);
    }
    Ok(())
}

// Tests and plans an insert at the empty link l, after the tests of the search.
fn insert_at(pool: &[u32], reg: &Register, k: u32, v: u64, l: Link) -> Result<Write, Refusal>
    requires { (idle_number (state pool.now reg.now) ≡ 0) × (place_of (state pool.now reg.now) k ≡ Empty l) }
    ensures { insert (state pool.now reg.now) k v ≡ taken (state pool.now reg.now) result }
{
    let capacity = pool::nodes(pool);
    if capacity as u64 <= reg.held as u64 + numbers::RESERVE {
        return Err(Refusal::IndexFull);
    }
    enough_free(reg.free, numbers::FREE_FOR_INSERT)?;
    plans::insert_plan(pool, reg.root, k, v, l).ok_or(Refusal::NodeMissing)
}

// Tests and plans an insert of a held key, whose node the link l holds, after the tests of the search (document 02, C-13). Keys held doesn't change,
// so 10 isn't tested.
fn replace_at(free: u32, v: u64, l: Link) -> Result<Write, Refusal>
    ensures { Replaces free v l result }
{
    enough_free(free, numbers::FREE_FOR_INSERT)?;
    Ok(plans::replace_plan(v, l))
}

// Tests and plans an insert of the key k with its record v.
fn insert_write(pool: &[u32], reg: &Register, k: u32, v: u64) -> Result<Write, Refusal>
    ensures { insert (state pool.now reg.now) k v ≡ taken (state pool.now reg.now) result }
{
    idle_refusal(pool, reg)?;
    match search::seek(pool, k, Link::Root, reg.root, numbers::PATH_BOUND) {
        Place::Held(l, _) => replace_at(reg.free, v, l),
        Place::Empty(l) => insert_at(pool, reg, k, v, l),
        Place::TooDeep => Err(Refusal::NodeMissing),
    }
}

// Tests and plans a delete of node n, which the link l holds, after the tests of the search.
fn delete_at(pool: &[u32], reg: &Register, k: u32, l: Link, n: u32) -> Result<Write, Refusal>
    requires { (idle_number (state pool.now reg.now) ≡ 0) × (place_of (state pool.now reg.now) k ≡ Held l n) }
    ensures { delete (state pool.now reg.now) k ≡ taken (state pool.now reg.now) result }
{
    enough_free(reg.free, numbers::FREE_FOR_DELETE)?;
    plans::delete_plan(pool, reg.root, l, n).ok_or(Refusal::NodeMissing)
}

// Tests and plans a delete of the key k.
fn delete_write(pool: &[u32], reg: &Register, k: u32) -> Result<Write, Refusal>
    ensures { delete (state pool.now reg.now) k ≡ taken (state pool.now reg.now) result }
{
    idle_refusal(pool, reg)?;
    match search::seek(pool, k, Link::Root, reg.root, numbers::PATH_BOUND) {
        Place::Held(l, n) => delete_at(pool, reg, k, l, n),
        Place::Empty(_) => Err(Refusal::KeyNotHeld),
        Place::TooDeep => Err(Refusal::NodeMissing),
    }
}

// Takes a planned write in hand, or refuses.
fn take_in_hand(reg: &mut Register, planned: Result<Write, Refusal>) -> Acceptance
    ensures { (p : List ℕ) → outcome (accepts result) (state p reg.new) ≡ taken (state p reg.old) planned }
{
    reg.write = planned?;
    Ok(())
}

// Insert, delete and a list's insert are never inlined: docs/DECISIONS.md, 46.

// Inserts the key k with its record v: an accepted one is the write in hand.
#[inline(never)]
pub fn insert(pool: &[u32], reg: &mut Register, k: u32, v: u64) -> Acceptance
    ensures { outcome (accepts result) (state pool.now reg.new) ≡ insert (state pool.now reg.old) k v }
{
    let planned = insert_write(pool, reg, k, v);
    take_in_hand(reg, planned)
}

// Deletes the key k: an accepted one is the write in hand.
#[inline(never)]
pub fn delete(pool: &[u32], reg: &mut Register, k: u32) -> Acceptance
    ensures { outcome (accepts result) (state pool.now reg.new) ≡ delete (state pool.now reg.old) k }
{
    let planned = delete_write(pool, reg, k);
    take_in_hand(reg, planned)
}

// Tests a list (document 02, C-24), after the tests of what is lent and of a write in hand: 18 the list is empty, its keys don't rise or its records
// are not as many; 19 the index is not empty; 10 more keys than N − 4; 11 fewer free nodes than keys; 12 a node taken from an empty queue.
fn list_refusal(pool: &[u32], reg: &Register, keys: &[u32], records: &[u64]) -> Result<(), Refusal>
    requires { lent_number (state pool.now reg.now) ≡ 0 }
    ensures { found_number result ≡ list_number (state pool.now reg.now) keys.now records.now }
{
    if !bulk::list_right(keys, records) {
        return Err(Refusal::ListWrong);
    }
    if reg.root != 0 {
        return Err(Refusal::IndexNotEmpty);
    }
    let m = keys.len();
    let room = pool::nodes(pool) - numbers::RESERVE as u32;
    if (room as usize) < m {
        return Err(Refusal::IndexFull);
    }
    if (reg.free as usize) < m {
        return Err(Refusal::TooFewFree);
    }
    if takings::runs_out(pool, reg.first, m) {
        return Err(Refusal::NodeMissing);
    }
    Ok(())
}

// Inserts a list: of an accepted one the tree is made apart, and one store is to come.
#[inline(never)]
pub fn insert_list(
    pool: &mut [u32],
    reg: &mut Register,
    keys: &[u32],
    records: &[u64],
) -> Acceptance
    ensures { outcome (accepts result) (state pool.new reg.new) ≡ insert_list (state pool.old reg.old) keys.now records.now }
{
    idle_refusal(pool, reg)?;
    list_refusal(pool, reg, keys, records)?;
    let grown = bulk::grow(pool, heads::head_of(reg), keys, records);
    heads::put_head(reg, grown.head);
    reg.write = bulk::list_write(keys.len() as u32, grown.top);
    Ok(())
}
