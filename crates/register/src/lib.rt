// The register: reader records and the write in hand made, the reading slots as a mask, the test of ranges.
#![tactic(auto)]

ghost use Rattle.std.specs.Prelude.{◌≡◌, cond, ◌&&◌};
ghost use Rattle.spec.specs.Numbers.{slots, most_stores};
ghost use Rattle.spec.specs.Register.{begun_reader, moved_reader, remembering, counting, vacant, no_write};
ghost use Rattle.spec.specs.Register.{reading_slots, node_number, link_in_range, step_in_range, is_root, is_vacant, store_in_range, reader_in_range, register_in_range};
ghost use Rattle.base.specs.Walk.{all_in};

use datatypes::{Kind, Link, Reader, Register, Step, Store, Write};

// The record of a slot that isn't reading. As a constant: an array of what a function makes is filled word by word.
pub const NO_READER: Reader = Reader {
    reading: false,
    kind: Kind::Lookup,
    remembers: false,
    key: 0,
    node: 0,
    best: 0,
    value: 0,
    compared: 0,
};

// Makes the record of a slot that begins a search of this kind with the key k.
pub fn begun_reader(kind: Kind, k: u32) -> Reader
    ensures { result ≡ begun_reader kind k }
{
    Reader {
        reading: true,
        kind,
        key: k,
        ..NO_READER
    }
}

// Makes the record of a slot after a turn that loaded node n.
pub fn moved_reader(x: Reader, n: u32) -> Reader
    ensures { result ≡ moved_reader x n }
{
    Reader {
        reading: true,
        node: n,
        ..x
    }
}

// Makes the record of a slot that remembers the key k with its record v.
pub fn remembering(x: Reader, k: u32, v: u64) -> Reader
    ensures { result ≡ remembering x k v }
{
    Reader {
        reading: true,
        remembers: true,
        best: k,
        value: v,
        ..x
    }
}

// Makes the record of a slot whose turn compares one more node.
pub fn counting(x: Reader) -> Reader
    ensures { result ≡ counting x }
{
    Reader {
        compared: x.compared.saturating_add(1),
        ..x
    }
}

// Makes the store that stands for no store.
pub fn vacant() -> Store
    ensures { result ≡ vacant }
{
    Store {
        link: Link::Root,
        step: Step::Vacant,
    }
}

// Makes a write with no store to come: none is in hand.
pub fn no_write() -> Write
    ensures { result ≡ no_write }
{
    let none = vacant();
    Write {
        stores: [none; numbers::MOST_STORES],
        count: 0,
    }
}

// Answers the mask of all reading slots, from the last slot's bit to the first's.
// kept: slots by number; the proof is by the slot's number, as the mask's bits are.
pub fn reading_slots(reg: &Register) -> u32
    ensures { result ≡ reading_slots reg.now }
{
    let mut m: u32 = 0;
    for s in (0..numbers::SLOTS).rev() {
        m = m * 2 + reg.readers[s].reading as u32;
    }
    m
}

fn node_number(n: u32, capacity: u32) -> bool
    ensures { result ≡ node_number capacity n }
{
    (1 <= n) & (n <= capacity)
}

fn link_in_range(l: Link, capacity: u32) -> bool
    ensures { result ≡ link_in_range capacity l }
{
    match l {
        Link::Root => true,
        Link::Left(n) | Link::Right(n) => node_number(n, capacity),
    }
}

fn step_in_range(s: Step, capacity: u32) -> bool
    ensures { result ≡ step_in_range capacity s }
{
    match s {
        Step::Vacant => false,
        Step::Publish(n) => node_number(n, capacity),
        Step::LinkAll(m, n) => (m <= capacity) & node_number(n, capacity),
        _ => true,
    }
}

// Tests a store that is to come, or a vacant one.
fn store_in_range(x: Store, coming: bool, capacity: u32) -> bool
    ensures { result ≡ cond coming (link_in_range capacity x.link && step_in_range capacity x.step) (is_root x.link && is_vacant x.step) }
{
    if coming {
        link_in_range(x.link, capacity) & step_in_range(x.step, capacity)
    } else {
        matches!(x.link, Link::Root) & matches!(x.step, Step::Vacant)
    }
}

fn readers_in_range(reg: &Register, capacity: u32) -> bool
    ensures { result ≡ all_in (reader_in_range capacity reg.now) 0 slots }
{
    reg.readers.iter().all(|x| x.node <= capacity)
}

fn stores_in_range(w: &Write, capacity: u32) -> bool
    ensures { result ≡ all_in (store_in_range capacity w.now) 0 most_stores }
{
    for (i, x) in w.stores.iter().enumerate() {
        if !store_in_range(*x, i < w.count as usize, capacity) {
            return false;
        }
    }
    true
}

// Tests whether every field of the register is in its range; the awaited slots are any word.
#[tactic(auto, unfolding(spec::specs::Register::register_in_range))]
pub fn register_in_range(reg: &Register, capacity: u32) -> bool
    ensures { result ≡ register_in_range capacity reg.now }
{
    let a = (reg.root <= capacity) & (reg.first <= capacity) & (reg.last <= capacity);
    let b = (reg.free <= capacity) & (reg.held <= capacity);
    let w = &reg.write;
    a & b
        & ((w.count <= numbers::STORE_LIMIT) & readers_in_range(reg, capacity)
            && stores_in_range(w, capacity))
}
