// What a reader's turn does after its tests, without the register: where it looks, and the head that the end of a reading leaves.
#![tactic(auto)]

ghost use Rattle.std.specs.Prelude.{◌≡◌, ◌<◌, length};
ghost use Rattle.datatypes.specs.declared.Kind.TheVariants as kind;
ghost use Rattle.spec.specs.Numbers.{pool_limit, slots};
ghost use Rattle.spec.specs.Calls.{reader_says, empty_answer};
ghost use Rattle.spec.specs.Register.{no_reader};
ghost use Rattle.lookups.specs.Looked.{look, look_of, load, look_at, look_from, Leaves};

use datatypes::{Head, Kind, Reader, ReaderAnswer, Side};

// What a reader's turn answers, its record then, all 0 where its reading ended, and how many nodes the reading has compared.
#[derive(Clone, Copy)]
pub struct Looked {
    pub answer: ReaderAnswer,
    pub reader: Reader,
    pub compared: u32,
}

// Answers what a loaded 0 answers: a search for the next ticket the one that it remembers, and absent if there is none.
// kept: `remembers` beside `best` and `value`, no Option: a record is document 01's numbers, all 0 at the end, and the theorems name its fields.
fn empty_answer(x: Reader) -> ReaderAnswer
    ensures { reader_says result ≡ empty_answer x.kind x }
{
    match x.kind {
        Kind::Next if x.remembers => ReaderAnswer::Next(x.best, x.value),
        _ => ReaderAnswer::Absent,
    }
}

// A reading that ends with this answer.
fn ended(answer: ReaderAnswer, compared: u32) -> Looked
    ensures { look_of result ≡ look (reader_says answer) no_reader compared }
{
    Looked {
        answer,
        reader: register::NO_READER,
        compared,
    }
}

// Loads a node for the reader x: a 0 ends its reading with an answer, else go.
fn load(x: Reader, node: u32) -> Looked
    ensures { look_of result ≡ load x node }
{
    if node == 0 {
        return ended(empty_answer(x), x.compared);
    }
    Looked {
        answer: ReaderAnswer::Go,
        reader: register::moved_reader(x, node),
        compared: x.compared,
    }
}

// Makes the turn of a lookup that is at a node and has counted it.
fn look_up(pool: &[u32], x: Reader) -> Looked
    ensures { look_of result ≡ look_at kind.Lookup pool.now x }
{
    let held = pool::word(pool, x.node, pool::KEY);
    if x.key == held {
        let record = pool::record(pool, x.node);
        return ended(ReaderAnswer::Found(record), x.compared);
    }
    load(x, search::child_towards(pool, x.key, x.node))
}

// Makes the turn of a search for the next ticket that is at a node and has counted it: a greater key is remembered with its record.
fn look_next(pool: &[u32], x: Reader) -> Looked
    ensures { look_of result ≡ look_at kind.Next pool.now x }
{
    let held = pool::word(pool, x.node, pool::KEY);
    if x.key < held {
        let record = pool::record(pool, x.node);
        let y = register::remembering(x, held, record);
        return load(y, pool::child(pool, Side::L, x.node));
    }
    load(x, pool::child(pool, Side::R, x.node))
}

// Makes the turn of the reader x in an index with this root. To load the root compares no node.
pub fn look(pool: &[u32], root: u32, x: Reader) -> Looked
    ensures { look_of result ≡ look_from pool.now root x }
{
    let y = register::counting(x);
    if x.node == 0 {
        return load(x, root);
    }
    match x.kind {
        Kind::Lookup => look_up(pool, y),
        Kind::Next => look_next(pool, y),
    }
}

// Ends slot s's reading unless it goes on; answers the head.
pub fn leave(pool: &mut [u32], h: Head, s: u32, reads: bool) -> Head
    requires { (length pool.old < pool_limit) × (s < slots) }
    ensures { Leaves s reads pool.old h pool.new result }
{
    if !reads {
        return reading_ends::end_reading(pool, h, s);
    }
    h
}
