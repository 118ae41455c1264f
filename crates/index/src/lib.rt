// The nine calls of the ticket index. A call takes the pool as lent words and the register by value; its reply has the answer and the
// register to use from then on. An answer is a Result, or an enum with a refusal case. No call has a precondition, and every call returns.
// Each one's promise: answer, register and every pool word are what the definition of the call (crate spec, Calls: documents 01 and 02) makes
// of what was lent; a refused call leaves both as they were. A reader's turn also replies a count (`turn_count`). Above each call: what it needs,
// answers, refuses and leaves.
#![tactic(auto)]

ghost use Rattle.std.specs.Prelude.{◌≡◌};
ghost use Rattle.datatypes.specs.declared.Kind.TheVariants as kind;
ghost use Rattle.datatypes.specs.Refusals.{found_number};
ghost use Rattle.spec.specs.Register.{state};
ghost use Rattle.spec.specs.Calls.{outcome, accepts, writer_says, reader_says, set_up, insert, delete, insert_list, writer_turn, begin, reader_turn, turn_count, give_up};
ghost use Rattle.index.specs.Turned.{writer_number, Turns};

use datatypes::{
    Acceptance, Kind, ReaderAnswer, ReaderReply, Refusal, Register, Reply, WriterAnswer,
};
use lookups::Looked;
use refusals::Tested;

// Set up: makes the lent words a fresh pool, every node free, and answers its register.
// Needs: nothing of the words but their number. The register that goes in is not read; fresh::fresh_register(0) makes one.
// Answers: Ok(()).
// Refuses: 1, the length is not 9 × N words with N from 8 to 1,023.
// Leaves: every word written and a fresh register, whatever stood there before; refused, both as they were.
pub fn set_up(pool: &mut [u32], reg: Register) -> Reply<Acceptance>
    ensures answer_value { accepts result.answer ≡ (set_up (state pool.old reg)).answer }
    ensures register_after { state pool.new result.register ≡ (set_up (state pool.old reg)).after }
{
    if !pool::length_right(pool) {
        return Reply {
            answer: Err(Refusal::WrongLength),
            register: reg,
        };
    }
    let register = fresh::fresh_register(pool::nodes(pool));
    fresh::fresh_pool(pool);
    Reply {
        answer: Ok(()),
        register,
    }
}

// Insert: takes the key k with its record v in hand as a write, with its stores planned. The writer's turns make the stores. If the key is held, its
// record is replaced, in one store.
// Needs: nothing; the key is any 32-bit number, the record any 64-bit one (document 02, C-18).
// Answers: Ok(()). Then writer_turn is to be called until it answers Done.
// Refuses, tested in this order: 1 length; 2 a word or field out of range; 6 a write is in hand; 12 a path of over 64 nodes; 10 the key is not
// held and keys held are N − 4 or more; 11 fewer than 3 free nodes; 12 a step names a node where there is none.
// Leaves: the pool as it was, and in the register the write in hand; refused, both as they were.
pub fn insert(pool: &[u32], mut reg: Register, k: u32, v: u64) -> Reply<Acceptance>
    ensures answer_value { accepts result.answer ≡ (insert (state pool.now reg) k v).answer }
    ensures register_value { state pool.now result.register ≡ (insert (state pool.now reg) k v).after }
{
    let answer = accepts::insert(pool, &mut reg, k, v);
    Reply {
        answer,
        register: reg,
    }
}

// Delete: takes the delete of the key k in hand as a write, with its stores planned. The writer's turns make the stores.
// Needs: nothing.
// Answers: Ok(()). Then writer_turn is to be called until it answers Done.
// Refuses, tested in this order: 1 length; 2 a word or field out of range; 6 a write is in hand; 12 a path of over 64 nodes; 9 the key is
// not held; 11 fewer than 4 free nodes; 12 a step names a node where there is none, or the successor's path is over 64 nodes.
// Leaves: the pool as it was, and in the register the write in hand; refused, both as they were.
pub fn delete(pool: &[u32], mut reg: Register, k: u32) -> Reply<Acceptance>
    ensures answer_value { accepts result.answer ≡ (delete (state pool.now reg) k).answer }
    ensures register_value { state pool.now result.register ≡ (delete (state pool.now reg) k).after }
{
    let answer = accepts::delete(pool, &mut reg, k);
    Reply {
        answer,
        register: reg,
    }
}

// Insert a list (document 02, C-24): a list of keys with their records, on an empty index, becomes one tree, in hand as a write of one store.
// Needs: nothing; keys and records are lent, the i-th record is the i-th key's.
// Answers: Ok(()). Then writer_turn answers Done with the root and the tree's top; readers see none of the list before it and all of it after.
// Refuses, tested in this order: 1 length; 2 a word or field out of range; 6 a write is in hand; 18 the list is empty, its keys don't rise strictly or
// there are not as many records; 19 the root isn't 0; 10 more keys than N − 4; 11 fewer free nodes than keys; 12 a node would be taken from an
// empty queue.
// Leaves: the first free nodes taken and filled in key order, made apart (standing 3), and in the register the write in hand; refused, both as they were.
pub fn insert_list(
    pool: &mut [u32],
    mut reg: Register,
    keys: &[u32],
    records: &[u64],
) -> Reply<Acceptance>
    ensures answer_value { accepts result.answer ≡ (insert_list (state pool.old reg) keys.now records.now).answer }
    ensures register_after { state pool.new result.register ≡ (insert_list (state pool.old reg) keys.now records.now).after }
{
    let answer = accepts::insert_list(pool, &mut reg, keys, records);
    Reply {
        answer,
        register: reg,
    }
}

// Makes the tests of a writer's turn but that of its step.
fn writer_refusal(pool: &[u32], reg: &Register) -> Result<(), Refusal>
    ensures { found_number result ≡ writer_number (state pool.now reg.now) }
{
    refusals::lent_refusal(pool, reg, Tested::All)?;
    if reg.write.count == 0 {
        return Err(Refusal::NoWriteInHand);
    }
    Ok(())
}

// Writer's turn: makes the next store of the write in hand, one link, and the colour work up to the store after it.
// Needs: nothing; with no write in hand it is refused.
// Answers: More or Done with the link stored and the node that it holds now (Done: the write is finished); or Wait, with nothing changed,
// while the register has awaited slots: these need their turns, or a give up, before the next store.
// Refuses, tested in this order: 1 length; 2 a word or field out of range; 7 no write is in hand; and, if it doesn't wait, 12 a step names
// a node where there is none, doesn't meet its link within 64 nodes from the root, or takes a node from an empty queue.
// Leaves: the store made, a node taken or let go where the step says so, the write with one store fewer; refused, both as they were.
pub fn writer_turn(pool: &mut [u32], reg: Register) -> Reply<WriterAnswer>
    ensures answer_value { writer_says result.answer ≡ (writer_turn (state pool.old reg)).answer }
    ensures register_after { state pool.new result.register ≡ (writer_turn (state pool.old reg)).after }
{
    match writer_refusal(pool, &reg) {
        Err(refusal) => Reply {
            answer: WriterAnswer::Refused(refusal),
            register: reg,
        },
        Ok(()) if heads::some_awaited(reg.awaited) => Reply {
            answer: WriterAnswer::Wait,
            register: reg,
        },
        Ok(()) => turns::make_first(pool, reg),
    }
}

// Begin: starts a lookup of the key k in the slot s. It loads no node yet.
// Needs: one caller for each slot. Nothing tests this.
// Answers: Ok(()). Then reader_turn is to be called until it answers Found or Absent; give_up ends the lookup before.
// Refuses, tested in this order: 1 length; 2 a word or field out of range; 3 the slot is above 31; 4 the slot is reading.
// Leaves: the pool as it was, and in the register the slot's reader record; refused, both as they were.
pub fn begin(pool: &[u32], mut reg: Register, s: u32, k: u32) -> Reply<Acceptance>
    ensures answer_value { accepts result.answer ≡ (begin kind.Lookup (state pool.now reg) s k).answer }
    ensures register_value { state pool.now result.register ≡ (begin kind.Lookup (state pool.now reg) s k).after }
{
    let answer = begins::begin(pool, &mut reg, Kind::Lookup, s, k);
    Reply {
        answer,
        register: reg,
    }
}

// Begin a search for the next ticket: starts, in the slot s, a search for the ticket with the smallest key greater than k. It loads no node
// yet.
// Needs: one caller for each slot. Nothing tests this.
// Answers: Ok(()). Then reader_turn is to be called until it answers Next or Absent; give_up ends the search before.
// Refuses and leaves: as begin.
pub fn begin_next(pool: &[u32], mut reg: Register, s: u32, k: u32) -> Reply<Acceptance>
    ensures answer_value { accepts result.answer ≡ (begin kind.Next (state pool.now reg) s k).answer }
    ensures register_value { state pool.now result.register ≡ (begin kind.Next (state pool.now reg) s k).after }
{
    let answer = begins::begin(pool, &mut reg, Kind::Next, s, k);
    Reply {
        answer,
        register: reg,
    }
}

// Makes the tests of a reader's turn of slot s, and then the turn, in the register lent.
fn turned(pool: &mut [u32], reg: &mut Register, s: u32) -> Result<Looked, Refusal>
    ensures { Turns (state pool.old reg.old) s (state pool.new reg.new) result }
{
    let i = refusals::turn_refusal(pool, reg, s)?;
    let looked = lookups::look(pool, reg.root, reg.readers[i]);
    let head = lookups::leave(pool, heads::head_of(reg), s, looked.reader.reading);
    heads::put_head(reg, head);
    reg.readers[i] = looked.reader;
    Ok(looked)
}

// Reader's turn: loads one node more for the search of the slot s, first the root, then a child; or ends the search.
// Needs: nothing; a slot that isn't reading is refused.
// Answers: Go, the search goes on. A lookup ends with Found and the record, or with Absent, right at one moment since the slot's begin. A
// search for the next ticket ends with Next and the ticket's key and record, or with Absent: the ticket was held at a moment since the begin,
// and no key between the given one and it (after Absent: no greater key) was held all the time since. With the answer comes `compared`, how
// many nodes the lookup or search has compared so far, this turn's included; 0 if the turn is refused.
// Refuses, tested in this order: 1 length; 2 a field of the register, or a word of the node that the slot's record names, reading or not, out
// of range; 3 the slot is above 31; 5 the slot is not reading. No other word of the pool is tested.
// Leaves: after Go only the slot's node, its count and what it remembers changed; after Found, Next and Absent the slot is no longer reading,
// awaited or a holder of a retired node, and a retired node without a holder is freed; refused, both as they were.
pub fn reader_turn(pool: &mut [u32], mut reg: Register, s: u32) -> ReaderReply
    ensures answer_value { reader_says result.answer ≡ (reader_turn (state pool.old reg) s).answer }
    ensures register_after { state pool.new result.register ≡ (reader_turn (state pool.old reg) s).after }
    ensures compared_value { result.compared ≡ turn_count (state pool.old reg) s }
{
    match turned(pool, &mut reg, s) {
        Ok(looked) => ReaderReply {
            answer: looked.answer,
            register: reg,
            compared: looked.compared,
        },
        Err(refusal) => ReaderReply {
            answer: ReaderAnswer::Refused(refusal),
            register: reg,
            compared: 0,
        },
    }
}

// Makes the tests of a give up of slot s, and then ends the reading, in the register lent.
fn given_up(pool: &mut [u32], reg: &mut Register, s: u32) -> Acceptance
    ensures { outcome (accepts result) (state pool.new reg.new) ≡ give_up (state pool.old reg.old) s }
{
    let i = refusals::give_up_refusal(pool, reg, s)?;
    let head = reading_ends::end_reading(pool, heads::head_of(reg), s);
    heads::put_head(reg, head);
    reg.readers[i] = register::NO_READER;
    Ok(())
}

// Give up: ends the lookup, or the search for the next ticket, of the slot s without an answer.
// Needs: nothing; a slot that isn't reading is refused.
// Answers: Ok(()).
// Refuses, tested in this order: 1 length; 2 a word or field out of range; 3 the slot is above 31; 5 the slot is not reading.
// Leaves: the slot no longer reading, awaited or a holder of a retired node; a retired node without a holder is freed; refused, both as they
// were.
pub fn give_up(pool: &mut [u32], mut reg: Register, s: u32) -> Reply<Acceptance>
    ensures answer_value { accepts result.answer ≡ (give_up (state pool.old reg) s).answer }
    ensures register_after { state pool.new result.register ≡ (give_up (state pool.old reg) s).after }
{
    let answer = given_up(pool, &mut reg, s);
    Reply {
        answer,
        register: reg,
    }
}
