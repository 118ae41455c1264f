// The least program that uses the ticket index: it sets one up, inserts, replaces a record, looks up,
// searches for the next ticket, deletes, and handles a refusal.
#![tactic(auto)]

use datatypes::{Acceptance, ReaderAnswer, Refusal, Register, Reply, WriterAnswer};
use std::io;

// The words of a pool of 16 nodes.
const WORDS: usize = 16 * numbers::NODE_WORDS;

// A proved loop has to end. No write and no search of this program takes so many turns.
const MOST_TURNS: u32 = 64;

// Writes a text, a number and the end of the line.
fn say(rt: &impl Print, text: &str, n: u64) -> io::Result<()> {
    println!(rt; "{text}{n}")
}

// Writes a refusal, by its number, and answers false. A refused call has changed neither pool nor
// register.
fn refused(rt: &impl Print, refusal: Refusal) -> io::Result<bool> {
    println!(rt; "  refused by {refusal}")?;
    Ok(false)
}

// Answers whether set up, insert, delete, begin or give up was accepted.
fn accepted(rt: &impl Print, answer: Acceptance) -> io::Result<bool> {
    match answer {
        Ok(()) => Ok(true),
        Err(refusal) => refused(rt, refusal),
    }
}

// Answers whether the write goes on after this turn. It stops at wait too, where lookups have to
// end first; none runs here.
fn writes_on(rt: &impl Print, answer: WriterAnswer) -> io::Result<bool> {
    match answer {
        WriterAnswer::More(_, _) => Ok(true),
        WriterAnswer::Done(_, _) => {
            println!(rt; "  done")?;
            Ok(false)
        }
        WriterAnswer::Wait => Ok(false),
        WriterAnswer::Refused(refusal) => refused(rt, refusal),
    }
}

// Answers whether the search goes on after this turn.
fn reads_on(rt: &impl Print, answer: ReaderAnswer) -> io::Result<bool> {
    match answer {
        ReaderAnswer::Go => Ok(true),
        ReaderAnswer::Found(record) => {
            say(rt, "  found ", record)?;
            Ok(false)
        }
        ReaderAnswer::Next(key, record) => {
            say(rt, "  key ", key as u64)?;
            say(rt, "  record ", record)?;
            Ok(false)
        }
        ReaderAnswer::Absent => {
            println!(rt; "  absent")?;
            Ok(false)
        }
        ReaderAnswer::Refused(refusal) => refused(rt, refusal),
    }
}

// kept: writer and search each with a loop of its own, and a function for each call: a client is read more easily so.
// Makes the writer's turns of an insert or a delete until it is done. Calls of readers may come
// between any two of them.
fn carry_out(rt: &impl Print, pool: &mut [u32], asked: Reply<Acceptance>) -> io::Result<Register> {
    let mut reg = asked.register;
    let answer = asked.answer;
    if !accepted(rt, answer)? {
        return Ok(reg);
    }
    for _ in 0..MOST_TURNS {
        let reply = index::writer_turn(pool, reg);
        reg = reply.register;
        let answer = reply.answer;
        if !writes_on(rt, answer)? {
            return Ok(reg);
        }
    }
    Ok(reg)
}

// Inserts a key with its record; a held key gets the new record, in one turn.
fn insert(
    rt: &impl Print,
    pool: &mut [u32],
    reg: Register,
    key: u32,
    record: u64,
) -> io::Result<Register> {
    say(rt, "insert ", key as u64)?;
    let asked = index::insert(pool, reg, key, record);
    carry_out(rt, pool, asked)
}

// Deletes a key.
fn delete(rt: &impl Print, pool: &mut [u32], reg: Register, key: u32) -> io::Result<Register> {
    say(rt, "delete ", key as u64)?;
    let asked = index::delete(pool, reg, key);
    carry_out(rt, pool, asked)
}

// Makes the turns of a search begun in a slot until it answers. The writer's turns may come
// between any two of them.
fn search(
    rt: &impl Print,
    pool: &mut [u32],
    asked: Reply<Acceptance>,
    slot: u32,
) -> io::Result<Register> {
    let mut reg = asked.register;
    let answer = asked.answer;
    if !accepted(rt, answer)? {
        return Ok(reg);
    }
    for _ in 0..MOST_TURNS {
        let reply = index::reader_turn(pool, reg, slot);
        reg = reply.register;
        let answer = reply.answer;
        if !reads_on(rt, answer)? {
            return Ok(reg);
        }
    }
    Ok(reg)
}

// Looks a key up in a slot.
fn look_up(
    rt: &impl Print,
    pool: &mut [u32],
    reg: Register,
    slot: u32,
    key: u32,
) -> io::Result<Register> {
    say(rt, "look up ", key as u64)?;
    let asked = index::begin(pool, reg, slot, key);
    search(rt, pool, asked, slot)
}

// Searches in a slot for the next ticket: the one with the smallest key greater than this one.
fn look_next(
    rt: &impl Print,
    pool: &mut [u32],
    reg: Register,
    slot: u32,
    key: u32,
) -> io::Result<Register> {
    say(rt, "next after ", key as u64)?;
    let asked = index::begin_next(pool, reg, slot, key);
    search(rt, pool, asked, slot)
}

// Inserts two tickets; the third insert is of a held key and replaces its record. A record is any
// number of 64 bits.
fn fill(rt: &impl Print, pool: &mut [u32], reg: Register) -> io::Result<Register> {
    let mut r = insert(rt, pool, reg, 1, 10)?;
    r = insert(rt, pool, r, 2, 20)?;
    insert(rt, pool, r, 2, 5_000_000_000)
}

// Looks the key 2 up, and searches for the next ticket after 1.
fn read(rt: &impl Print, pool: &mut [u32], reg: Register) -> io::Result<Register> {
    let r = look_up(rt, pool, reg, 0, 2)?;
    look_next(rt, pool, r, 0, 1)
}

// Deletes the key 2, and once more: then it is no longer held, and the delete is refused.
fn remove(rt: &impl Print, pool: &mut [u32], reg: Register) -> io::Result<Register> {
    let r = delete(rt, pool, reg, 2)?;
    delete(rt, pool, r, 2)
}

// Fills the index and reads it, deletes a key and reads it again.
fn run(rt: &impl Print, pool: &mut [u32], reg: Register) -> io::Result<()> {
    let mut r = fill(rt, pool, reg)?;
    r = read(rt, pool, r)?;
    r = remove(rt, pool, r)?;
    read(rt, pool, r)?;
    Ok(())
}

fn main(rt: HostRuntime) -> io::Result<()> {
    let mut pool = [0u32; WORDS];
    let made = index::set_up(&mut pool, fresh::fresh_register(0));
    let answer = made.answer;
    if accepted(&rt, answer)? {
        run(&rt, &mut pool, made.register)?;
    }
    Ok(())
}
