// Repeats one call, and puts the pool back before each, so that the instructions of a call can be counted.
// Arguments: CALL SIZE MODE SLOT. Instructions of a call: those of a run in mode 1 less those in mode 0, divided by 1,000.
// CALL: P set up, I insert of a new key, H of a held key, D delete, B begin, G C F A a reader's turn that answers go (G loads the root, C
// compares at a node), found, absent, E give up, W a writer's turn that answers wait. Of a search for the next ticket: S begin, L R a turn that
// answers go at a greater key (to the left, remembering it) and at a smaller one (to the right), N O a turn that answers next and none.
// Q the page, put into a buffer: no call, and without tests 1 and 2.
// A small letter is a writer's turn, by its store: i insert under a black parent, j with colours above alone, k with a rotation to come; r replace;
// d e diag lower, raise; x y z zig lower A, lower C, raise; u unlink, a adopt, m promote, p publish, t detach.
// Another letter, or none, is a writer's turn with no write in hand, or, if small, one that never comes (Call::from_letter).
// SIZE: s m l: N 8, 128, 1,023, with about N / 2 − 1 keys; v: N 128, a damaged tree with a path of 64 nodes. Another, or none, is m.
// MODE: 1,000 times, 0: the pool is put back, 1: and the call is made. Another, or none, is 0.
// SLOT: the slot of a reader's call, 0 or 1; in a writer's turn 1: slot 1 reads, so that a node let go is retired, 0: none does.
// Writes a sum over the free counts after the calls (in mode 0, before them), or 0 where no write came to the wanted turn. 1 may be added
// by a page: a byte of the buffer is looked at, so that the compiler can't leave out what is written there.
#![tactic(auto)]

mod calls;
mod way;

use calls::{Act, Call, Size};
use datatypes::Register;
use std::rt::Env;
use std::{env, io};
use way::Asked;

const MOST_WORDS: usize = numbers::MOST_NODES * numbers::NODE_WORDS;

const REPEATS: u32 = 1000;

// the bytes of the buffer that the page is put into
const BUFFER: usize = 65_536;

// the first byte of an argument, 0 where there is none
fn argument(rt: &(impl Env + AllocGlobal), i: usize) -> io::Result<u8> {
    let text = env::args(rt)?.nth(i);
    Ok(
        text.and_then(|t| t.as_bytes().first().copied())
            .unwrap_or(0),
    )
}

// the page: how many bytes it has
fn printed(pool: &[u32], out: &mut [u8]) -> u32 {
    if numbers::POOL_WORDS < pool.len() {
        return 0;
    }
    if out.len() < page::PAGE_ROOM {
        return 0;
    }
    let end = page::put_page(out, 0, pool);
    (end % 65536) as u32
}

// What is counted, or none: a number of the register that it answers, so that nothing but the call is done.
// kept: apart from `made`, which answers the register: by it an insert takes 4,370 instructions at N 128 where this takes 2,657.
fn counted(
    pool: &mut [u32],
    out: &mut [u8],
    reg: Register,
    act: Option<Act>,
    k: u32,
    s: u32,
) -> u32 {
    let Some(act) = act else {
        return reg.free;
    };
    match act {
        Act::SetUp => index::set_up(pool, reg).register.free,
        Act::Insert => index::insert(pool, reg, k, k as u64).register.free,
        Act::Delete => index::delete(pool, reg, k).register.free,
        Act::Begin => index::begin(pool, reg, s, k).register.free,
        Act::BeginNext => index::begin_next(pool, reg, s, k).register.free,
        Act::ReaderTurn => index::reader_turn(pool, reg, s).register.free,
        Act::GiveUp => index::give_up(pool, reg, s).register.free,
        Act::WriterTurn => index::writer_turn(pool, reg).register.free,
        Act::Page => printed(pool, out),
    }
}

// The index's words, as they are before each repeat, its register then, and the buffer of the page.
#[derive(Drop)]
struct Bench {
    words: [u32; MOST_WORDS],
    kept: [u32; MOST_WORDS],
    register: Register,
    out: [u8; BUFFER],
}

impl Bench {
    // Answers one before the way.
    fn new() -> Bench {
        Bench {
            words: [0; MOST_WORDS],
            kept: [0; MOST_WORDS],
            register: fresh::fresh_register(0),
            out: [0; BUFFER],
        }
    }

    // the way to the call, and the repeats, each with the pool as it was kept; `act`: what is done in each
    fn run(&mut self, asked: Asked, act: Option<Act>) -> u32 {
        let n = asked.size.nodes() * numbers::NODE_WORDS;
        let Bench {
            words,
            kept,
            register,
            out,
        } = self;
        let words: &mut [u32] = words;
        let kept: &mut [u32] = kept;
        let pool = &mut words[..n];
        let kept = &mut kept[..n];
        *register = asked.walk(pool);
        if register.held == 0 {
            return 0;
        }
        kept.copy_from_slice(pool);
        let mut sum: u32 = 1;
        for i in 0..REPEATS {
            pool.copy_from_slice(kept);
            let k = asked.key(i);
            sum = (sum ^ k).wrapping_add(counted(pool, out, *register, act, k, asked.slot()));
        }
        sum
    }

    // whether a byte of the buffer was written, as a number
    fn seen(&self, place: usize) -> u32 {
        if self.out[place % 1024] == 0 { 0 } else { 1 }
    }
}

fn main(rt: HostRuntime) -> io::Result<()> {
    let call = Call::from_letter(argument(&rt, 1)?);
    let size = Size::from_letter(argument(&rt, 2)?);
    let mode = argument(&rt, 3)?;
    let slot = argument(&rt, 4)?;
    let asked = Asked {
        call,
        size,
        second: slot % 2 == 1,
    };
    let act = if mode == b'1' { Some(call.act()) } else { None };
    let mut bench = Bench::new();
    let sum = bench.run(asked, act);
    let told = sum.wrapping_add(bench.seen(sum as usize));
    print!(rt; "{told}")
}
