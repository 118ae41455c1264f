// The way to the call asked for: set up, writes and their turns to the wanted one with about as many keys as wanted, then a begin and its turns.

ghost use Rattle.std.specs.Prelude.{◌<◌};
ghost use Rattle.spec.specs.Numbers.{slots};

use crate::calls::{Act, Call, DEEP, Size, Turn};
use datatypes::{Register, Step};

// the most calls on the way to the wanted turn
const MOST_STEPS: u32 = 10000;

// What is asked for: a call, a size, and whether the slot is 1, not 0.
#[derive(Clone, Copy)]
pub struct Asked {
    pub call: Call,
    pub size: Size,
    pub second: bool,
}

impl Asked {
    // Answers the slot.
    pub fn slot(self) -> u32
        ensures { result < slots }
    {
        if self.second { 1 } else { 0 }
    }

    // Answers the i-th repeat's key: an even one is held.
    pub fn key(self, i: u32) -> u32 {
        if self.size == Size::Damaged {
            return self.call.deep_key();
        }
        let even = i % self.size.keys() % 1024 * 2;
        match self.call {
            Call::Delete | Call::InsertHeld => even + 2,
            _ => even + 1,
        }
    }

    // The key of a begin on the way: one below all, one above all, or the root's.
    fn begin_key(self, pool: &[u32], root: u32) -> u32 {
        match self.call {
            Call::GoAtNode | Call::Absent | Call::GoLeft | Call::Next => 1,
            Call::GoRight | Call::NoneLeft => u32::MAX,
            _ => pool::word(pool, root, pool::KEY),
        }
    }

    // The key of a call on the way; a write's: the even ones where no turn is wanted, else any.
    fn way_key(self, pool: &[u32], act: Act, reg: &Register, seed: u32) -> u32 {
        if matches!(act, Act::Begin | Act::BeginNext) {
            return self.begin_key(pool, reg.root);
        }
        if self.size == Size::Damaged {
            return self.call.deep_key();
        }
        let keys = self.size.keys();
        if self.call.wanted().is_none() {
            return reg.held % 1024 * 37 % keys % 1024 * 2 + 2;
        }
        seed / 16 % (2 * keys) % 1024 + 1
    }

    // a write on the way
    fn way_write(self, held: u32, seed: u32) -> Act {
        let keys = self.size.keys();
        let inserts = if self.size == Size::Damaged {
            self.call.grows() || self.call.replaces()
        } else {
            self.call.wanted().is_none() || held < keys - 2 || held <= keys && seed / 65536 % 2 != 0
        };
        if inserts { Act::Insert } else { Act::Delete }
    }

    // While the slot reads: to the root for found and for go at a node, to the last node on the left for absent and next, on the right for none,
    // and the turn that has to wait.
    fn while_reading(self, pool: &[u32], node: u32, awaited: u32) -> Option<Act> {
        let goes = match self.call {
            Call::Wait if awaited == 0 => return Some(Act::WriterTurn),
            Call::GoAtNode | Call::Found | Call::GoLeft | Call::GoRight => node == 0,
            Call::Absent | Call::Next => { (node == 0) | (pool::word(pool, node, pool::LEFT) != 0) }
            Call::NoneLeft => (node == 0) | (pool::word(pool, node, pool::RIGHT) != 0),
            _ => false,
        };
        if goes { Some(Act::ReaderTurn) } else { None }
    }

    // the begin on the way, or none
    fn way_begin(self) -> Option<Act> {
        if self.call.seeks_next() {
            return Some(Act::BeginNext);
        }
        let begins = matches!(self.call, Call::GiveUp | Call::Wait) || self.call.looks_up();
        if begins || self.second {
            Some(Act::Begin)
        } else {
            None
        }
    }

    // the next call on the way, or none where the call asked for comes next
    fn way_act(self, pool: &[u32], reg: &Register, seed: u32) -> Option<Act> {
        let reader = reg.readers[self.slot() as usize];
        if reader.reading {
            return self.while_reading(pool, reader.node, reg.awaited);
        }
        if reg.last == 0 {
            return Some(Act::SetUp);
        }
        let keys = self.size.keys();
        let next = Turn::in_hand(pool, &reg.write);
        let enough = reg.held == keys || next.is_some() && reg.held >= keys - 2;
        if enough && next == self.call.wanted() {
            return self.way_begin();
        }
        if reg.write.count != 0 {
            return Some(Act::WriterTurn);
        }
        Some(self.way_write(reg.held, seed))
    }

    // The register after a call on the way. An insert of a held key is passed over, unless its turn is wanted: it has left the pool as it was.
    fn passed(self, before: Register, after: Register) -> Register {
        let replaces = matches!(after.write.stores[0].step, Step::Replace(_));
        if replaces && self.call != Call::Turn(Turn::Replace) {
            before
        } else {
            after
        }
    }

    // Goes the way, and answers the register; where the wanted turn never came, one with no keys.
    pub fn walk(self, pool: &mut [u32]) -> Register {
        let mut reg = self.start(pool);
        let mut seed: u32 = 1;
        for _ in 0..MOST_STEPS {
            let Some(act) = self.way_act(pool, &reg, seed) else {
                return reg;
            };
            let k = self.way_key(pool, act, &reg, seed);
            let after = made(pool, reg, act, k, self.slot());
            reg = self.passed(reg, after);
            seed = seed % 65536 * 25189 + 13849;
        }
        fresh::fresh_register(8)
    }

    // A register that is not set up, or the damaged tree's, all red for an insert, so that its fix-up goes to the root, and else all black.
    fn start(self, pool: &mut [u32]) -> Register {
        if self.size != Size::Damaged {
            return fresh::fresh_register(0);
        }
        let colour = if self.call.grows() {
            pool::RED
        } else {
            pool::BLACK
        };
        damage(pool, colour)
    }
}

// The damaged tree: from the root, node 1, to the right and then to the left down to node 64; node 65 is every other child, and the rest is free.
fn damage(pool: &mut [u32], colour: u32) -> Register {
    for n in 1..66 {
        pool::set_word(pool, n, pool::KEY, 200 - 2 * n);
        pool::set_word(pool, n, pool::LEFT, n + 1);
        pool::set_word(pool, n, pool::RIGHT, 65);
        pool::set_word(pool, n, pool::COLOUR, colour);
        pool::set_word(pool, n, pool::STANDING, pool::LINKED);
        pool::set_word(pool, n + 64, pool::NEXT, (n + 65) % 129);
    }
    pool::set_word(pool, 1, pool::KEY, 2);
    pool::set_word(pool, 1, pool::LEFT, 65);
    pool::set_word(pool, 1, pool::RIGHT, 2);
    pool::set_word(pool, 64, pool::LEFT, 0);
    pool::set_word(pool, 64, pool::RIGHT, 0);
    pool::set_word(pool, 65, pool::LEFT, 0);
    pool::set_word(pool, 65, pool::RIGHT, 0);
    let mut r = fresh::fresh_register(128);
    r.root = 1;
    r.first = 66;
    r.free = 63;
    r.held = DEEP;
    r
}

// A call on the way, with the register that it answers; the page is no call, and leaves it.
fn made(pool: &mut [u32], reg: Register, act: Act, k: u32, s: u32) -> Register {
    match act {
        Act::SetUp => index::set_up(pool, reg).register,
        Act::Insert => index::insert(pool, reg, k, k as u64).register,
        Act::Delete => index::delete(pool, reg, k).register,
        Act::Begin => index::begin(pool, reg, s, k).register,
        Act::BeginNext => index::begin_next(pool, reg, s, k).register,
        Act::ReaderTurn => index::reader_turn(pool, reg, s).register,
        Act::GiveUp => index::give_up(pool, reg, s).register,
        Act::WriterTurn => index::writer_turn(pool, reg).register,
        Act::Page => reg,
    }
}
