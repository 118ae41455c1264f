// Long random runs of the index beside a plain sequential red-black tree (crate reference) and document 01's plain list (model): after every
// finished write both trees are walked together, every answer of a lookup or of a search for the next ticket is held against its moments, and
// of every call it is foretold whether it is refused, of a writer's turn whether it answers more, done or wait, and of a reader's turn how many
// nodes its reading has compared; each camera's tally is kept twice. Sorted lists become one tree (crate lists), at a run's start and after the
// index was emptied.
#![tactic(auto)]

ghost use Rattle.std.specs.Prelude.{◌≤◌};

mod calls;

use calls::Made;
use checks::draws::{Call, Kind};
use checks::{aims, draws, lengths, rows};
use comparisons::{Beside, Said};
use datatypes::{Register, Tally};
use lists::drawn::List;
use std::io;

// the words of 1,023 nodes
const POOL_WORDS: usize = numbers::MOST_NODES * numbers::NODE_WORDS;

// what a call made on this register is compared by
fn said_of(reg: &Register, made: &Made, s: u32) -> Said {
    let before = calls::reader_of(reg, s);
    let after = calls::reader_of(&made.register, s);
    Said {
        answer: made.answer,
        free_before: reg.free,
        step: calls::step_in_hand(reg),
        node: before.node,
        compared: made.compared,
        counted: after.compared,
        tally: made.tally,
        root: made.register.root,
        free: made.register.free,
        held: made.register.held,
        awaited: made.register.awaited,
    }
}

// A run: what stands beside the index, a list as drawn, the last call made, each camera's tally, the slots that read and the most keys held.
#[derive(Drop)]
struct Run {
    beside: Beside,
    list: List,
    last: Made,
    tallies: [Tally; lengths::CAMERAS],
    reading: u32,
    most: u32,
}

impl Run {
    // Answers what stands before the first run.
    fn new() -> Run {
        Run {
            beside: Beside::new(),
            list: List::new(),
            last: calls::before_any(),
            tallies: [calls::NO_TALLY; lengths::CAMERAS],
            reading: 0,
            most: 0,
        }
    }

    // on an index just set up
    fn set_up(&mut self, pool: &mut [u32]) {
        self.beside.clear();
        self.last = calls::set_up(pool);
        self.tallies = [calls::NO_TALLY; lengths::CAMERAS];
        self.reading = 0;
        self.most = 0;
        self.beside.set_up(self.last.answer);
    }

    // A list is drawn, lent and compared; `x`: the draw of its call.
    fn list_call(&mut self, pool: &mut [u32], call: Call, x: u32, tally: Tally) -> Made {
        let reg = self.last.register;
        let mut queue = [0u32; numbers::MOST_NODES];
        self.list.draw(walks::nodes(pool), x);
        walks::note_queue(pool, reg.first, &mut queue);
        let made = calls::call_index(pool, reg, call, &self.list, tally);
        let said = lists::Said {
            answer: made.answer,
            free_before: reg.free,
            free: made.register.free,
        };
        lists::compare(&mut self.beside, pool, &queue, &self.list, said);
        made
    }

    // Makes a call after the last one, and compares it; `x`: its draw.
    fn call(&mut self, pool: &mut [u32], call: Call, x: u32) {
        let reg = self.last.register;
        let camera = lengths::camera_of(call.slot);
        let tally = self.tallies[camera];
        let made = if call.kind == Kind::List {
            self.list_call(pool, call, x, tally)
        } else {
            calls::call_index(pool, reg, call, &self.list, tally)
        };
        let said = said_of(&reg, &made, call.slot);
        self.reading = self.beside.compare(pool, call, said);
        self.tallies[camera] = made.tally;
        self.most = self.most.max(made.register.held);
        self.last = made;
    }

    // calls drawn from a seed
    fn calls(&mut self, pool: &mut [u32], calls: u64, seed: u32) {
        let nodes = walks::nodes(pool);
        let mut x = seed;
        for i in 0..calls {
            let call = aims::draw_call(&self.beside.model, x, i, nodes, self.reading);
            self.call(pool, call, x);
            x = draws::after_call(x);
        }
    }

    // a run on the words lent; a short one has no line
    fn run(&mut self, rt: &impl Print, pool: &mut [u32], calls: u64, seed: u32) -> io::Result<()> {
        let before = self.beside.counts.get(rows::LISTS_LATER);
        self.set_up(pool);
        self.calls(pool, calls, seed);
        let over = self.beside.tree.overruns() != 0;
        self.beside.counts.same(!over);
        if SHORT_RUNS <= seed {
            return Ok(());
        }
        let run = count_lines::RunLine {
            nodes: walks::nodes(pool),
            calls,
            most: self.most,
            lists: self.beside.counts.growth(rows::LISTS_LATER, before),
        };
        count_lines::run(rt, run, &self.beside.lengths)
    }
}

// The runs, by number: their nodes, and how many calls. From SHORT_RUNS on they are short, for what a list at a run's start leads to, and are
// counted without a line of their own.
const SHORT_RUNS: u32 = 8;

const RUNS: u32 = 358;

fn nodes_of(run: u32) -> usize
    ensures { result ≤ 1023 }
{
    match run % 7 {
        1 => 8,
        2 => 9,
        3 => 13,
        4 => 16,
        5 => 33,
        6 => 128,
        _ => numbers::MOST_NODES,
    }
}

fn calls_of(run: u32) -> u64 {
    match run {
        SHORT_RUNS.. => 400,
        7 => 1_250_000,
        _ => 375_000,
    }
}

// a run's number is its seed
fn main(rt: HostRuntime) -> io::Result<()> {
    let mut words = [0u32; POOL_WORDS];
    let mut run = Run::new();
    for n in 1..RUNS {
        let many = nodes_of(n) * numbers::NODE_WORDS;
        run.run(&rt, &mut words[..many], calls_of(n), n)?;
    }
    count_lines::all(&rt, &run.beside.counts)
}
