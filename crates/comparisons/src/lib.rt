// What a call of the index is compared with, call by call: a plain sequential red-black tree (crate reference), document 01's plain list (checks:
// model) and the lengths of readings and cameras' tallies (checks: lengths). It uses nothing of the index but its types.
#![tactic(auto)]

pub mod answers;
mod reading;
mod writing;

use answers::Answer;
use checks::draws::{Call, Kind, Reading};
use checks::lengths::Lengths;
use checks::model::Model;
use checks::rows::Counts;
use checks::{lengths, rows};
use datatypes::{Step, Tally};
use reference::Tree;
use walks::Standing;

// What a call said and left: its answer; the free nodes before it, the step of the store in hand and the node of its slot; the count and the tally of
// a reader's turn, the slot's count after it, and the register's numbers after it.
#[derive(Clone, Copy)]
pub struct Said {
    pub answer: Answer,
    pub free_before: u32,
    pub step: Step,
    pub node: u32,
    pub compared: u32,
    pub counted: u32,
    pub tally: Tally,
    pub root: u32,
    pub free: u32,
    pub held: u32,
    pub awaited: u32,
}

// What stands beside the index: the reference tree, the plain list with the readers' moments, the lengths of readings, and the counts of all runs.
#[derive(Drop)]
pub struct Beside {
    pub tree: Tree,
    pub model: Model,
    pub lengths: Lengths,
    pub counts: Counts,
}

impl Beside {
    // Answers what stands beside the index before its first run.
    pub fn new() -> Beside {
        Beside {
            tree: Tree::new(),
            model: Model::new(),
            lengths: Lengths::new(),
            counts: Counts::new(),
        }
    }

    // Clears all but the counts, for another run.
    pub fn clear(&mut self) {
        self.tree.clear();
        self.model.clear();
        self.lengths.clear();
    }

    // Compares an answer with the one foretold.
    pub fn answered(&mut self, answer: Answer, foretold: Answer) {
        if let Answer::Refused(refusal) = answer {
            self.counts.one(rows::REFUSALS + refusal as usize);
        }
        self.counts.same(answer == foretold);
        self.counts.one(rows::ANSWERS);
    }

    // Compares the answer of set up.
    pub fn set_up(&mut self, answer: Answer) {
        self.answered(answer, Answer::Accepted);
        self.counts.one(rows::CALLS);
    }

    fn compare_answer(&mut self, pool: &[u32], call: Call, said: Said) {
        let nodes = walks::nodes(pool);
        match call.kind {
            Kind::Insert => self.insert(nodes, call, said.free_before, said.answer),
            Kind::Delete => self.delete(call, said.free_before, said.answer),
            Kind::WriterTurn => self.writer_turn(pool, said),
            Kind::Begin => self.begin(call, Reading::Lookup, said.answer),
            Kind::BeginNext => self.begin(call, Reading::Search, said.answer),
            Kind::ReaderTurn => self.reader_turn(nodes, call.slot, said),
            Kind::GiveUp => self.give_up(call.slot, said.answer),
            // a list is compared on its own (crate lists)
            Kind::List => {}
        }
    }

    // What holds after every call: keys held, free nodes and awaited slots; and a moment of every lookup and search passes.
    fn compare_state(&mut self, pool: &[u32], said: Said) {
        let room = self.model.observe();
        let held = said.held == self.model.held();
        let free = said.free == walks::nodes_with(pool, Standing::Free);
        let awaited = said.awaited == self.model.awaited();
        self.counts.same(room & held & free & awaited);
        self.counts.one(rows::STATES);
        self.counts.awaited(said.awaited);
    }

    // with a list in hand: just its nodes stand made apart, the root is 0 and no key is held
    fn compare_list_in_hand(&mut self, pool: &[u32], said: Said) {
        if let Some(m) = self.model.list_in_hand() {
            let apart = walks::nodes_with(pool, Standing::Apart) == m;
            self.counts
                .same(apart & (said.root == 0) & (said.held == 0));
            self.counts.one(rows::LIST_STATES);
        }
    }

    // the count of an answer: with no write in hand since the begin it is bounded by the keys held
    fn compare_answered(&mut self, s: u32, held: u32) {
        let bounded = self.lengths.bounded(s, held);
        if self.lengths.answer(s) {
            self.counts.same(bounded);
            self.counts.one(rows::QUIET_COUNTS);
        }
    }

    // an accepted turn compares a new node, or loads the root; go leaves the count in the slot's record, an answer leaves 0
    fn compare_count(&mut self, s: u32, said: Said) {
        let once = self.lengths.turn(s, said.node);
        let n = self.lengths.count(s);
        let goes = said.answer == Answer::Go;
        self.counts.same(once & (said.compared == n));
        self.counts.same(said.counted == if goes { n } else { 0 });
        self.counts.one(rows::COUNTS);
        if !goes {
            self.compare_answered(s, said.held);
        }
    }

    // the count in a turn's reply, 0 of a refused one; and the camera's tally
    fn compare_turn(&mut self, s: u32, said: Said) {
        if said.answer.refuses() {
            self.counts.same(said.compared == 0);
        } else {
            self.compare_count(s, said);
        }
        let Tally {
            answered,
            compared,
            longest,
        } = said.tally;
        let camera = lengths::camera_of(s);
        self.counts
            .same(self.lengths.tally_is(camera, answered, compared, longest));
        self.counts.one(rows::TALLIES);
    }

    // a begin and a give up leave the count 0
    fn compare_ended(&mut self, call: Call, said: Said) {
        if said.answer == Answer::Accepted {
            self.counts.same(said.counted == 0);
            if let Some(kind) = call.kind.begins() {
                self.lengths.begin(call.slot, kind);
            }
        }
    }

    // How many nodes readings compare, and the cameras' tallies.
    fn compare_lengths(&mut self, call: Call, said: Said) {
        match call.kind {
            Kind::ReaderTurn => self.compare_turn(call.slot, said),
            Kind::Begin | Kind::BeginNext | Kind::GiveUp => self.compare_ended(call, said),
            _ => {}
        }
        self.lengths.moment(self.model.write_in_hand().is_some());
    }

    // Compares what a call said and left; answers the slots that read after it.
    pub fn compare(&mut self, pool: &[u32], call: Call, said: Said) -> u32 {
        self.compare_answer(pool, call, said);
        self.counts.one(call.kind as usize);
        self.compare_state(pool, said);
        self.compare_list_in_hand(pool, said);
        self.compare_lengths(call, said);
        self.model.reading_slots()
    }
}
