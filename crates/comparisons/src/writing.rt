// The writer's calls, each beside the reference tree and the plain list.
ghost use Rattle.std.specs.Prelude.{◌<◌};

use crate::answers::Answer;
use crate::{Beside, Said};
use checks::draws::Call;
use checks::model::Write;
use checks::{model, rows};
use datatypes::{Purpose, Refusal, Side, Step};
use reference::DeleteForm;
use walks::Standing;

// the row of a rotation's step in the counts: six a step, by purpose and side
fn rotation_row(step: usize, side: Side, purpose: Purpose) -> usize
    requires { step < 5 }
{
    rows::ROTATIONS + step * 6 + purpose as usize * 2 + side as usize
}

// the row of a store
fn step_row(step: Step) -> usize {
    match step {
        Step::Vacant => rows::STEPS + 7,
        Step::Insert(_, _) => rows::STEPS,
        Step::Replace(_) => rows::STEPS + 1,
        Step::DiagLower(side, purpose) => rotation_row(0, side, purpose),
        Step::DiagRaise(side, purpose) => rotation_row(1, side, purpose),
        Step::ZigLowerA(side, purpose) => rotation_row(2, side, purpose),
        Step::ZigLowerC(side, purpose) => rotation_row(3, side, purpose),
        Step::ZigRaise(side, purpose) => rotation_row(4, side, purpose),
        Step::Unlink => rows::STEPS + 2,
        Step::Adopt => rows::STEPS + 3,
        Step::Promote => rows::STEPS + 4,
        Step::Publish(_) => rows::STEPS + 5,
        Step::Detach(_) => rows::STEPS + 6,
        Step::LinkAll(_, _) => rows::LINK_ALL,
    }
}

// the row of a delete's form
fn form_row(form: DeleteForm) -> usize {
    rows::FORMS + 1 + form as usize
}

impl Beside {
    // the stores of the last write: so many, and then two for a single rotation and three for a double one
    fn stores(&self, first: u32) -> u32 {
        let singles = self.tree.single_rotations().saturating_mul(2);
        let doubles = self.tree.double_rotations().saturating_mul(3);
        first.saturating_add(singles).saturating_add(doubles)
    }

    // whether an insert of a new key is refused by 10
    fn full(&self, nodes: u32) -> bool {
        nodes <= self.tree.held().saturating_add(4)
    }

    fn insert_foretold(&self, write: Write, full: bool, free: u32) -> Answer {
        if self.model.write_in_hand().is_some() {
            Answer::Refused(Refusal::WriteInHand)
        } else if full & matches!(write, Write::Insert(_, _)) {
            Answer::Refused(Refusal::IndexFull)
        } else if free < 3 {
            Answer::Refused(Refusal::TooFewFree)
        } else {
            Answer::Accepted
        }
    }

    // takes a write in hand, which takes so many stores before its rotations
    fn begin_write(&mut self, write: Write, first: u32) {
        let stores = self.stores(first);
        self.model.take_in_hand(write, stores);
        self.counts.one(rows::ACCEPTED + write.place());
    }

    // takes an accepted insert in hand
    fn begin_insert(&mut self, write: Write, call: Call) {
        self.counts
            .one_if(rows::WIDE_INSERTED, numbers::WORD_LIMIT <= call.record);
        self.tree.insert(call.key, call.record);
        self.begin_write(write, 1);
    }

    // counts the answer to an insert of a held key, by what is special about it; `full`: one of a new key would be refused by 10
    fn count_replacement(&mut self, call: Call, full: bool, answer: Answer) {
        let few = answer == Answer::Refused(Refusal::TooFewFree);
        self.counts.one_if(rows::REPLACED_FEW, few);
        if answer != Answer::Accepted {
            return;
        }
        self.counts.one_if(rows::REPLACED_FULL, full);
        if let Some(old) = self.model.list_record(call.ticket) {
            self.counts.one_if(rows::REPLACED_SAME, old == call.record);
            self.counts
                .one_if(rows::HIGH_REPLACED, model::differ_high(old, call.record));
        }
    }

    // Compares the answer of an insert, and makes an accepted one in the reference tree. `free`: the free nodes before the call.
    pub fn insert(&mut self, nodes: u32, call: Call, free: u32, answer: Answer) {
        let write = match self.tree.find(call.key) {
            None => Write::Insert(call.ticket, call.record),
            Some(_) => Write::Replace(call.ticket, call.record),
        };
        let full = self.full(nodes);
        let foretold = self.insert_foretold(write, full, free);
        self.answered(answer, foretold);
        if matches!(write, Write::Replace(_, _)) {
            self.count_replacement(call, full, answer);
        }
        if foretold == Answer::Accepted {
            self.begin_insert(write, call);
        }
    }

    fn delete_foretold(&mut self, key: u32, free: u32) -> Answer {
        if self.model.write_in_hand().is_some() {
            Answer::Refused(Refusal::WriteInHand)
        } else if self.tree.find(key).is_none() {
            Answer::Refused(Refusal::KeyNotHeld)
        } else if free < 4 {
            Answer::Refused(Refusal::TooFewFree)
        } else {
            Answer::Accepted
        }
    }

    // takes an accepted delete in hand
    fn begin_delete(&mut self, call: Call) {
        let form = self.tree.delete_form(call.key);
        let first = if form == DeleteForm::OneChild { 1 } else { 2 };
        self.tree.delete(call.key);
        self.begin_write(Write::Delete(form, call.ticket), first);
    }

    // Compares the answer of a delete, and makes an accepted one in the reference tree. `free`: the free nodes before the call.
    pub fn delete(&mut self, call: Call, free: u32, answer: Answer) {
        let foretold = self.delete_foretold(call.key, free);
        self.answered(answer, foretold);
        if foretold == Answer::Accepted {
            self.begin_delete(call);
        }
    }

    fn turn_foretold(&self) -> Answer {
        if self.model.write_in_hand().is_none() {
            Answer::Refused(Refusal::NoWriteInHand)
        } else if self.model.awaited() != 0 {
            Answer::Wait
        } else if self.model.last_is_next() {
            Answer::Done
        } else {
            Answer::More
        }
    }

    // after a replacement: its copy takes a free node, and the old node is free at once if no slot reads
    fn compare_copy(&mut self, said: Said) {
        if matches!(said.step, Step::Replace(_)) {
            let reading = self.model.reading_slots() != 0;
            let left = said.free.saturating_add(u32::from(reading));
            self.counts.same(said.free_before == left);
        }
    }

    // both trees after a finished write
    fn compare_trees(&mut self, pool: &[u32], root: u32, write: Write) {
        let same = walks::same_nodes(pool, root, &self.tree);
        self.counts.same(same == Some(self.tree.held()));
        let nodes = same.unwrap_or(0) as u64;
        self.counts.add(rows::NODES, nodes);
        if matches!(write, Write::List(_)) {
            self.counts.add(rows::LIST_NODES, nodes);
        }
        self.counts.one(rows::TREES);
    }

    // the standings of all nodes after a finished write: as many are linked as keys are held, none stands made apart, and reading slots hold the
    // retired ones
    fn compare_standings(&mut self, pool: &[u32]) {
        let linked = walks::nodes_with(pool, Standing::Linked) == self.tree.held();
        let apart = walks::nodes_with(pool, Standing::Apart) == 0;
        let holders = walks::all_holders_right(pool, self.model.reading_slots());
        self.counts.same(linked & apart & holders);
    }

    fn finish_write(&mut self, pool: &[u32], root: u32) {
        if let Some(write) = self.model.write_in_hand() {
            self.counts.one(rows::FINISHED + write.place());
            if let Write::Delete(form, _) = write {
                self.counts.one(form_row(form));
            }
            self.model.finish_write();
            self.compare_trees(pool, root, write);
            self.compare_standings(pool);
        }
    }

    // a store was made; after a write's last one the trees are walked together
    fn follow_store(&mut self, pool: &[u32], said: Said, last: bool) {
        self.counts.one(step_row(said.step));
        self.counts.one(if last { rows::DONE } else { rows::MORE });
        self.model.store_made();
        if last {
            self.compare_copy(said);
            self.finish_write(pool, said.root);
        }
    }

    // Compares the answer of a writer's turn.
    pub fn writer_turn(&mut self, pool: &[u32], said: Said) {
        self.answered(said.answer, self.turn_foretold());
        match said.answer {
            Answer::More => self.follow_store(pool, said, false),
            Answer::Done => self.follow_store(pool, said, true),
            Answer::Wait => self.counts.one(rows::WAIT),
            _ => {}
        }
    }
}
