// Lists (document 02, C-24) as random calls: drawn, and compared with the reference tree and with the plain list (checks: model). It uses nothing of
// the index.
#![tactic(auto)]

pub mod drawn;

use checks::model::{Model, Write};
use checks::rows::Counts;
use checks::{draws, rows};
use comparisons::Beside;
use comparisons::answers::Answer;
use datatypes::Refusal;
use drawn::List;

// What a list is compared by beside the pool: the free nodes before and after it, and its answer.
#[derive(Clone, Copy)]
pub struct Said {
    pub answer: Answer,
    pub free_before: u32,
    pub free: u32,
}

fn foretold(nodes: u32, model: &Model, list: &List, free: u32) -> Answer {
    let keys = list.keys().len() as u32;
    if model.write_in_hand().is_some() {
        Answer::Refused(Refusal::WriteInHand)
    } else if list.fault.is_some() {
        Answer::Refused(Refusal::ListWrong)
    } else if model.held() != 0 {
        Answer::Refused(Refusal::IndexNotEmpty)
    } else if nodes < keys + 4 {
        Answer::Refused(Refusal::IndexFull)
    } else if free < keys {
        Answer::Refused(Refusal::TooFewFree)
    } else {
        Answer::Accepted
    }
}

// counts a refused list by its answer, and a wrong one by its fault
fn count_refused(counts: &mut Counts, list: &List, answer: Answer) {
    let row = match answer {
        Answer::Refused(Refusal::WriteInHand) => rows::LISTS_REFUSED,
        Answer::Refused(Refusal::IndexFull) => rows::LISTS_REFUSED + 1,
        Answer::Refused(Refusal::TooFewFree) => rows::LISTS_REFUSED + 2,
        Answer::Refused(Refusal::ListWrong) => {
            rows::LISTS_WRONG + list.fault.map_or(0, |fault| fault as usize)
        }
        _ => return,
    };
    counts.one(row);
}

// counts an accepted list by its place in the run and by the slots that read; in an empty index a slot after its first turn is at a retired node
fn count_accepted(model: &Model, counts: &mut Counts) {
    let reading = model.reading_slots();
    let unturned = model.unturned_slots();
    counts.one(rows::ACCEPTED);
    counts.one(if model.unused() {
        rows::LISTS_FIRST
    } else {
        rows::LISTS_LATER
    });
    counts.one_if(rows::LISTS_READ, reading != 0);
    counts.one_if(rows::LISTS_UNTURNED, unturned != 0);
    counts.one_if(rows::LISTS_RETIRED, unturned != reading);
}

// counts an accepted list by its keys
fn count_keys(nodes: u32, keys: &[u32], counts: &mut Counts) {
    counts.one_if(rows::LISTS_SMALLEST, keys.first() == Some(&0));
    counts.one_if(rows::LISTS_LARGEST, keys.last() == Some(&u32::MAX));
    counts.one_if(
        rows::LISTS_LONGEST,
        nodes as usize == keys.len().saturating_add(4),
    );
}

// the plain list is to take all tickets of the list
fn expect_tickets(model: &mut Model, nodes: u32, list: &List) {
    for (key, record) in list.keys().iter().zip(list.records()) {
        if let Some(t) = draws::ticket_of(*key, nodes) {
            model.expect_ticket(t, *record);
        }
    }
}

// takes an accepted list in hand
fn begin(beside: &mut Beside, nodes: u32, list: &List) {
    let m = list.keys().len() as u32;
    count_accepted(&beside.model, &mut beside.counts);
    count_keys(nodes, list.keys(), &mut beside.counts);
    beside.tree.put_list(list.keys(), list.records());
    expect_tickets(&mut beside.model, nodes, list);
    beside.model.take_in_hand(Write::List(m), 1);
}

// the first nodes of the queue before the call are taken in key order, and the free count fell by as many
fn compare_taken(counts: &mut Counts, pool: &[u32], queue: &[u32], list: &List, said: Said) {
    let m = list.keys().len() as u32;
    let taken = walks::taken_nodes(pool, queue, list.keys(), list.records());
    let fell = said.free_before == said.free.saturating_add(m);
    counts.same((taken == m) & fell);
    counts.add(rows::LIST_TAKEN, u64::from(taken));
}

// Compares the answer of a list, and the nodes that an accepted one takes; it is made in the reference tree, and in hand in the model. `queue`: the
// free queue before the call.
pub fn compare(beside: &mut Beside, pool: &[u32], queue: &[u32], list: &List, said: Said) {
    let nodes = walks::nodes(pool);
    let foretold = foretold(nodes, &beside.model, list, said.free_before);
    beside.answered(said.answer, foretold);
    count_refused(&mut beside.counts, list, said.answer);
    if foretold == Answer::Accepted {
        compare_taken(&mut beside.counts, pool, queue, list, said);
        begin(beside, nodes, list);
    }
}
