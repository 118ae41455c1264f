// The counts that the program compare keeps, a line each.
#![tactic(auto)]

use checks::draws::{Kind, Reading};
use checks::lengths::Lengths;
use checks::rows;
use checks::rows::Counts;
use reference::DeleteForm;
use std::io;

// A run: its nodes, how many calls, the most keys held, and how many lists were accepted after an emptying.
#[derive(Clone, Copy)]
pub struct RunLine {
    pub nodes: u32,
    pub calls: u64,
    pub most: u32,
    pub lists: u64,
}

// the most nodes that a lookup and a search compared, and with no write in hand since their begin
fn longest(rt: &impl Print, lengths: &Lengths) -> io::Result<()> {
    let lookup = lengths.longest(Reading::Lookup);
    let search = lengths.longest(Reading::Search);
    print!(rt; "\tlongest lookup\t{lookup}\tlongest search\t{search}")?;
    let lookup = lengths.longest_quiet(Reading::Lookup);
    let search = lengths.longest_quiet(Reading::Search);
    println!(rt; "\twith no write in hand: lookup\t{lookup}\tsearch\t{search}")
}

// Prints the line of a run.
pub fn run(rt: &impl Print, run: RunLine, lengths: &Lengths) -> io::Result<()> {
    print!(rt; "nodes\t{}\tcalls\t{}", run.nodes, run.calls)?;
    print!(rt; "\tmost keys held\t{}", run.most)?;
    print!(rt; "\tlists after an emptying\t{}", run.lists)?;
    longest(rt, lengths)
}

// A line and its row.
// kept: `+ 1`, `+ 2` after a first row, where a function says the place (Write::place, comparisons' step_row): a constant can't call one.
type Line = (&'static str, usize);

const CALLS: [Line; 9] = [
    ("set up", rows::CALLS),
    ("insert", rows::CALLS + Kind::Insert as usize),
    ("delete", rows::CALLS + Kind::Delete as usize),
    ("writer's turn", rows::CALLS + Kind::WriterTurn as usize),
    ("begin", rows::CALLS + Kind::Begin as usize),
    (
        "begin a search for the next ticket",
        rows::CALLS + Kind::BeginNext as usize,
    ),
    ("reader's turn", rows::CALLS + Kind::ReaderTurn as usize),
    ("give up", rows::CALLS + Kind::GiveUp as usize),
    ("list", rows::CALLS + Kind::List as usize),
];

// document 02's numbers, not the index's: a call that answers another shows
const LIST_REFUSALS: [Line; 5] = [
    ("refused by 18", rows::REFUSALS + 18),
    ("refused by 19", rows::REFUSALS + 19),
    ("lists refused by 6", rows::LISTS_REFUSED),
    ("lists refused by 10", rows::LISTS_REFUSED + 1),
    ("lists refused by 11", rows::LISTS_REFUSED + 2),
];

const LISTS: [Line; 10] = [
    ("lists accepted", rows::ACCEPTED),
    ("lists finished", rows::FINISHED),
    ("lists accepted at a run's start", rows::LISTS_FIRST),
    ("lists accepted after an emptying", rows::LISTS_LATER),
    ("lists accepted with a slot reading", rows::LISTS_READ),
    (
        "lists accepted with a slot before its first turn",
        rows::LISTS_UNTURNED,
    ),
    (
        "lists accepted with a slot at a retired node",
        rows::LISTS_RETIRED,
    ),
    ("lists of N - 4 keys accepted", rows::LISTS_LONGEST),
    ("lists accepted with the key 0", rows::LISTS_SMALLEST),
    (
        "lists accepted with the key 4294967295",
        rows::LISTS_LARGEST,
    ),
];

const WRITES: [Line; 15] = [
    ("inserts of a new key accepted", rows::ACCEPTED + 1),
    ("inserts of a new key finished", rows::FINISHED + 1),
    ("inserts of a held key accepted", rows::ACCEPTED + 3),
    ("inserts of a held key finished", rows::FINISHED + 3),
    (
        "inserts of a held key accepted in a full index",
        rows::REPLACED_FULL,
    ),
    (
        "inserts of a held key accepted with the record that it has",
        rows::REPLACED_SAME,
    ),
    ("inserts of a held key refused by 11", rows::REPLACED_FEW),
    ("deletes accepted", rows::ACCEPTED + 2),
    ("deletes finished", rows::FINISHED + 2),
    (
        "deletes of a node with at most one child",
        rows::FORMS + 1 + DeleteForm::OneChild as usize,
    ),
    (
        "deletes of a node whose right child has no left child",
        rows::FORMS + 1 + DeleteForm::NextIsChild as usize,
    ),
    (
        "deletes of the other form",
        rows::FORMS + 1 + DeleteForm::Other as usize,
    ),
    ("more", rows::MORE),
    ("done", rows::DONE),
    ("wait", rows::WAIT),
];

const READINGS: [Line; 13] = [
    ("lookups begun", rows::BEGUN),
    ("go", rows::GO),
    ("found", rows::FOUND),
    ("absent", rows::ABSENT),
    (
        "answers that held at an earlier moment than the last",
        rows::OLDER,
    ),
    (
        "found with a record that its key no longer has",
        rows::FOUND_OUTDATED,
    ),
    ("given up", rows::GIVEN_UP),
    ("searches for the next ticket begun", rows::NEXT_BEGUN),
    ("next", rows::NEXT),
    ("none", rows::NONE),
    (
        "answers that are no longer the next ticket at the last moment",
        rows::NEXT_OLDER,
    ),
    (
        "next with a record that its key no longer has",
        rows::NEXT_OUTDATED,
    ),
    ("searches given up", rows::NEXT_GIVEN_UP),
];

const WIDE_RECORDS: [Line; 3] = [
    ("inserts accepted with a wide record", rows::WIDE_INSERTED),
    (
        "inserts of a held key accepted with a record that differs in the high word alone",
        rows::HIGH_REPLACED,
    ),
    ("found and next with a wide record", rows::WIDE_ANSWERED),
];

const STEPS: [Line; 9] = [
    ("calls with every slot awaited", rows::ALL_AWAITED),
    ("store insert", rows::STEPS),
    ("store replace", rows::STEPS + 1),
    ("store unlink", rows::STEPS + 2),
    ("store adopt", rows::STEPS + 3),
    ("store promote", rows::STEPS + 4),
    ("store publish", rows::STEPS + 5),
    ("store detach", rows::STEPS + 6),
    ("store link all", rows::LINK_ALL),
];

// the steps of a rotation, by their first rows; each has six, by purpose (insert, red sibling, black sibling) and side
const ROTATIONS: [Line; 5] = [
    ("store diag lower", rows::ROTATIONS),
    ("store diag raise", rows::ROTATIONS + 6),
    ("store zig lower A", rows::ROTATIONS + 12),
    ("store zig lower C", rows::ROTATIONS + 18),
    ("store zig raise", rows::ROTATIONS + 24),
];

const COMPARISONS: [Line; 14] = [
    ("nodes of lists compared as taken", rows::LIST_TAKEN),
    ("nodes of lists compared after the store", rows::LIST_NODES),
    ("standings compared with a list in hand", rows::LIST_STATES),
    ("first turns compared with a list in hand", rows::LIST_TURNS),
    ("answers compared", rows::ANSWERS),
    ("lookups compared with their moments", rows::LOOKUPS),
    ("searches compared with their moments", rows::NEXT_SEARCHES),
    ("trees and standings compared", rows::TREES),
    ("nodes compared", rows::NODES),
    (
        "keys held, free count and awaited slots compared",
        rows::STATES,
    ),
    ("counts of nodes compared, and no node twice", rows::COUNTS),
    (
        "counts bounded with no write in hand since the begin",
        rows::QUIET_COUNTS,
    ),
    ("tallies of cameras compared", rows::TALLIES),
    ("differences", rows::DIFFERENCES),
];

fn lines(rt: &impl Print, counts: &Counts, table: &[Line]) -> io::Result<()> {
    for (label, row) in table {
        println!(rt; "{label}\t{}", counts.get(*row))?;
    }
    Ok(())
}

fn refusals(rt: &impl Print, counts: &Counts) -> io::Result<()> {
    for n in 1..13usize {
        println!(rt; "refused by {n}\t{}", counts.get(rows::REFUSALS + n))?;
    }
    Ok(())
}

// Prints so many counts in a line, from a row on.
fn row(rt: &impl Print, label: &str, counts: &Counts, first: usize, many: usize) -> io::Result<()> {
    print!(rt; "{label}")?;
    for n in (first..rows::ROWS).take(many) {
        print!(rt; "\t{}", counts.get(n))?;
    }
    println!(rt; "")
}

fn slots(rt: &impl Print, counts: &Counts) -> io::Result<()> {
    row(
        rt,
        "begun in slots 0 to 31",
        counts,
        rows::SLOT_BEGUN,
        numbers::SLOTS,
    )?;
    row(
        rt,
        "calls with slots 0 to 31 awaited",
        counts,
        rows::SLOT_AWAITED,
        numbers::SLOTS,
    )
}

fn rotations(rt: &impl Print, counts: &Counts) -> io::Result<()> {
    println!(rt;
        "stores of rotations\tinsert L\tinsert R\tred sibling L\tred sibling R\tblack sibling L\tblack sibling R"
    )?;
    for (label, first) in &ROTATIONS {
        row(rt, label, counts, *first, 6)?;
    }
    Ok(())
}

fn wrong_lists(rt: &impl Print, counts: &Counts) -> io::Result<()> {
    print!(rt;
        "wrong lists\tempty\tequal keys first\tequal in the middle\tequal last\tfalling keys first\tfalling in the middle\tfalling last"
    )?;
    println!(rt; "\ta record fewer\ta record more")?;
    row(rt, "refused by 18", counts, rows::LISTS_WRONG + 1, 9)
}

// Prints every count.
pub fn all(rt: &impl Print, counts: &Counts) -> io::Result<()> {
    lines(rt, counts, &CALLS)?;
    refusals(rt, counts)?;
    lines(rt, counts, &LIST_REFUSALS)?;
    wrong_lists(rt, counts)?;
    lines(rt, counts, &LISTS)?;
    lines(rt, counts, &WRITES)?;
    lines(rt, counts, &READINGS)?;
    lines(rt, counts, &WIDE_RECORDS)?;
    slots(rt, counts)?;
    lines(rt, counts, &STEPS)?;
    rotations(rt, counts)?;
    lines(rt, counts, &COMPARISONS)
}
