// The counts of all runs, by row; a row past the end counts nothing.

// kept: rows are constants: they are places in one table, and from many of them on rows go by a kind, a form or a slot (ACCEPTED + write.place()).
pub const ROWS: usize = 224;

// Set up, and then the other calls by the numbers of their kinds; refusals by their numbers; finished deletes by their form, finished and
// accepted writes by their places (model: Write).
pub const CALLS: usize = 0;

pub const REFUSALS: usize = 192;

pub const FORMS: usize = 24;

pub const FINISHED: usize = 28;

pub const ACCEPTED: usize = 32;

// Of lists accepted: on an index that never held a key, and on one emptied; with a slot reading, with one before its first turn, with one at a
// node (in an empty index a retired one); of N − 4 keys, with the smallest key and with the largest.
pub const LISTS_FIRST: usize = 10;

pub const LISTS_LATER: usize = 11;

pub const LISTS_READ: usize = 12;

pub const LISTS_UNTURNED: usize = 13;

pub const LISTS_RETIRED: usize = 14;

pub const LISTS_LONGEST: usize = 15;

pub const LISTS_SMALLEST: usize = 16;

pub const LISTS_LARGEST: usize = 17;

// nodes of lists compared as taken, and after the store; calls compared with a list in hand, and first turns of readers there
pub const LIST_TAKEN: usize = 18;

pub const LIST_NODES: usize = 19;

pub const LIST_STATES: usize = 20;

pub const LIST_TURNS: usize = 21;

// lists refused by their numbers, 6, 10 and 11; and by 18, by what is wrong with them
pub const LISTS_REFUSED: usize = 173;

pub const LISTS_WRONG: usize = 176;

// answers
pub const MORE: usize = 36;

pub const DONE: usize = 37;

pub const WAIT: usize = 38;

pub const GO: usize = 39;

pub const FOUND: usize = 40;

pub const ABSENT: usize = 41;

// answers that no longer held at the lookup's last moment
pub const OLDER: usize = 42;

pub const BEGUN: usize = 43;

pub const GIVEN_UP: usize = 44;

// searches for the next ticket begun, their answers, answers that were no longer the next ticket at the last moment, and searches given up
pub const NEXT_BEGUN: usize = 45;

pub const NEXT: usize = 46;

pub const NONE: usize = 47;

pub const NEXT_OLDER: usize = 48;

pub const NEXT_GIVEN_UP: usize = 49;

// comparisons made
pub const ANSWERS: usize = 50;

pub const LOOKUPS: usize = 51;

pub const TREES: usize = 52;

pub const NODES: usize = 53;

pub const STATES: usize = 54;

pub const DIFFERENCES: usize = 55;

pub const NEXT_SEARCHES: usize = 56;

// of inserts of held keys: accepted in a full index, accepted with the record that the key has, refused by 11
pub const REPLACED_FULL: usize = 57;

pub const REPLACED_SAME: usize = 58;

pub const REPLACED_FEW: usize = 59;

// stores made, by their step
pub const STEPS: usize = 60;

pub const ROTATIONS: usize = 68;

pub const LINK_ALL: usize = 98;

// answers whose key has another record at the last moment, of lookups and of searches for the next ticket
pub const FOUND_OUTDATED: usize = 100;

pub const NEXT_OUTDATED: usize = 101;

// counts of nodes compared and cameras' tallies held against the program's own; of the counts, those of answers with no write in hand since
// the begin
pub const COUNTS: usize = 167;

pub const TALLIES: usize = 168;

pub const QUIET_COUNTS: usize = 169;

// wide records, above 32 bits: inserted, and answered by found or next; and records replaced by one that differs in the high word alone
pub const WIDE_INSERTED: usize = 170;

pub const WIDE_ANSWERED: usize = 171;

pub const HIGH_REPLACED: usize = 172;

// calls after which every slot was awaited; by slot: readings begun, and calls after which it was awaited
pub const ALL_AWAITED: usize = 102;

pub const SLOT_BEGUN: usize = 103;

pub const SLOT_AWAITED: usize = SLOT_BEGUN + numbers::SLOTS;

// The counts of a run.
#[derive(Drop)]
pub struct Counts {
    rows: [u64; ROWS],
}

impl Counts {
    // Answers the counts before any call.
    pub fn new() -> Counts {
        Counts { rows: [0; ROWS] }
    }

    // Answers the count of a row.
    pub fn get(&self, row: usize) -> u64 {
        self.rows.get(row).copied().unwrap_or(0)
    }

    // Answers how much the count of a row has grown from n.
    pub fn growth(&self, row: usize, n: u64) -> u64 {
        self.get(row).saturating_sub(n)
    }

    // Adds n to the count of a row.
    pub fn add(&mut self, row: usize, n: u64) {
        if let Some(count) = self.rows.get_mut(row) {
            *count = count.saturating_add(n);
        }
    }

    // Adds one to the count of a row.
    pub fn one(&mut self, row: usize) {
        self.add(row, 1);
    }

    // Counts in a row what is so.
    pub fn one_if(&mut self, row: usize, so: bool) {
        if so {
            self.one(row);
        }
    }

    // Notes a comparison: what differs is counted.
    pub fn same(&mut self, ok: bool) {
        self.one_if(DIFFERENCES, !ok);
    }

    // Counts the awaited slots after a call.
    pub fn awaited(&mut self, mask: u32) {
        for s in 0..numbers::SLOTS {
            self.one_if(SLOT_AWAITED + s, (mask >> s) % 2 == 1);
        }
        self.one_if(ALL_AWAITED, mask == u32::MAX);
    }
}
