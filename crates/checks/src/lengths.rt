// How many nodes each reading compares, by a count of the program's own: a reading's first turn loads the root, and each later one compares a
// node. Which nodes that were, each camera's tally, and the longest counts of a run.
ghost use Rattle.std.specs.Prelude.{◌<◌};
ghost use Rattle.spec.specs.Numbers.{slots};

use crate::draws::Reading;

// cameras, each with a tally; slot s is used by camera s modulo their number
pub const CAMERAS: usize = 8;

// a node is below this
const NODES: usize = numbers::MOST_NODES + 1;

// What a slot does: its reading with its number, the first moment of it, and its turns so far.
#[derive(Clone, Copy)]
struct Slot {
    kind: Reading,
    number: u32,
    begun: u32,
    turns: u32,
}

const UNUSED: Slot = Slot {
    kind: Reading::Lookup,
    number: 0,
    begun: 0,
    turns: 0,
};

// A camera's tally, which shares nothing with the index's own: readings answered, nodes that they compared, the longest count.
#[derive(Clone, Copy, PartialEq, Eq)]
struct Tally {
    answered: u32,
    compared: u32,
    longest: u32,
}

// kept: written here as in the program compare, since checks uses nothing of the index.
const NO_TALLY: Tally = Tally {
    answered: 0,
    compared: 0,
    longest: 0,
};

// the longest counts of a run's lookups and of its searches
#[derive(Clone, Copy)]
struct Longest {
    lookup: u32,
    search: u32,
}

const NONE_YET: Longest = Longest {
    lookup: 0,
    search: 0,
};

impl Longest {
    fn of(self, kind: Reading) -> u32 {
        match kind {
            Reading::Lookup => self.lookup,
            Reading::Search => self.search,
        }
    }

    fn raise(&mut self, kind: Reading, n: u32) {
        match kind {
            Reading::Lookup => self.lookup = self.lookup.max(n),
            Reading::Search => self.search = self.search.max(n),
        }
    }
}

#[derive(Drop)]
pub struct Lengths {
    slots: [Slot; numbers::SLOTS],
    // for each slot and each node, the number of the last reading that compared the node there
    marks: [[u32; NODES]; numbers::SLOTS],
    tallies: [Tally; CAMERAS],
    // moments and readings so far, and the last moment with a write in hand
    moments: u32,
    readings: u32,
    busy: u32,
    // of all readings, and of those with no write in hand at any of their moments
    longest: Longest,
    quiet: Longest,
}

// Answers the camera that uses a slot.
pub fn camera_of(s: u32) -> usize
    ensures { result < 8 }
{
    s as usize % CAMERAS
}

fn place(s: u32) -> usize
    ensures { result < slots }
{
    s as usize % numbers::SLOTS
}

// whether two to the power h is at most the square of n + 1
fn low(h: u32, n: u32) -> bool {
    let m = u64::from(n) + 1;
    (h < 40) && m.checked_mul(m).is_none_or(|square| 1u64 << h <= square)
}

impl Lengths {
    // Answers a run's lengths before its first call.
    pub fn new() -> Lengths {
        Lengths {
            slots: [UNUSED; numbers::SLOTS],
            marks: [[0; NODES]; numbers::SLOTS],
            tallies: [NO_TALLY; CAMERAS],
            moments: 0,
            readings: 0,
            busy: 0,
            longest: NONE_YET,
            quiet: NONE_YET,
        }
    }

    // Makes them those before a run's first call.
    pub fn clear(&mut self) {
        *self = Lengths::new();
    }

    // Notes that a slot begins a reading.
    pub fn begin(&mut self, s: u32, kind: Reading) {
        self.readings = self.readings.saturating_add(1);
        self.slots[place(s)] = Slot {
            kind,
            number: self.readings,
            begun: self.moments.saturating_add(1),
            turns: 0,
        };
    }

    // a slot compares a node; answers whether it is its reading's first comparison of it
    fn compare_node(&mut self, s: u32, node: u32) -> bool {
        let reading = self.slots[place(s)].number;
        let n = node as usize % NODES;
        let last = self.marks[place(s)][n];
        self.marks[place(s)][n] = reading;
        (last != reading) & (0 < node) & (node < NODES as u32)
    }

    // Notes a turn of a slot whose record named this node; answers whether it is right: none in the reading's first turn, later one that the
    // reading hasn't compared.
    pub fn turn(&mut self, s: u32, node: u32) -> bool {
        let turns = self.slots[place(s)].turns;
        self.slots[place(s)].turns = turns.saturating_add(1);
        if turns == 0 {
            node == 0
        } else {
            self.compare_node(s, node)
        }
    }

    // Answers how many nodes a slot's reading has compared.
    pub fn count(&self, s: u32) -> u32 {
        self.slots[place(s)].turns.saturating_sub(1)
    }

    fn count_answer(&mut self, camera: usize, n: u32) {
        let tally = &mut self.tallies[camera % CAMERAS];
        tally.answered = tally.answered.saturating_add(1);
        tally.compared = tally.compared.saturating_add(n);
        tally.longest = tally.longest.max(n);
    }

    // Notes that a slot's reading has been answered; answers whether no write was in hand at any of its moments.
    pub fn answer(&mut self, s: u32) -> bool {
        let n = self.count(s);
        let Slot { kind, begun, .. } = self.slots[place(s)];
        let quiet = self.busy < begun;
        self.count_answer(camera_of(s), n);
        self.longest.raise(kind, n);
        if quiet {
            self.quiet.raise(kind, n);
        }
        quiet
    }

    // Answers whether a slot's count is within the bound for so many keys held.
    pub fn bounded(&self, s: u32, held: u32) -> bool {
        low(self.count(s), held)
    }

    // Answers whether a camera's tally is this.
    pub fn tally_is(&self, camera: usize, answered: u32, compared: u32, longest: u32) -> bool {
        let tally = Tally {
            answered,
            compared,
            longest,
        };
        self.tallies[camera % CAMERAS] == tally
    }

    // Notes the moment after a call.
    pub fn moment(&mut self, in_hand: bool) {
        self.moments = self.moments.saturating_add(1);
        if in_hand {
            self.busy = self.moments;
        }
    }

    // Answers the longest count of a run's lookups or of its searches.
    pub fn longest(&self, kind: Reading) -> u32 {
        self.longest.of(kind)
    }

    // Answers the longest count of those with no write in hand at any of their moments.
    pub fn longest_quiet(&self, kind: Reading) -> u32 {
        self.quiet.of(kind)
    }
}
