// A list drawn from the tickets of a run, now and then a wrong one.
ghost use Rattle.std.specs.Prelude.{◌≤◌, length};
ghost use Rattle.lists.specs.declared.drawn.TheConstants.{ROOM};

use checks::draws;

// room for the records of all tickets, and for one more
const ROOM: usize = draws::TICKETS as usize + 1;

// What is wrong with a list: it is empty; two keys are equal, or fall, at its beginning, in its middle or at its end; it has a record fewer than
// keys, or one more. Its number is its place among the rows of wrong lists.
#[derive(Clone, Copy, PartialEq, Eq)]
pub enum Fault {
    Empty = 1,
    EqualFirst = 2,
    EqualInMiddle = 3,
    EqualLast = 4,
    FallingFirst = 5,
    FallingInMiddle = 6,
    FallingLast = 7,
    FewerRecords = 8,
    MoreRecords = 9,
}

const FAULTS: [Fault; 9] = [
    Fault::Empty,
    Fault::EqualFirst,
    Fault::EqualInMiddle,
    Fault::EqualLast,
    Fault::FallingFirst,
    Fault::FallingInMiddle,
    Fault::FallingLast,
    Fault::FewerRecords,
    Fault::MoreRecords,
];

// one list in so many has a given fault
const FAULT_DRAWS: u32 = 64;

impl Fault {
    // whether it is one of two keys
    fn of_pair(self) -> bool {
        !matches!(
            self,
            Fault::Empty | Fault::FewerRecords | Fault::MoreRecords
        )
    }

    // the first of the two keys of a fault in a list of m keys
    fn place(self, m: usize) -> usize {
        match self {
            Fault::EqualInMiddle | Fault::FallingInMiddle => m.saturating_sub(2) / 2,
            Fault::EqualLast | Fault::FallingLast => m.saturating_sub(2),
            _ => 0,
        }
    }

    // how many records go with m keys
    fn records(self, m: usize) -> usize {
        match self {
            Fault::FewerRecords => m.saturating_sub(1),
            Fault::MoreRecords => m.saturating_add(1),
            _ => m,
        }
    }
}

// A list and its fault. kept: two arrays with their lengths beside them: a wrong list may end before what was drawn, or with a record past it.
#[derive(Clone, Copy)]
pub struct List {
    keys: [u32; ROOM],
    records: [u64; ROOM],
    keys_many: usize,
    records_many: usize,
    pub fault: Option<Fault>,
}

// a number from 1 to n
fn up_to(n: u32, p: u32) -> u32 {
    draws::high(p, n).saturating_add(1)
}

// N − 4, the most keys of a list
fn most_keys(nodes: u32) -> u32 {
    nodes.saturating_sub(4).max(1)
}

// a key too many, or as many as may be
fn too_long(nodes: u32, p: u32) -> u32 {
    let over = if p % 131_072 < 65_536 {
        1
    } else {
        up_to(nodes, p)
    };
    most_keys(nodes).saturating_add(over)
}

// a key fewer than a full tree has, as many, or a key more
fn about_full(p: u32) -> u32 {
    let level = draws::high(p, 9).min(8);
    (2u32 << level).saturating_add(draws::high(draws::next(p), 3))
}

// a length that an index of so many nodes can take
fn fitting(m: u32, nodes: u32) -> u32 {
    if m <= most_keys(nodes) { m } else { 1 }
}

// how many keys a list gets, from two draws
fn length_of(p: u32, q: u32, nodes: u32) -> u32 {
    match draws::high(p, 8) {
        0 => most_keys(nodes),
        1 => too_long(nodes, q),
        2 => up_to(8, q),
        3 => fitting(about_full(q), nodes),
        _ => up_to(most_keys(nodes), q),
    }
}

// whether the first of so many tickets is among the m - taken that are still to be taken of them
fn chosen(x: u32, tickets: u32, m: u32, taken: u32) -> bool {
    draws::high(x, tickets) < m.saturating_sub(taken)
}

// A fault drawn for a list of m keys; one of two keys needs two.
fn fault_of(p: u32, m: usize) -> Option<Fault> {
    let n = draws::high(p, FAULT_DRAWS) as usize;
    let fault = FAULTS.get(n.checked_sub(1)?).copied()?;
    Some(if (m < 2) & fault.of_pair() {
        Fault::MoreRecords
    } else {
        fault
    })
}

impl List {
    // Answers an empty list.
    pub fn new() -> List {
        List {
            keys: [0; ROOM],
            records: [0; ROOM],
            keys_many: 0,
            records_many: 0,
            fault: Some(Fault::Empty),
        }
    }

    // Answers its keys.
    pub fn keys(&self) -> &[u32]
        ensures { length result.now ≤ ROOM }
    {
        &self.keys[..self.keys_many.min(ROOM)]
    }

    // Answers its records.
    pub fn records(&self) -> &[u64] {
        &self.records[..self.records_many.min(ROOM)]
    }

    // Takes m tickets in rising order, each choice of them as likely as any other; all if there are fewer. Answers how many.
    fn take(&mut self, m: u32, nodes: u32, seed: u32) -> usize {
        let tickets = draws::tickets(nodes);
        let mut x = seed;
        let mut taken = 0;
        for t in 0..tickets {
            let p = draws::next(x);
            let q = draws::next(p);
            x = draws::next(q);
            if (taken < ROOM) && chosen(x, tickets - t, m, taken as u32) {
                self.keys[taken] = draws::ticket_key(t, nodes);
                self.records[taken] = draws::record_of(p, q, t);
                taken += 1;
            }
        }
        taken
    }

    // two keys side by side become equal, or change places
    fn spoil(&mut self, m: usize, fault: Fault) {
        let i = fault.place(m);
        if i < ROOM - 1 {
            match fault {
                Fault::EqualFirst | Fault::EqualInMiddle | Fault::EqualLast => {
                    self.keys[i + 1] = self.keys[i]
                }
                _ => self.keys.swap(i, i + 1),
            }
        }
    }

    // Draws a list in a run on so many nodes.
    pub fn draw(&mut self, nodes: u32, seed: u32) {
        let p = draws::next(seed);
        let q = draws::next(p);
        let r = draws::next(q);
        let taken = self.take(length_of(p, q, nodes), nodes, r);
        let fault = fault_of(r, taken);
        let m = if fault == Some(Fault::Empty) {
            0
        } else {
            taken
        };
        self.keys_many = m;
        self.records_many = fault.map_or(m, |f| f.records(m));
        self.fault = fault;
        if let Some(f) = fault
            && f.of_pair()
        {
            self.spoil(m, f);
        }
    }
}
