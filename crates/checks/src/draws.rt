// The random draws and the calls made of them.

// The kind of a call. Its number is its row's place among the counts.
#[derive(Clone, Copy, PartialEq, Eq)]
pub enum Kind {
    Insert = 1,
    Delete = 2,
    WriterTurn = 3,
    Begin = 4,
    ReaderTurn = 5,
    GiveUp = 6,
    BeginNext = 7,
    List = 8,
}

// What a reading is: a lookup, or a search for the next ticket.
#[derive(Clone, Copy, PartialEq, Eq)]
pub enum Reading {
    Lookup,
    Search,
}

// the most tickets of a run; their keys are so far apart, but that the last has the largest key
pub const TICKETS: u32 = 2048;

const KEY_STEP: u32 = 2_097_152;

impl Kind {
    // Answers what a begin begins.
    pub fn begins(self) -> Option<Reading> {
        match self {
            Kind::Begin => Some(Reading::Lookup),
            Kind::BeginNext => Some(Reading::Search),
            _ => None,
        }
    }
}

// A call drawn: its kind, and arguments for any kind.
#[derive(Clone, Copy)]
pub struct Call {
    pub kind: Kind,
    pub slot: u32,
    pub ticket: u32,
    pub key: u32,
    pub record: u64,
}

// What most calls of a stretch are: more inserts than deletes or fewer, many readers or few; or, with few readers, deletes of held keys while there
// are any, and then lists.
#[derive(Clone, Copy)]
pub struct Mood {
    pub growing: bool,
    pub busy: bool,
    pub emptying: bool,
}

// Answers the draw after this one.
pub fn next(x: u32) -> u32 {
    x.wrapping_mul(1_664_525).wrapping_add(1_013_904_223)
}

// Answers a number below n, of a draw's high bits; 0 for no n.
pub fn high(x: u32, n: u32) -> u32 {
    (x / 65_536).checked_rem(n).unwrap_or(0)
}

// Answers the draw after those of a call.
pub fn after_call(x: u32) -> u32 {
    next(next(next(x)))
}

// a run's first calls, in which the index is as good as emptied
const OPENING: u64 = 16;

// The moods take turns, each long enough to fill the index or to empty it.
fn mood_at(i: u64, nodes: u32) -> Mood {
    let stretch = i / (nodes as u64 * 64 + 40) % 5;
    Mood {
        growing: stretch < 2,
        busy: (stretch == 1) | (stretch == 2),
        emptying: (stretch == 4) | (i < OPENING),
    }
}

// Answers whether the deletes around a run's call number i are to empty the index.
pub fn emptying(i: u64, nodes: u32) -> bool {
    mood_at(i, nodes).emptying
}

// Answers how many different keys a run on so many nodes draws from.
pub fn tickets(nodes: u32) -> u32 {
    if nodes <= numbers::MOST_NODES as u32 {
        nodes + nodes / 2
    } else {
        TICKETS
    }
}

// The key of a ticket: spread over all 32-bit numbers, 0 the first and 4,294,967,295 the last. A greater ticket has a greater key.
fn key_of(t: u32, tickets: u32) -> u32 {
    if t.checked_add(1) == Some(tickets) {
        u32::MAX
    } else {
        t % TICKETS * KEY_STEP
    }
}

// Answers the key of a ticket in a run on so many nodes.
pub fn ticket_key(t: u32, nodes: u32) -> u32 {
    key_of(t, tickets(nodes))
}

// the ticket that may have this key
fn ticket_near(key: u32, tickets: u32) -> u32 {
    if key == u32::MAX {
        tickets.saturating_sub(1)
    } else {
        key / KEY_STEP
    }
}

// Answers the ticket with this key in a run on so many nodes.
pub fn ticket_of(key: u32, nodes: u32) -> Option<u32> {
    let n = tickets(nodes);
    let t = ticket_near(key, n);
    ((t < n) & (key_of(t, n) == key)).then_some(t)
}

// one slot drawn in so many is the first that is too high, one is a very high one
const SLOT_DRAWS: u32 = 32;

// a slot, now and then one too high
fn slot_of(q: u32) -> u32 {
    let slot = q % numbers::SLOT_LIMIT;
    match q / numbers::SLOT_LIMIT % SLOT_DRAWS {
        0 => numbers::SLOT_LIMIT,
        1 => u32::MAX - slot,
        _ => slot,
    }
}

// the first slot from s on, round the slots, that reads, or that doesn't; s itself if there is none
fn slot_from(s: u32, reading: u32, reads: bool) -> u32 {
    (0..numbers::SLOT_LIMIT)
        .map(|n| (s % numbers::SLOT_LIMIT + n) % numbers::SLOT_LIMIT)
        .find(|t| (reading >> *t) % 2 == u32::from(reads))
        .unwrap_or(s)
}

// one call in so many takes its slot as drawn
const BLIND_DRAWS: u32 = 8;

// The others' turns and give ups are of a slot that reads, and their begins of one that doesn't: few drawn slots would be so by chance.
fn aimed_slot(s: u32, kind: Kind, reading: u32, q: u32) -> u32 {
    if (q % BLIND_DRAWS != 0) & (s < numbers::SLOT_LIMIT) {
        slot_from(s, reading, matches!(kind, Kind::ReaderTurn | Kind::GiveUp))
    } else {
        s
    }
}

fn write_kind(growing: bool, often: bool) -> Kind {
    if growing == often {
        Kind::Insert
    } else {
        Kind::Delete
    }
}

fn begin_kind(even: bool) -> Kind {
    if even { Kind::Begin } else { Kind::BeginNext }
}

fn reader_kind(c: u32, begins: u32) -> Kind {
    if c < begins {
        begin_kind(c % 2 == 0)
    } else if c < 63 {
        Kind::ReaderTurn
    } else {
        Kind::GiveUp
    }
}

fn bound(busy: bool, then: u32, otherwise: u32) -> u32 {
    if busy { then } else { otherwise }
}

// a write, from a number below 64; `last` is the last of those that make one
fn filling_kind(c: u32, growing: bool, last: u32) -> Kind {
    if c == last {
        Kind::List
    } else {
        write_kind(growing, c % 4 != 0)
    }
}

// the kind of a call from a number below 64, with many readers or few
fn steady_kind(c: u32, m: Mood) -> Kind {
    if c < bound(m.busy, 16, 24) {
        Kind::WriterTurn
    } else if c < bound(m.busy, 32, 50) {
        filling_kind(c, m.growing, bound(m.busy, 31, 49))
    } else {
        reader_kind(c, bound(m.busy, 38, 52))
    }
}

// a write where the index is emptied: a list once it is empty
fn removing_kind(c: u32, empty: bool) -> Kind {
    if c % 8 == 0 {
        Kind::Insert
    } else if empty {
        Kind::List
    } else {
        Kind::Delete
    }
}

// the kind of a call from a number below 64, where the index is emptied
fn emptying_kind(c: u32, empty: bool) -> Kind {
    match c {
        0..26 => Kind::WriterTurn,
        26..46 => removing_kind(c, empty),
        46..60 => reader_kind(c, 48),
        _ => Kind::GiveUp,
    }
}

fn kind_of(c: u32, m: Mood, empty: bool) -> Kind {
    if m.emptying {
        emptying_kind(c, empty)
    } else {
        steady_kind(c, m)
    }
}

// the record of two words
fn joined(low: u32, high: u32) -> u64 {
    u64::from(high) << 32 | u64::from(low)
}

// Answers the record of an insert, from two draws. One in eight is the ticket's number, so that a held key now and then gets the record that it has;
// one in eight has that as its low word alone, so that two of a key differ in the high word alone; one in eight has a high word of 0, and one
// a low word of 0.
pub fn record_of(p: u32, q: u32, ticket: u32) -> u64 {
    match q / 16_777_216 % 8 {
        0 => joined(ticket, 0),
        1 => joined(ticket, p),
        2 => joined(p, 0),
        3 => joined(0, p),
        _ => joined(q, p),
    }
}

// Draws a run's call number i, on so many nodes, with these slots reading; `empty`: no key is held.
pub fn draw_call(x: u32, i: u64, nodes: u32, reading: u32, empty: bool) -> Call {
    let first = next(x);
    let second = next(first);
    let ticket = high(next(second), tickets(nodes));
    let kind = kind_of(high(first, 64), mood_at(i, nodes), empty);
    let slot = slot_of(high(second, numbers::SLOT_LIMIT * SLOT_DRAWS));
    Call {
        kind,
        slot: aimed_slot(slot, kind, reading, first / 4_194_304),
        ticket,
        key: ticket_key(ticket, nodes),
        record: record_of(first, second, ticket),
    }
}

// Answers the call with another ticket.
pub fn with_ticket(call: Call, ticket: u32, nodes: u32) -> Call {
    Call {
        ticket,
        key: ticket_key(ticket, nodes),
        ..call
    }
}
