// The types of the ticket index: links, the write in hand, the register, the answers of the calls, and a camera's tally.
#![tactic(auto)]

ghost use Rattle.std.specs.Prelude.{◌≡◌, Some};
ghost use Rattle.std.specs.Fmt.{decimal, styled_decimal};
ghost use Rattle.datatypes.specs.Refusals.{number_of};

use std::fmt;

// A side of a node. Left and right cases are one definition with the side as a parameter.
#[derive(Clone, Copy, PartialEq, Eq)]
pub enum Side {
    L,
    R,
}

// A link: the root, a node's left or a node's right.
#[derive(Clone, Copy, PartialEq, Eq)]
pub enum Link {
    Root,
    Left(u32),
    Right(u32),
}

// A rotation is a diag (the rising child is an outer child) or a zig (an inner one).
#[derive(Clone, Copy)]
pub enum Form {
    Diag,
    Zig,
}

// What a rotation is for, and so its colours.
// ForInsert: an insert's only rotation; copies red, the risen node black.
// RedSibling: a delete's first, under a red sibling; colours as in ForInsert, and the work goes on under the copy.
// BlackSibling: a delete's last; copies and the outer child black, the risen node takes the top's colour.
#[derive(Clone, Copy)]
pub enum Purpose {
    ForInsert,
    RedSibling,
    BlackSibling,
}

// A rotation at the node that `link` holds; its child on `side` rises, or in a zig that child's inner child.
#[derive(Clone, Copy)]
pub struct Rotation {
    pub link: Link,
    pub form: Form,
    pub side: Side,
    pub purpose: Purpose,
}

// What one planned store does, with what its filling needs. The nodes are those of document 01's steps.
// Vacant: no store is planned here.
// Insert(key, record): links a new red node.
// Replace(record): B's link from above := B', a copy of B with this record.
// DiagLower, DiagRaise: B's inner link := C'; the link from above := B.
// ZigLowerA, ZigLowerC, ZigRaise: B's link := A'; B's other link := C'; the link from above := B.
// Unlink: B's link from above := its only child, or 0.
// Adopt, Promote: C's left := B's left; B's link from above := C.
// Publish(C), Detach(key): B's link from above := C'; F's left := C's right. The key is B's, by which the place is found again.
// LinkAll(count, top): the root := the top of a tree made apart, of so many nodes (document 02, C-24).
#[derive(Clone, Copy)]
pub enum Step {
    Vacant,
    Insert(u32, u64),
    Replace(u64),
    DiagLower(Side, Purpose),
    DiagRaise(Side, Purpose),
    ZigLowerA(Side, Purpose),
    ZigLowerC(Side, Purpose),
    ZigRaise(Side, Purpose),
    Unlink,
    Adopt,
    Promote,
    Publish(u32),
    Detach(u32),
    LinkAll(u32, u32),
}

// A planned store: `link` is the link from above of the place that the step works on.
#[derive(Clone, Copy)]
pub struct Store {
    pub link: Link,
    pub step: Step,
}

// The write in hand: how many stores are still to come, and the stores; those to come stand first, the others are vacant.
#[derive(Clone, Copy)]
pub struct Write {
    pub count: u32,
    pub stores: [Store; numbers::MOST_STORES],
}

// What a reader slot searches for (document 02, C-11).
// Lookup: the record of the given key.
// Next: the ticket with the smallest key greater than the given one.
#[derive(Clone, Copy)]
pub enum Kind {
    Lookup,
    Next,
}

// A reader slot's record: of a search for the next ticket the record and the key of the best so far (`value`, `best`), the given key, the node it is
// at (0 before its first turn); how many nodes its turns have compared (document 02, C-17); reading or not, the kind of search, and whether a
// search for the next ticket remembers one. The numbers stand first, the widest before the others (docs/DECISIONS.md, 118, 125).
#[derive(Clone, Copy)]
pub struct Reader {
    pub value: u64,
    pub key: u32,
    pub node: u32,
    pub best: u32,
    pub compared: u32,
    pub reading: bool,
    pub kind: Kind,
    pub remembers: bool,
}

// The register: root, free queue, counts, awaited slots (one bit for each slot), readers, the write in hand. The order of the fields:
// docs/DECISIONS.md, 125.
#[derive(Clone, Copy)]
pub struct Register {
    pub root: u32,
    pub first: u32,
    pub last: u32,
    pub free: u32,
    pub held: u32,
    pub awaited: u32,
    pub readers: [Reader; numbers::SLOTS],
    pub write: Write,
}

// Where a search for a key ended: at the node that holds it (with the node's link from above), at an empty link,
// or past the nodes allowed.
#[derive(Clone, Copy)]
pub enum Place {
    Held(Link, u32),
    Empty(Link),
    TooDeep,
}

// How a fix-up of colours ends: with nothing more, with the node that it ended at turned black, with one rotation or two,
// or at a step that names a node where there is none.
// kept: `Missing` in place of an Option, since the definitions (spec, Plan: missing) and the theorems name it.
#[derive(Clone, Copy)]
pub enum Ending {
    Balanced,
    Blacken,
    Rotate(Rotation),
    RotateTwice(Rotation, Rotation),
    Missing,
}

// A fix-up: how many levels it passed by colours alone, and how it ended.
#[derive(Clone, Copy)]
pub struct Fixup {
    pub levels: u32,
    pub ending: Ending,
}

// The register's head: its numbers. A step of the writer and the end of a reading change nothing else of the register, but for the
// write in hand and one reader record; so they take and give the head, and a call puts the register together once.
#[derive(Clone, Copy)]
pub struct Head {
    pub root: u32,
    pub first: u32,
    pub last: u32,
    pub free: u32,
    pub held: u32,
    pub awaited: u32,
}

// What the step of a turn stored: the link with its new node, and the head that it leaves.
#[derive(Clone, Copy)]
pub struct Stored {
    pub link: Link,
    pub node: u32,
    pub head: Head,
}

// Why a call is turned down (document 01, 'When a call is turned down'; ListWrong and IndexNotEmpty: document 02, C-24), with the number that it
// answers. 8 is given no more (C-13). NodeMissing: a path of over 64 nodes, a step that names a node where there is none, or a node taken from an
// empty queue.
#[derive(Clone, Copy, PartialEq, Eq)]
pub enum Refusal {
    WrongLength = 1,
    OutOfRange = 2,
    SlotTooHigh = 3,
    SlotReading = 4,
    SlotNotReading = 5,
    WriteInHand = 6,
    NoWriteInHand = 7,
    KeyNotHeld = 9,
    IndexFull = 10,
    TooFewFree = 11,
    NodeMissing = 12,
    ListWrong = 18,
    IndexNotEmpty = 19,
}

impl From<Refusal> for u32 {
    ghost from_gives = { λ r n. n ≡ number_of r };

    fn from(refusal: Refusal) -> u32 {
        refusal as u32
    }
}

// A refusal is written as its number.
impl fmt::Display for Refusal {
    ghost output = { λ r. Some (decimal (number_of r)) };

    ghost styled_output = { λ r s. Some (styled_decimal s (number_of r)) };

    fn fmt<W: fmt::Write>(&self, f: &mut fmt::Formatter<W>) -> fmt::Result {
        let number = u32::from(*self);
        fmt::Display::fmt(&number, f)
    }
}

// The answer of set up, insert, delete, begin and give up: accepted or refused.
pub type Acceptance = Result<(), Refusal>;

// The answer of a writer's turn; more and done have the link stored and its new node.
#[derive(Clone, Copy)]
pub enum WriterAnswer {
    More(Link, u32),
    Done(Link, u32),
    Wait,
    Refused(Refusal),
}

// The answer of a reader's turn; found has the record, next the key and record of the next ticket. Absent: the key of a lookup is not held,
// or a search for the next ticket met none.
#[derive(Clone, Copy)]
pub enum ReaderAnswer {
    Go,
    Found(u64),
    Next(u32, u64),
    Absent,
    Refused(Refusal),
}

// What a call gives back: its answer, and the register to use from then on.
#[derive(Drop)]
pub struct Reply<A> {
    pub answer: A,
    pub register: Register,
}

// What a reader's turn gives back; `compared` is how many nodes the slot's reading has compared, this turn's included, and 0 of a refused turn.
#[derive(Drop)]
pub struct ReaderReply {
    pub answer: ReaderAnswer,
    pub register: Register,
    pub compared: u32,
}

// A camera's tally (document 02, C-17): its lookups and searches answered, the nodes that they compared, and the longest count of one of them.
#[derive(Clone, Copy)]
pub struct Tally {
    pub answered: u32,
    pub compared: u32,
    pub longest: u32,
}
