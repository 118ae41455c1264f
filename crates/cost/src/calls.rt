// What the arguments ask for: the call, the sizes of the index, and what is done of a call on the way to it and when it is counted.

ghost use Rattle.std.specs.Prelude.{◌≤◌};
ghost use Rattle.spec.specs.Numbers.{least_nodes, most_nodes};

use datatypes::{Link, Step, Write};

// A writer's turn, by its store: of an insert, under a black parent, with colours above alone, or with a rotation to come.
// LinkAll: a list's; no write on the way has one.
#[derive(Clone, Copy, PartialEq, Eq)]
pub enum Turn {
    UnderBlack,
    Colours,
    Rotation,
    Replace,
    DiagLower,
    DiagRaise,
    ZigLowerA,
    ZigLowerC,
    ZigRaise,
    Unlink,
    Adopt,
    Promote,
    Publish,
    Detach,
    LinkAll,
}

impl Turn {
    // Answers the turn of a small letter.
    fn from_letter(letter: u8) -> Turn {
        match letter {
            b'i' => Turn::UnderBlack,
            b'j' => Turn::Colours,
            b'k' => Turn::Rotation,
            b'r' => Turn::Replace,
            b'd' => Turn::DiagLower,
            b'e' => Turn::DiagRaise,
            b'x' => Turn::ZigLowerA,
            b'y' => Turn::ZigLowerC,
            b'z' => Turn::ZigRaise,
            b'u' => Turn::Unlink,
            b'a' => Turn::Adopt,
            b'm' => Turn::Promote,
            b'p' => Turn::Publish,
            b't' => Turn::Detach,
            _ => Turn::LinkAll,
        }
    }

    // Answers the turn that makes the first store in hand, or none.
    pub fn in_hand(pool: &[u32], write: &Write) -> Option<Turn> {
        let store = write.stores[0];
        Some(match store.step {
            Step::Vacant => return None,
            Step::Insert(_, _) => Turn::of_insert(pool, store.link, write.count),
            Step::Replace(_) => Turn::Replace,
            Step::DiagLower(_, _) => Turn::DiagLower,
            Step::DiagRaise(_, _) => Turn::DiagRaise,
            Step::ZigLowerA(_, _) => Turn::ZigLowerA,
            Step::ZigLowerC(_, _) => Turn::ZigLowerC,
            Step::ZigRaise(_, _) => Turn::ZigRaise,
            Step::Unlink => Turn::Unlink,
            Step::Adopt => Turn::Adopt,
            Step::Promote => Turn::Promote,
            Step::Publish(_) => Turn::Publish,
            Step::Detach(_) => Turn::Detach,
            Step::LinkAll(_, _) => Turn::LinkAll,
        })
    }

    // Answers an insert's turn, by its parent's colour and how many stores are to come.
    fn of_insert(pool: &[u32], link: Link, count: u32) -> Turn {
        let parent = match link {
            Link::Root => 0,
            Link::Left(n) | Link::Right(n) => n,
        };
        if pool::word(pool, parent, pool::COLOUR) == pool::BLACK {
            Turn::UnderBlack
        } else if count == 1 {
            Turn::Colours
        } else {
            Turn::Rotation
        }
    }
}

// The call asked for. GoToRoot, GoAtNode, Found, Absent: a reader's turn of a lookup; GoLeft, GoRight, Next, NoneLeft: of a search for the next
// ticket. Wait: a writer's turn that answers wait; IdleTurn: one with no write in hand, which is refused. Page: no call.
#[derive(Clone, Copy, PartialEq, Eq)]
pub enum Call {
    SetUp,
    Insert,
    InsertHeld,
    Delete,
    Begin,
    BeginNext,
    GoToRoot,
    GoAtNode,
    Found,
    Absent,
    GoLeft,
    GoRight,
    Next,
    NoneLeft,
    GiveUp,
    Page,
    Wait,
    IdleTurn,
    Turn(Turn),
}

impl Call {
    // Answers the call of a letter. Other bytes below `a`, and 0 for no letter, ask for a turn with no write in hand; those from `a` on for a turn
    // that never comes, a list's, so that 0 is written.
    pub fn from_letter(letter: u8) -> Call {
        match letter {
            b'P' => Call::SetUp,
            b'I' => Call::Insert,
            b'H' => Call::InsertHeld,
            b'D' => Call::Delete,
            b'B' => Call::Begin,
            b'S' => Call::BeginNext,
            b'G' => Call::GoToRoot,
            b'C' => Call::GoAtNode,
            b'F' => Call::Found,
            b'A' => Call::Absent,
            b'L' => Call::GoLeft,
            b'R' => Call::GoRight,
            b'N' => Call::Next,
            b'O' => Call::NoneLeft,
            b'E' => Call::GiveUp,
            b'Q' => Call::Page,
            b'W' => Call::Wait,
            0..b'a' => Call::IdleTurn,
            _ => Call::Turn(Turn::from_letter(letter)),
        }
    }

    // Answers the turn before which the repeats begin, or none.
    pub fn wanted(self) -> Option<Turn> {
        match self {
            Call::Wait => Some(Turn::Publish),
            Call::Turn(turn) => Some(turn),
            _ => None,
        }
    }

    // Answers whether it is an insert of a new key or its turn.
    pub fn grows(self) -> bool {
        matches!(
            self,
            Call::Insert | Call::Turn(Turn::UnderBlack | Turn::Colours | Turn::Rotation)
        )
    }

    // Answers whether it is an insert of a held key or its turn.
    pub fn replaces(self) -> bool {
        matches!(self, Call::InsertHeld | Call::Turn(Turn::Replace))
    }

    // Answers whether it is a reader's turn of a lookup.
    pub fn looks_up(self) -> bool {
        matches!(
            self,
            Call::GoToRoot | Call::GoAtNode | Call::Found | Call::Absent
        )
    }

    // Answers whether it is a reader's turn of a search for the next ticket.
    pub fn seeks_next(self) -> bool {
        matches!(
            self,
            Call::GoLeft | Call::GoRight | Call::Next | Call::NoneLeft
        )
    }

    // Answers what is done when it is counted.
    pub fn act(self) -> Act {
        match self {
            Call::SetUp => Act::SetUp,
            Call::Insert | Call::InsertHeld => Act::Insert,
            Call::Delete => Act::Delete,
            Call::Begin => Act::Begin,
            Call::BeginNext => Act::BeginNext,
            Call::GiveUp => Act::GiveUp,
            Call::Page => Act::Page,
            Call::Wait | Call::IdleTurn | Call::Turn(_) => Act::WriterTurn,
            _ => Act::ReaderTurn,
        }
    }

    // Answers its key in the damaged tree: a new one, that of the key above the lowest node, the root's, or the lowest node's.
    pub fn deep_key(self) -> u32 {
        match self {
            Call::Insert | Call::Turn(Turn::UnderBlack | Turn::Colours | Turn::Rotation) => 3,
            Call::Turn(Turn::Adopt | Turn::Promote) => 74,
            Call::Wait | Call::Turn(Turn::Publish | Turn::Detach) => 2,
            _ => 72,
        }
    }
}

// What is done on the way, or is counted: a call of the index, or the page, which is counted alone.
#[derive(Clone, Copy, PartialEq, Eq)]
pub enum Act {
    SetUp,
    Insert,
    Delete,
    Begin,
    BeginNext,
    ReaderTurn,
    GiveUp,
    WriterTurn,
    Page,
}

// How large the index is. Damaged: a tree with a path of DEEP nodes.
#[derive(Clone, Copy, PartialEq, Eq)]
pub enum Size {
    Small,
    Middle,
    Large,
    Damaged,
}

// the damaged tree's path, and its keys
pub const DEEP: u32 = 64;

impl Size {
    // Answers the size of a letter; another than the four, or none, is the middle one.
    pub fn from_letter(letter: u8) -> Size {
        match letter {
            b's' => Size::Small,
            b'l' => Size::Large,
            b'v' => Size::Damaged,
            _ => Size::Middle,
        }
    }

    // Answers how many nodes the pool has.
    pub fn nodes(self) -> usize
        ensures { (least_nodes ≤ result) × (result ≤ most_nodes) }
    {
        match self {
            Size::Small => numbers::LEAST_NODES,
            Size::Middle | Size::Damaged => 128,
            Size::Large => numbers::MOST_NODES,
        }
    }

    // Answers how many keys the index is to hold.
    pub fn keys(self) -> u32
        ensures { (2 ≤ result) × (result ≤ 510) }
    {
        match self {
            Size::Small => 3,
            Size::Middle => 63,
            Size::Large => 510,
            Size::Damaged => DEEP,
        }
    }
}
