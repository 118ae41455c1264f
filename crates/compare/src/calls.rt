// The index's calls: the register goes from one to the next, and all else of an answer is an answer of comparisons.
use checks::draws::{Call, Kind};
use comparisons::answers::Answer;
use datatypes::{Reader, Register, Reply, Step, Tally};
use lists::drawn::List;

// A call made: the register after it, its answer, the count in the reply of a reader's turn, and the tally of the camera that made the call.
#[derive(Clone, Copy)]
pub struct Made {
    pub register: Register,
    pub answer: Answer,
    pub compared: u32,
    pub tally: Tally,
}

// a camera's tally before any answer
pub const NO_TALLY: Tally = Tally {
    answered: 0,
    compared: 0,
    longest: 0,
};

// a call with this reply, but for a reader's turn
fn made_with<A>(reply: Reply<A>, tally: Tally) -> Made
where
    Answer: From<A>,
{
    Made {
        register: reply.register,
        answer: Answer::from(reply.answer),
        compared: 0,
        tally,
    }
}

// Answers what stands before any call.
pub fn before_any() -> Made {
    Made {
        register: fresh::fresh_register(0),
        answer: Answer::Accepted,
        compared: 0,
        tally: NO_TALLY,
    }
}

// Sets up the index.
pub fn set_up(pool: &mut [u32]) -> Made {
    made_with(index::set_up(pool, fresh::fresh_register(0)), NO_TALLY)
}

fn reader_turn(pool: &mut [u32], reg: Register, s: u32, tally: Tally) -> Made {
    let reply = index::reader_turn(pool, reg, s);
    Made {
        register: reply.register,
        answer: Answer::from(reply.answer),
        compared: reply.compared,
        tally: tallies::tallied(tally, reply.answer, reply.compared),
    }
}

// Makes a drawn call by a camera with this tally, one of a list with this one.
pub fn call_index(pool: &mut [u32], reg: Register, call: Call, list: &List, tally: Tally) -> Made {
    match call.kind {
        Kind::Insert => made_with(index::insert(pool, reg, call.key, call.record), tally),
        Kind::Delete => made_with(index::delete(pool, reg, call.key), tally),
        Kind::WriterTurn => made_with(index::writer_turn(pool, reg), tally),
        Kind::Begin => made_with(index::begin(pool, reg, call.slot, call.key), tally),
        Kind::BeginNext => made_with(index::begin_next(pool, reg, call.slot, call.key), tally),
        Kind::ReaderTurn => reader_turn(pool, reg, call.slot, tally),
        Kind::GiveUp => made_with(index::give_up(pool, reg, call.slot), tally),
        Kind::List => made_with(
            index::insert_list(pool, reg, list.keys(), list.records()),
            tally,
        ),
    }
}

// Answers the record of a slot, of some slot for one that is too high.
pub fn reader_of(reg: &Register, s: u32) -> Reader {
    reg.readers[s as usize % numbers::SLOTS]
}

// Answers the step of the store in hand.
pub fn step_in_hand(reg: &Register) -> Step {
    reg.write.stores[0].step
}
