// What a call answered, without its register.
use datatypes::{Acceptance, ReaderAnswer, Refusal, WriterAnswer};

// Found has the record, next the key and the record, a refusal why.
#[derive(Clone, Copy, PartialEq, Eq)]
pub enum Answer {
    Accepted,
    Refused(Refusal),
    More,
    Done,
    Wait,
    Go,
    Found(u64),
    Next(u32, u64),
    Absent,
}

impl Answer {
    // Answers whether it is a refusal.
    pub fn refuses(self) -> bool {
        matches!(self, Answer::Refused(_))
    }
}

impl From<Acceptance> for Answer {
    fn from(a: Acceptance) -> Answer {
        match a {
            Ok(()) => Answer::Accepted,
            Err(refusal) => Answer::Refused(refusal),
        }
    }
}

impl From<WriterAnswer> for Answer {
    fn from(a: WriterAnswer) -> Answer {
        match a {
            WriterAnswer::More(_, _) => Answer::More,
            WriterAnswer::Done(_, _) => Answer::Done,
            WriterAnswer::Wait => Answer::Wait,
            WriterAnswer::Refused(refusal) => Answer::Refused(refusal),
        }
    }
}

impl From<ReaderAnswer> for Answer {
    fn from(a: ReaderAnswer) -> Answer {
        match a {
            ReaderAnswer::Go => Answer::Go,
            ReaderAnswer::Found(v) => Answer::Found(v),
            ReaderAnswer::Next(k, v) => Answer::Next(k, v),
            ReaderAnswer::Absent => Answer::Absent,
            ReaderAnswer::Refused(refusal) => Answer::Refused(refusal),
        }
    }
}
