// The readers' calls, each beside the plain list.
ghost use Rattle.std.specs.Prelude.{◌≡◌, true, Some, leb};
ghost use Rattle.checks.specs.declared.draws.Reading.TheVariants.{Search};

use crate::answers::Answer;
use crate::{Beside, Said};
use checks::draws::{Call, Reading};
use checks::{draws, rows};
use datatypes::Refusal;

// document 02, C-15: slots are 0 to 31. A number of its own, so that a wrong limit of the index shows.
const LAST_SLOT: u32 = 31;

// whether there is no slot s
fn slot_too_high(s: u32) -> bool
    ensures { result ≡ leb 32 s }
{
    LAST_SLOT < s
}

// A next is right of a search alone, and if it was so at one of its moments; a lookup never answers it.
fn next_right(kind: Option<Reading>, was: bool) -> bool
    ensures search_alone { result ≡ true → kind ≡ Some Search }
    ensures as_it_was { kind ≡ Some Search → result ≡ was }
{
    matches!(kind, Some(Reading::Search)) && was
}

impl Beside {
    fn begin_foretold(&self, s: u32) -> Answer {
        if slot_too_high(s) {
            Answer::Refused(Refusal::SlotTooHigh)
        } else if self.model.reading(s) {
            Answer::Refused(Refusal::SlotReading)
        } else {
            Answer::Accepted
        }
    }

    // of a reader's turn and of a give up
    fn slot_foretold(&self, s: u32) -> Answer {
        if slot_too_high(s) {
            Answer::Refused(Refusal::SlotTooHigh)
        } else if self.model.reading(s) {
            Answer::Accepted
        } else {
            Answer::Refused(Refusal::SlotNotReading)
        }
    }

    // Compares the answer of a begin, and begins the lookup or the search for the next ticket in the model.
    pub fn begin(&mut self, call: Call, kind: Reading, answer: Answer) {
        let foretold = self.begin_foretold(call.slot);
        self.answered(answer, foretold);
        if foretold == Answer::Accepted {
            self.model.begin(call.slot, kind, call.ticket);
            self.counts.one(match kind {
                Reading::Lookup => rows::BEGUN,
                Reading::Search => rows::NEXT_BEGUN,
            });
            self.counts.one(rows::SLOT_BEGUN + call.slot as usize);
        }
    }

    // An answer is right if it was so at one of the reading's moments; it is counted as an older one if it isn't so at the last.
    fn end(&mut self, s: u32, kind: Reading, right: bool, now: bool) {
        let (compared, older) = match kind {
            Reading::Lookup => (rows::LOOKUPS, rows::OLDER),
            Reading::Search => (rows::NEXT_SEARCHES, rows::NEXT_OLDER),
        };
        self.counts.same(right);
        self.counts.one(compared);
        self.counts.one_if(older, !now);
        self.model.end_reading(s);
    }

    // an answered record that is wide, above 32 bits
    fn count_wide(&mut self, v: u64) {
        self.counts
            .one_if(rows::WIDE_ANSWERED, numbers::WORD_LIMIT <= v);
    }

    fn found(&mut self, s: u32, v: u64) {
        let right = self.model.was_listed(s, v);
        let now = self.model.is_listed(s, v);
        self.counts.one(rows::FOUND);
        self.count_wide(v);
        self.counts
            .one_if(rows::FOUND_OUTDATED, self.model.is_outdated(s, v));
        self.end(s, Reading::Lookup, right, now);
    }

    // `ticket`: that of the answered key
    fn next(&mut self, s: u32, ticket: Option<u32>, v: u64) {
        let was = ticket.is_some_and(|t| self.model.was_next(s, t, v));
        let right = next_right(self.model.kind(s), was);
        let now = ticket.is_some_and(|t| self.model.is_next(s, t, v));
        let outdated = ticket.is_some_and(|t| self.model.has_other(t, v));
        self.counts.one(rows::NEXT);
        self.count_wide(v);
        self.counts.one_if(rows::NEXT_OUTDATED, outdated);
        self.end(s, Reading::Search, right, now);
    }

    // absent, of either kind of reading
    fn absent(&mut self, s: u32) {
        if self.model.kind(s) == Some(Reading::Search) {
            let right = self.model.was_none(s);
            let now = self.model.is_none(s);
            self.counts.one(rows::NONE);
            self.end(s, Reading::Search, right, now);
        } else {
            let right = self.model.was_lacking(s);
            let now = self.model.is_lacking(s);
            self.counts.one(rows::ABSENT);
            self.end(s, Reading::Lookup, right, now);
        }
    }

    // The list stays in a reader's turn, so the moment after it is like the last one seen.
    fn follow_reader(&mut self, nodes: u32, s: u32, answer: Answer) {
        match answer {
            Answer::Go => {
                self.counts.one(rows::GO);
                self.model.note_turn(s);
            }
            Answer::Found(v) => self.found(s, v),
            Answer::Next(k, v) => self.next(s, draws::ticket_of(k, nodes), v),
            Answer::Absent => self.absent(s),
            _ => {}
        }
    }

    // with a list in hand the root is 0: a reading's first turn answers absent
    fn compare_first_turn(&mut self, said: Said) {
        let first = (said.node == 0) & !said.answer.refuses();
        if first & self.model.list_in_hand().is_some() {
            self.counts.same(said.answer == Answer::Absent);
            self.counts.one(rows::LIST_TURNS);
        }
    }

    // Compares the answer of a reader's turn; found, absent and next are held against the moments of the lookup or search.
    pub fn reader_turn(&mut self, nodes: u32, s: u32, said: Said) {
        self.compare_first_turn(said);
        let answer = if said.answer.refuses() {
            said.answer
        } else {
            Answer::Accepted
        };
        self.answered(answer, self.slot_foretold(s));
        self.follow_reader(nodes, s, said.answer);
    }

    // Compares the answer of a give up, and ends the lookup or search in the model.
    pub fn give_up(&mut self, s: u32, answer: Answer) {
        self.answered(answer, self.slot_foretold(s));
        if let Some(kind) = self.model.kind(s) {
            self.counts.one(match kind {
                Reading::Lookup => rows::GIVEN_UP,
                Reading::Search => rows::NEXT_GIVEN_UP,
            });
            self.model.end_reading(s);
        }
    }
}
