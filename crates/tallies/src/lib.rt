// A camera's tally after a reader's turn (document 02, C-17), by value.
#![tactic(auto)]

ghost use Rattle.std.specs.Prelude.{◌≡◌};
ghost use Rattle.spec.specs.Calls.{reader_says};
ghost use Rattle.spec.specs.Tally.{counted, answers, tallied};

use datatypes::{ReaderAnswer, Tally};

// Counts one reading more, which has compared so many nodes.
fn counted(t: Tally, compared: u32) -> Tally
    ensures { result ≡ counted t compared }
{
    Tally {
        answered: t.answered.saturating_add(1),
        compared: t.compared.saturating_add(compared),
        longest: t.longest.max(compared),
    }
}

// Tests whether a turn's answer ends its lookup or search.
fn answers(answer: ReaderAnswer) -> bool
    ensures { result ≡ answers (reader_says answer) }
{
    matches!(
        answer,
        ReaderAnswer::Found(_) | ReaderAnswer::Next(_, _) | ReaderAnswer::Absent
    )
}

// Answers the tally after a turn with this answer and this count of nodes compared (`answer` and `compared` of the turn's reply): an answer
// that ends the lookup or search is counted, go and a refusal leave the tally as it was.
#[tactic(auto, unfolding(spec::specs::Tally::tallied))]
pub fn tallied(t: Tally, answer: ReaderAnswer, compared: u32) -> Tally
    ensures { result ≡ tallied t (reader_says answer) compared }
{
    if answers(answer) {
        counted(t, compared)
    } else {
        t
    }
}
