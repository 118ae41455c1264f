// How many words a command of the program trace is lent: what it works on, and what stays lent after it.
#![tactic(auto)]

ghost use Rattle.std.specs.Prelude.{◌≡◌};
ghost use Rattle.answer_lines.specs.Text.{says};
ghost use Rattle.lent_words.specs.Lent.{tried_words, kept_words};

use answer_lines::Said;
use command_fields::Command;

// Answers how many words a command works on: those lent, and for P those that it asks for.
pub fn tried_words(lent: usize, c: Command) -> usize
    ensures { result ≡ tried_words lent c }
{
    match c {
        Command::SetUp(n) if n as usize <= numbers::MOST_NODES => n as usize * numbers::NODE_WORDS,
        Command::SetUp(_) => numbers::POOL_WORDS,
        _ => lent,
    }
}

// Answers how many words stay lent: a refused P keeps the pool there was.
pub fn kept_words(lent: usize, tried: usize, said: Said) -> usize
    ensures { result ≡ kept_words lent tried (says said) }
{
    match said {
        Said::No(_) => lent,
        _ => tried,
    }
}
