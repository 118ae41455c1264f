// The commands of the program trace: each is run on the words lent.
#![tactic(auto)]

ghost use Rattle.std.specs.Prelude.{◌≡◌, ◌++◌, ◌≤◌, length, drop};
ghost use Rattle.spec.specs.Numbers.{pool_limit};
ghost use Rattle.spec.specs.Register.{state};
ghost use Rattle.answer_lines.specs.Text.{says};
ghost use Rattle.lent_words.specs.Lent.{tried_words, kept_words};
ghost use Rattle.commands.specs.Performed.{called, shown, performed};

use answer_lines::Said;
use command_fields::Command;
use datatypes::{Register, Reply};
use refusals::Tested;

// What a command's call answers, and the register that it leaves.
#[derive(Clone, Copy)]
pub struct Called {
    pub said: Said,
    pub register: Register,
}

// a call's reply, as a command says it
fn said<A>(reply: Reply<A>) -> Called
where
    Said: From<A>,
    ensures { ⟦<Said as From<A>>⟧.from_gives reply.answer result.said × (result.register ≡ reply.register) }
{
    Called {
        said: Said::from(reply.answer),
        register: reply.register,
    }
}

// the answer of T and L
#[tactic(auto, unfolding(crate::specs::Performed::shown))]
fn show(pool: &[u32], reg: Register) -> Called
    ensures said_value { says result.said ≡ (shown (state pool.now reg)).answer }
    ensures register_value { state pool.now result.register ≡ (shown (state pool.now reg)).after }
{
    let tests = refusals::lent_refusal(pool, &reg, Tested::All);
    Called {
        said: Said::from(tests),
        register: reg,
    }
}

// Makes a command's call on the pool lent.
pub fn call(pool: &mut [u32], reg: Register, c: Command) -> Called
    ensures said_value { says result.said ≡ (called (state pool.old reg) c).answer }
    ensures register_after { state pool.new result.register ≡ (called (state pool.old reg) c).after }
{
    match c {
        Command::SetUp(_) => said(index::set_up(pool, reg)),
        Command::Insert(k, v) => said(index::insert(pool, reg, k, v)),
        Command::Delete(k) => said(index::delete(pool, reg, k)),
        Command::Write => said(index::writer_turn(pool, reg)),
        Command::Begin(s, k) => said(index::begin(pool, reg, s, k)),
        Command::BeginNext(s, k) => said(index::begin_next(pool, reg, s, k)),
        Command::Turn(s) => {
            let reply = index::reader_turn(pool, reg, s);
            Called {
                said: Said::from(reply.answer),
                register: reply.register,
            }
        }
        Command::GiveUp(s) => said(index::give_up(pool, reg, s)),
        Command::Show | Command::Page => show(pool, reg),
    }
}

// What a command did: its answer, the register, and how many words are lent from now on.
#[derive(Clone, Copy)]
pub struct Performed {
    pub said: Said,
    pub register: Register,
    pub lent: usize,
}

// Runs a command on the first `lent` of the words, the pool; answer, register and every word are those of documents 01 and 02.
pub fn perform(words: &mut [u32], lent: usize, reg: Register, c: Command) -> Performed
    requires { (lent ≤ pool_limit) × (length words.old ≡ pool_limit) }
    ensures said_value { says result.said ≡ (performed words.old lent reg c).answer }
    ensures register_value { result.register ≡ (performed words.old lent reg c).after.register }
    ensures lent_value { result.lent ≡ kept_words lent (tried_words lent c) (says result.said) }
    ensures words_after { words.new ≡ (performed words.old lent reg c).after.pool ++ drop (tried_words lent c) words.old }
{
    let tried = lent_words::tried_words(lent, c);
    let called = call(&mut words[..tried], reg, c);
    let said = called.said;
    Performed {
        said,
        register: called.register,
        lent: lent_words::kept_words(lent, tried, said),
    }
}
