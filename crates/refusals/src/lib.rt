// The tests that a call begins with: each answers the refusal of the first cause that holds.
#![tactic(auto)]

ghost use Rattle.std.specs.Prelude.{◌≡◌, ◌<◌, length, IfOk};
ghost use Rattle.datatypes.specs.Refusals.{found_number};
ghost use Rattle.spec.specs.Numbers.{pool_limit, slots};
ghost use Rattle.spec.specs.Register.{state};
ghost use Rattle.spec.specs.Calls.{first_of, begin_tests, reader_tests, give_up_tests};
ghost use Rattle.refusals.specs.Slots.{words_in_range, tested_number, slot_tests, PlaceOf};

use datatypes::{Refusal, Register};

// What test 2 looks at: every word of the pool and the register, or the register alone.
#[derive(Clone, Copy)]
pub enum Tested {
    All,
    Register,
}

// Tests the pool's words, where test 2 looks at them.
fn words_in_range(pool: &[u32], tested: Tested) -> bool
    requires { length pool.now < pool_limit }
    ensures { result ≡ words_in_range tested pool.now }
{
    match tested {
        Tested::All => pool::pool_in_range(pool),
        Tested::Register => true,
    }
}

// Makes tests 1 and 2 of what was lent. The two tests of ranges are joined by `&`: with an exit after the first the compiler makes a slower pass
// through the pool.
pub fn lent_refusal(pool: &[u32], reg: &Register, tested: Tested) -> Result<(), Refusal>
    ensures { found_number result ≡ tested_number tested (state pool.now reg.now) }
{
    if !pool::length_right(pool) {
        return Err(Refusal::WrongLength);
    }
    let capacity = pool::nodes(pool);
    if !(words_in_range(pool, tested) & register::register_in_range(reg, capacity)) {
        return Err(Refusal::OutOfRange);
    }
    Ok(())
}

// Answers where slot s's record stands.
fn slot_place(s: u32) -> Result<usize, Refusal>
    ensures { PlaceOf s result }
{
    if s < numbers::SLOT_LIMIT {
        Ok(s as usize)
    } else {
        Err(Refusal::SlotTooHigh)
    }
}

// Makes tests 1, 2 and 3 of a call that looks at the whole pool, and answers where slot s's record stands.
fn slot_refusal(pool: &[u32], reg: &Register, s: u32) -> Result<usize, Refusal>
    ensures tests { found_number result ≡ first_of (slot_tests (state pool.now reg.now) s) }
    ensures place { IfOk result (λ i. i ≡ s) }
    ensures slot { IfOk result (λ i. i < slots) }
{
    lent_refusal(pool, reg, Tested::All)?;
    slot_place(s)
}

// Makes the tests of a begin in slot s, and answers where its record stands.
pub fn begin_refusal(pool: &[u32], reg: &Register, s: u32) -> Result<usize, Refusal>
    ensures tests { found_number result ≡ first_of (begin_tests (state pool.now reg.now) s) }
    ensures place { IfOk result (λ i. i ≡ s) }
    ensures slot { IfOk result (λ i. i < slots) }
{
    let i = slot_refusal(pool, reg, s)?;
    if reg.readers[i].reading {
        return Err(Refusal::SlotReading);
    }
    Ok(i)
}

// Makes the tests of a give up of slot s, and answers where its record stands.
pub fn give_up_refusal(pool: &[u32], reg: &Register, s: u32) -> Result<usize, Refusal>
    ensures tests { found_number result ≡ first_of (give_up_tests (state pool.now reg.now) s) }
    ensures place { IfOk result (λ i. i ≡ s) }
    ensures slot { IfOk result (λ i. i < slots) }
{
    let i = slot_refusal(pool, reg, s)?;
    if !reg.readers[i].reading {
        return Err(Refusal::SlotNotReading);
    }
    Ok(i)
}

// Makes the tests of a reader's turn of slot s, and answers where its record stands: of the pool the node that the record names is tested alone.
pub fn turn_refusal(pool: &[u32], reg: &Register, s: u32) -> Result<usize, Refusal>
    ensures tests { found_number result ≡ first_of (reader_tests (state pool.now reg.now) s) }
    ensures place { IfOk result (λ i. i ≡ s) }
    ensures slot { IfOk result (λ i. i < slots) }
{
    lent_refusal(pool, reg, Tested::Register)?;
    let i = slot_place(s)?;
    let x = reg.readers[i];
    if pool::out_of_range(pool, x.node) {
        return Err(Refusal::OutOfRange);
    }
    if !x.reading {
        return Err(Refusal::SlotNotReading);
    }
    Ok(i)
}
