// Begin of a search of either kind: the call that index has twice, once for each kind.
#![tactic(auto)]

ghost use Rattle.std.specs.Prelude.{◌≡◌};
ghost use Rattle.spec.specs.Register.{state};
ghost use Rattle.spec.specs.Calls.{accepts, begin};

use datatypes::{Acceptance, Kind, Register};

// Begins, in the slot s, a search of this kind with the key k; tests and answers are document 01's. Refused, the register is as it was.
pub fn begin(pool: &[u32], reg: &mut Register, kind: Kind, s: u32, k: u32) -> Acceptance
    ensures answer_value { accepts result ≡ (begin kind (state pool.now reg.old) s k).answer }
    ensures register_value { state pool.now reg.new ≡ (begin kind (state pool.now reg.old) s k).after }
{
    let i = refusals::begin_refusal(pool, reg, s)?;
    reg.readers[i] = register::begun_reader(kind, k);
    Ok(())
}
