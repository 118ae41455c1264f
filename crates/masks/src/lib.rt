// Masks of slots: bit s for slot s, for any slot that a word has a bit for.
#![tactic(auto)]

ghost use Rattle.std.specs.Prelude.{◌≡◌, ◌<◌};
ghost use Rattle.spec.specs.Numbers.{word_bits};
ghost use Rattle.spec.specs.Register.{drop_slot};

// Answers a mask without slot s.
pub fn drop_slot(m: u32, s: u32) -> u32
    requires { s < word_bits }
    ensures { result ≡ drop_slot m s }
{
    m & !(1 << s)
}
