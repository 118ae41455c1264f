// The register's head: taken out of a register, put into it; the store of a link, which is the root's or a word of the pool; the awaited slots.
// kept: a step takes `pool: &mut [u32]` and `h: Head` apart and gives the head back. The register goes by value (document 01, 'Pool and
// register'), and a head is its numbers: a struct that held both would lend the one and own the other.
#![tactic(auto)]

ghost use Rattle.std.specs.Prelude.{◌≡◌, not, eqb};
ghost use Rattle.spec.specs.Register.{set_link};
ghost use Rattle.heads.specs.Head.{head_of, with_head, awaiting, Follows};

use datatypes::{Head, Link, Register};

// Takes the head out of a register.
// kept: field by field; the register's fields are document 01's, and the theorems name them, so it has no head as a field.
pub fn head_of(reg: &Register) -> Head
    ensures { result ≡ head_of reg.now }
{
    Head {
        root: reg.root,
        first: reg.first,
        last: reg.last,
        free: reg.free,
        held: reg.held,
        awaited: reg.awaited,
    }
}

// Puts a head into a register that is lent.
pub fn put_head(reg: &mut Register, h: Head)
    ensures { reg.new ≡ with_head reg.old h }
{
    reg.root = h.root;
    reg.first = h.first;
    reg.last = h.last;
    reg.free = h.free;
    reg.held = h.held;
    reg.awaited = h.awaited;
}

// Stores node v in the link l: the root's in the head, any other in the pool.
pub fn set_link(pool: &mut [u32], h: Head, l: Link, v: u32) -> Head
    ensures { Follows (λ st. set_link st l v) pool.old h pool.new result }
{
    match l {
        Link::Root => Head { root: v, ..h },
        Link::Left(n) => {
            pool::set_word(pool, n, pool::LEFT, v);
            h
        }
        Link::Right(n) => {
            pool::set_word(pool, n, pool::RIGHT, v);
            h
        }
    }
}

// Counts one key less, and awaits all reading slots.
pub fn await_readers(h: Head, reading: u32) -> Head
    ensures { result ≡ awaiting h reading }
{
    Head {
        held: counts::count_down(h.held),
        awaited: reading,
        ..h
    }
}

// Tests whether some slot is awaited; a turn then waits.
pub fn some_awaited(awaited: u32) -> bool
    ensures { result ≡ not (eqb awaited 0) }
{
    awaited != 0
}
