// The writer's turn from its step on: the step tried, and what is left of the write in hand.
#![tactic(auto)]

ghost use Rattle.std.specs.Prelude.{◌≡◌, true, List, ℕ, ◌<◌, length};
ghost use Rattle.spec.specs.Numbers.{pool_limit};
ghost use Rattle.spec.specs.Register.{state, with_write, less_first, reading_slots};
ghost use Rattle.spec.specs.Calls.{writer_says, store_answer, stored, write_in_hand, writer_turn};
ghost use Rattle.laws.specs.Tests.{lent_number};
ghost use Rattle.spec.specs.FreeQueue.{Whole};
ghost use Rattle.heads.specs.Head.{left};
ghost use Rattle.turns.specs.Made.{moved_by, FirstTold};

use datatypes::{Link, Refusal, Register, Reply, Step, Store, Stored, Write, WriterAnswer};

// Tries the step of the first store. A step that retires a node, or awaits, asks which slots are reading.
// Why it is never inlined: docs/DECISIONS.md, 46.
#[tactic(auto, unfolding(spec::specs::Turn::step_finds, spec::specs::Register::with_write))]
#[inline(never)]
fn first_step(pool: &mut [u32], reg: &Register) -> Option<Stored>
    requires { (length pool.old < pool_limit) × Whole pool.old }
    ensures { FirstTold pool.old reg.now pool.new result }
{
    let Store { link: l, step } = reg.write.stores[0];
    let h = heads::head_of(reg);
    let reading = || register::reading_slots(reg);
    match step {
        Step::Vacant => None,
        Step::Insert(k, v) => stores::insert(pool, h, l, k, v),
        Step::Replace(v) => copies::replace(pool, h, reading(), l, v),
        Step::DiagLower(s, purpose) => rotations::diag_lower(pool, h, l, s, purpose),
        Step::DiagRaise(s, purpose) => rotations::diag_raise(pool, h, reading(), l, s, purpose),
        Step::ZigLowerA(s, purpose) => rotations::zig_lower_a(pool, h, l, s, purpose),
        Step::ZigLowerC(s, purpose) => rotations::zig_lower_c(pool, h, l, s, purpose),
        Step::ZigRaise(s, purpose) => rotations::zig_raise(pool, h, reading(), l, s, purpose),
        Step::Unlink => removals::unlink(pool, h, reading(), l),
        Step::Adopt => stores::adopt(pool, h, l),
        Step::Promote => removals::promote(pool, h, reading(), l),
        Step::Publish(c) => copies::publish(pool, h, reading(), l, c),
        Step::Detach(k) => removals::detach(pool, h, reading(), l, k),
        Step::LinkAll(m, n) => bulk::link_all(pool, h, m, n),
    }
}

// Answers the write in hand without its first store. Why it is never inlined: docs/DECISIONS.md, 46.
#[tactic(auto, unfolding(spec::specs::Register::less_first))]
#[inline(never)]
fn less_first(w: Write) -> Write
    ensures { result ≡ less_first w }
{
    let [_, a, b, c, d, e, f] = w.stores;
    Write {
        count: counts::count_down(w.count),
        stores: [a, b, c, d, e, f, register::vacant()],
    }
}

// Answers the write in hand after the step x: a publish put node n in the place of b, and the stores to come move to it.
fn moved_by(x: Step, b: u32, n: u32, w: Write) -> Write
    ensures { result ≡ moved_by x b n w }
{
    match x {
        Step::Publish(_) => copies::moved_write(b, n, w),
        _ => w,
    }
}

// Answers done if no store is left, more otherwise, with the link stored and its new node.
fn store_answer(count: u32, l: Link, n: u32) -> WriterAnswer
    ensures { writer_says result ≡ store_answer count l n }
{
    if count == 0 {
        WriterAnswer::Done(l, n)
    } else {
        WriterAnswer::More(l, n)
    }
}

// Puts the register together after a made step, and answers done or more. w is the write in hand before.
#[tactic(auto, unfolding(spec::specs::Calls::stored, spec::specs::Register::with_write))]
fn stored(mut reg: Register, t: Stored, w: Write) -> Reply<WriterAnswer>
    ensures { (p : List ℕ) → (writer_says result.answer ≡ (stored (left p t (with_write reg w))).answer) × (state p result.register ≡ (stored (left p t (with_write reg w))).after) }
{
    heads::put_head(&mut reg, t.head);
    reg.write = less_first(w);
    Reply {
        answer: store_answer(reg.write.count, t.link, t.node),
        register: reg,
    }
}

// Makes the first store of the write in hand, with no slot awaited. A publish puts a copy in the place of a node b, and the stores
// to come move to the copy.
pub fn make_first(pool: &mut [u32], reg: Register) -> Reply<WriterAnswer>
    requires { (lent_number (state pool.old reg) ≡ 0) × (write_in_hand (state pool.old reg) ≡ true) × (reg.awaited ≡ 0) }
    ensures answer_value { writer_says result.answer ≡ (writer_turn (state pool.old reg)).answer }
    ensures register_after { state pool.new result.register ≡ (writer_turn (state pool.old reg)).after }
{
    let Store { link, step } = reg.write.stores[0];
    let b = pool::node_at(pool, reg.root, link);
    let Some(t) = first_step(pool, &reg) else {
        return Reply {
            answer: WriterAnswer::Refused(Refusal::NodeMissing),
            register: reg,
        };
    };
    stored(reg, t, moved_by(step, b, reg.first, reg.write))
}
