// The end of a reading: the retired nodes found and released.
#![tactic(auto)]

ghost use Rattle.std.specs.Prelude.{◌≡◌, true, ◌<◌, ◌≤◌, ◌+◌, ◌*◌, eqb, length};
ghost use Rattle.reading_ends.specs.Retired.{Bounded, Span, Past, Found};
ghost use Rattle.spec.specs.Numbers.{node_words, pool_limit, slots, word_bits};
ghost use Rattle.spec.specs.Pool.{word, standing_word, standing_retired};
ghost use Rattle.datatypes.specs.declared.Register.{Register};
ghost use Rattle.heads.specs.Head.{at, Follows};
ghost use Rattle.spec.specs.Register.{no_reader, with_reader};
ghost use Rattle.spec.specs.Free.{release, end_reading};

use datatypes::Head;

// a node's standing stands so many words before the node's end
const STANDING_BACK: usize = numbers::NODE_WORDS - pool::STANDING as usize;

// how many nodes are looked at by one test, first and where one of them may be retired
const WIDE: usize = 32;

const NARROW: usize = 8;

// Answers a number that is at least the standing of each of so many nodes from n on.
fn standings<const WIDTH: usize>(pool: &[u32], n: usize) -> u32
    requires { (1 ≤ n) × ((n + WIDTH) * node_words ≤ length pool.now + node_words) }
    ensures { Bounded pool.now n (n + WIDTH) result }
{
    let mut most = 0;
    for k in n..n + WIDTH {
        most |= pool[k * numbers::NODE_WORDS - STANDING_BACK];
    }
    most
}

// Passes over nodes of which none is retired, so many by one test; answers where it stopped.
// kept: a `step_by` range has no place to answer once it is past its end.
fn scan_blocks<const WIDTH: usize>(pool: &[u32], from: usize, capacity: usize) -> usize
    requires { Span pool.now from capacity × (1 ≤ WIDTH) × (WIDTH ≤ word_bits) }
    ensures { Past pool.now from capacity result }
{
    let mut n = from;
    while n + WIDTH <= capacity + 1 {
        if standings::<WIDTH>(pool, n) > pool::LINKED {
            break;
        }
        n += WIDTH;
    }
    n
}

// Answers the first retired node at or after `from`, node by node; none if there is none.
fn scan_retired(pool: &[u32], from: usize, capacity: usize) -> Option<usize>
    requires { Span pool.now from capacity }
    ensures { Found pool.now from capacity result }
{
    for n in from..capacity + 1 {
        if pool[n * numbers::NODE_WORDS - STANDING_BACK] == pool::RETIRED {
            return Some(n);
        }
    }
    None
}

// The same, by blocks of nodes.
fn next_retired(pool: &[u32], from: usize, capacity: usize) -> Option<usize>
    requires { Span pool.now from capacity }
    ensures { Found pool.now from capacity result }
{
    let wide = scan_blocks::<WIDE>(pool, from, capacity);
    let narrow = scan_blocks::<NARROW>(pool, wide, capacity);
    scan_retired(pool, narrow, capacity)
}

// The same; first the node itself, since nodes retired one after the other often stand side by side.
fn following_retired(pool: &[u32], from: usize, capacity: usize) -> Option<usize>
    requires { Span pool.now from capacity }
    ensures { Found pool.now from capacity result }
{
    if capacity < from {
        return None;
    }
    if pool[from * numbers::NODE_WORDS - STANDING_BACK] == pool::RETIRED {
        return Some(from);
    }
    next_retired(pool, from + 1, capacity)
}

// Takes slot s from a retired node's holders, and frees the node if it is then without a holder.
#[tactic(auto, unfolding(spec::specs::Free::release))]
fn release(pool: &mut [u32], h: Head, s: u32, n: u32) -> Head
    requires { (length pool.old < pool_limit) × (s < word_bits) × (eqb (word pool.old n standing_word) standing_retired ≡ true) }
    ensures { Follows (λ st. release s st n) pool.old h pool.new result }
{
    let left = masks::drop_slot(pool::word(pool, n, pool::HOLDERS), s);
    if left == 0 {
        return queue::free_node(pool, h, n);
    }
    pool::set_word(pool, n, pool::HOLDERS, left);
    h
}

// Ends the reading of slot s: its bit leaves the awaited slots, and every retired node, in rising number, is released.
// kept: each place is looked for in the pool as the release before it left it, so no range has them.
pub fn end_reading(pool: &mut [u32], h: Head, s: u32) -> Head
    requires { (length pool.old < pool_limit) × (s < slots) }
    ensures { (q : Register) → at pool.new result (with_reader q s no_reader) ≡ end_reading (at pool.old h q) s }
{
    let count = pool.len() / numbers::NODE_WORDS;
    let mut r = Head {
        awaited: masks::drop_slot(h.awaited, s),
        ..h
    };
    let mut next = next_retired(pool, 1, count);
    while let Some(n) = next {
        r = release(pool, r, s, n as u32);
        next = following_retired(pool, n + 1, count);
    }
    r
}
