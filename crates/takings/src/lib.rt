// Nodes taken from the free queue one after the other: whether the queue lasts (document 02, C-24). No node is taken here.
#![tactic(auto)]

ghost use Rattle.std.specs.Prelude.{◌≡◌, ◌<◌, ◌≤◌, length};
ghost use Rattle.spec.specs.Numbers.{pool_limit};
ghost use Rattle.spec.specs.Bulk.{next_free, free_after, runs_out};
ghost use Rattle.laws.specs.Takings.{stood};

// Answers the node k places after node n in the queue, 0 past its end.
fn free_after(pool: &[u32], n: u32, k: usize) -> u32
    ensures { result ≡ free_after (next_free pool.now) n k }
{
    let mut node = n;
    for _ in 0..k {
        if node == 0 {
            return 0;
        }
        node = pool::word(pool, node, pool::NEXT);
    }
    node
}

// Tests whether a node stands among the first k of the queue from node n on.
fn stood(pool: &[u32], n: u32, node: u32, k: usize) -> bool
    ensures { result ≡ stood (next_free pool.now) n node k }
{
    let mut other = n;
    for _ in 0..k {
        if other == node {
            return true;
        }
        other = pool::word(pool, other, pool::NEXT);
    }
    false
}

// Takes m nodes in thought, from node n on: a node that was taken before has next free 0.
fn circle_runs_out(pool: &[u32], n: u32, m: usize) -> bool
    ensures { result ≡ runs_out (next_free pool.now) n m }
{
    let mut node = n;
    for j in 0..m {
        if node == 0 {
            return true;
        }
        if stood(pool, n, node, j) {
            return 1 < m - j;
        }
        node = pool::word(pool, node, pool::NEXT);
    }
    false
}

// Tests whether m nodes taken from the queue, whose first is node n, find it empty. A queue that comes to its end as it stands has no node twice;
// only a damaged one has, and its nodes are looked for one by one.
pub fn runs_out(pool: &[u32], n: u32, m: usize) -> bool
    requires { (1 ≤ m) × (length pool.now < pool_limit) }
    ensures { result ≡ runs_out (next_free pool.now) n m }
{
    let last = free_after(pool, n, m - 1);
    if last == 0 {
        return true;
    }
    if free_after(pool, last, pool::nodes(pool) as usize) == 0 {
        return false;
    }
    circle_runs_out(pool, n, m)
}
