// The index's pool beside the reference tree, node by node. It uses nothing of the index.
#![tactic(auto)]

ghost use Rattle.std.specs.Prelude.{◌≤◌, length};

use arrayvec::ArrayVec;
use numbers::{MOST_NODES, NODE_WORDS, WORD_LIMIT};
use reference::{NIL, Tree};

// the most pairs of nodes that two trees have
const PAIRS: usize = MOST_NODES + 1;

// The standings by their words.
#[derive(Clone, Copy)]
pub enum Standing {
    Free = 0,
    Linked = 1,
    Retired = 2,
    Apart = 3,
}

// A node of a pool.
// kept: colour and standing are words, as a damaged pool may have any. Tried as Option: counting free nodes took 0.58 to 0.66 s for 0.09 s in Rattle's own build.
#[derive(Clone, Copy)]
struct Node {
    key: u32,
    record: u64,
    left: u32,
    right: u32,
    colour: u32,
    standing: u32,
    holders: u32,
    next: u32,
}

impl From<&[u32; NODE_WORDS]> for Node {
    fn from(words: &[u32; NODE_WORDS]) -> Node {
        let [
            key,
            record_low,
            record_high,
            left,
            right,
            colour,
            standing,
            holders,
            next,
        ] = *words;
        Node {
            key,
            record: u64::from(record_low) + u64::from(record_high) * WORD_LIMIT,
            left,
            right,
            colour,
            standing,
            holders,
            next,
        }
    }
}

impl Node {
    // a node by its number; its words are 0 past the pool's last whole node, and of no node
    fn at(pool: &[u32], n: u32) -> Node {
        let place = (n as usize).checked_sub(1);
        let words = place.and_then(|place| pool.as_chunks().0.get(place));
        Node::from(words.unwrap_or(&[0; NODE_WORDS]))
    }

    // a retired node has holders, all of them among the reading slots; any other node has none
    fn holders_right(&self, reading: u32) -> bool {
        if self.standing == Standing::Retired as u32 {
            self.holders != 0 && self.holders & reading == self.holders
        } else {
            self.holders == 0
        }
    }

    // a node of each tree: the same key, record and colour, and children on the same sides
    fn same_as(&self, tree: &Tree, n: u32) -> bool {
        self.key == tree.key(n)
            && self.record == tree.record(n)
            && self.colour == tree.colour(n) as u32
            && (self.left == NIL) == (tree.left(n) == NIL)
            && (self.right == NIL) == (tree.right(n) == NIL)
    }

    // a node just taken and made apart, with this key and record
    fn is_taken(&self, k: u32, v: u64) -> bool {
        self.key == k
            && self.record == v
            && self.standing == Standing::Apart as u32
            && self.holders == 0
            && self.next == NIL
    }
}

// the words of each node of a pool; none of a pool longer than the longest
fn all_words(pool: &[u32]) -> &[[u32; NODE_WORDS]]
    ensures { length result.now ≤ MOST_NODES }
{
    let words = pool.as_chunks().0;
    if words.len() <= MOST_NODES {
        words
    } else {
        &[]
    }
}

// Answers how many nodes the pool has.
pub fn nodes(pool: &[u32]) -> u32 {
    all_words(pool).len() as u32
}

// Answers how many nodes have this standing.
pub fn nodes_with(pool: &[u32], standing: Standing) -> u32 {
    all_words(pool)
        .iter()
        .filter(|words| Node::from(*words).standing == standing as u32)
        .count() as u32
}

// Answers whether just the retired nodes have holders, and only slots of these, a bit each.
pub fn all_holders_right(pool: &[u32], reading: u32) -> bool {
    all_words(pool)
        .iter()
        .all(|words| Node::from(words).holders_right(reading))
}

// Pairs of nodes, of the pool and of the tree, in the order in which they are compared.
type Pairs = ArrayVec<(u32, u32), PAIRS>;

// Adds a pair, unless there is no node or no room.
fn add_pair(pairs: &mut Pairs, a: u32, b: u32) {
    if (a != NIL) && !pairs.is_full() {
        pairs.push((a, b));
    }
}

// Walks both trees together, level by level. Answers how many nodes were the same, none if any differed.
pub fn same_nodes(pool: &[u32], root: u32, tree: &Tree) -> Option<u32> {
    let mut queue = Pairs::new();
    add_pair(&mut queue, root, tree.root());
    for head in 0..PAIRS {
        let Some((a, b)) = queue.as_slice().get(head).copied() else {
            return Some(head as u32);
        };
        let node = Node::at(pool, a);
        if !node.same_as(tree, b) {
            return None;
        }
        add_pair(&mut queue, node.left, tree.left(b));
        add_pair(&mut queue, node.right, tree.right(b));
    }
    Some(PAIRS as u32)
}

// Notes as many nodes of the free queue as there is room for, from this one on; 0 past its end.
pub fn note_queue(pool: &[u32], first: u32, queue: &mut [u32]) {
    let mut n = first;
    for place in queue {
        *place = n;
        n = Node::at(pool, n).next;
    }
}

// Answers how many places of the keys have a node just taken, of the same place in the queue, with their key and record.
pub fn taken_nodes(pool: &[u32], queue: &[u32], keys: &[u32], records: &[u64]) -> u32 {
    let places = queue.iter().zip(keys.iter().zip(records));
    let taken = places.filter(|(n, (k, v))| Node::at(pool, **n).is_taken(**k, **v));
    u32::try_from(taken.count()).unwrap_or(u32::MAX)
}
