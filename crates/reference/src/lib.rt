// A plain sequential red-black tree with parent links and loops: insert after document 000 (appendix A.2), delete after Cormen, Leiserson,
// Rivest and Stein (third edition). The index is compared with it; it uses nothing of the index.
#![tactic(auto)]

ghost use Rattle.std.specs.Prelude.{◌<◌};

// the nodes of a tree, nil among them
const NODES: usize = 1024;

// Node 0 is nil, the textbook's sentinel: black, without children, and with a parent, which delete needs.
pub const NIL: u32 = 0;

// No loop down or up a tree makes more turns.
const BOUND: u32 = 64;

// no tree of a list has more levels
const MOST_LEVELS: u32 = 10;

#[derive(Clone, Copy, PartialEq, Eq)]
pub enum Colour {
    Black,
    Red,
}

// the form of a delete: at most one child; two children, and the right one without a left child; any other
#[derive(Clone, Copy, PartialEq, Eq)]
pub enum DeleteForm {
    OneChild,
    NextIsChild,
    Other,
}

#[derive(Clone, Copy, PartialEq, Eq)]
enum Side {
    Left,
    Right,
}

impl Side {
    fn other(self) -> Side {
        match self {
            Side::Left => Side::Right,
            Side::Right => Side::Left,
        }
    }
}

#[derive(Clone, Copy)]
struct Node {
    key: u32,
    record: u64,
    left: u32,
    right: u32,
    parent: u32,
    colour: Colour,
}

const BLANK: Node = Node {
    key: 0,
    record: 0,
    left: NIL,
    right: NIL,
    parent: NIL,
    colour: Colour::Black,
};

// one more
fn count(n: &mut u32) {
    *n = n.saturating_add(1);
}

// kept: a node is named by its number, and not by a reference: there is no heap, and the children and parents of a tree make rings.
// A node past the last one reads as a blank one, and setting it changes nothing.
#[derive(Drop)]
pub struct Tree {
    nodes: [Node; NODES],
    root: u32,
    held: u32,
    // the first free node; free nodes hang together by their left links
    free: u32,
    // rotations since the last write began
    singles: u32,
    doubles: u32,
    // loops that ran out
    overruns: u32,
}

impl Tree {
    // Answers an empty tree.
    pub fn new() -> Tree {
        let mut nodes = [BLANK; NODES];
        for n in 1..NODES - 1 {
            nodes[n].left = n as u32 + 1;
        }
        Tree {
            nodes,
            root: NIL,
            held: 0,
            free: 1,
            singles: 0,
            doubles: 0,
            overruns: 0,
        }
    }

    // Makes the tree empty.
    pub fn clear(&mut self) {
        *self = Tree::new();
    }

    // Answers the root's node.
    pub fn root(&self) -> u32 {
        self.root
    }

    // Answers how many keys are held.
    pub fn held(&self) -> u32 {
        self.held
    }

    // Answers how many single rotations the last write made.
    pub fn single_rotations(&self) -> u32 {
        self.singles
    }

    // Answers how many double rotations the last write made.
    pub fn double_rotations(&self) -> u32 {
        self.doubles
    }

    // Answers how many loops ran out.
    pub fn overruns(&self) -> u32 {
        self.overruns
    }

    // Answers a node's key.
    pub fn key(&self, n: u32) -> u32 {
        self.node(n).key
    }

    // Answers a node's record.
    pub fn record(&self, n: u32) -> u64 {
        self.node(n).record
    }

    // Answers a node's left child.
    pub fn left(&self, n: u32) -> u32 {
        self.node(n).left
    }

    // Answers a node's right child.
    pub fn right(&self, n: u32) -> u32 {
        self.node(n).right
    }

    // Answers a node's colour.
    pub fn colour(&self, n: u32) -> Colour {
        self.node(n).colour
    }

    fn parent(&self, n: u32) -> u32 {
        self.node(n).parent
    }

    fn node(&self, n: u32) -> Node {
        self.nodes.get(n as usize).copied().unwrap_or(BLANK)
    }

    fn node_mut(&mut self, n: u32) -> Option<&mut Node> {
        self.nodes.get_mut(n as usize)
    }

    fn set_colour(&mut self, n: u32, c: Colour) {
        if let Some(node) = self.node_mut(n) {
            node.colour = c;
        }
    }

    fn set_record(&mut self, n: u32, v: u64) {
        if let Some(node) = self.node_mut(n) {
            node.record = v;
        }
    }

    fn set_parent(&mut self, n: u32, p: u32) {
        if let Some(node) = self.node_mut(n) {
            node.parent = p;
        }
    }

    fn child(&self, n: u32, side: Side) -> u32 {
        match side {
            Side::Left => self.left(n),
            Side::Right => self.right(n),
        }
    }

    fn set_child(&mut self, n: u32, side: Side, c: u32) {
        if let Some(node) = self.node_mut(n) {
            match side {
                Side::Left => node.left = c,
                Side::Right => node.right = c,
            }
        }
    }

    // the side of its parent on which a node stands
    fn side_of(&self, n: u32) -> Side {
        if self.left(self.parent(n)) == n {
            Side::Left
        } else {
            Side::Right
        }
    }

    // the side of a node on which a key belongs that the node does not hold
    fn side_for(&self, n: u32, k: u32) -> Side {
        if k < self.key(n) {
            Side::Left
        } else {
            Side::Right
        }
    }

    // 000's Left-Child and Right-Child: c becomes the child of p. Nil's parent stays: delete needs it.
    fn link(&mut self, p: u32, side: Side, c: u32) {
        if c != NIL {
            self.set_parent(c, p);
        }
        self.set_child(p, side, c);
    }

    // Transplant: c takes n's place below n's parent, or as the root.
    fn transplant(&mut self, n: u32, c: u32) {
        let above = self.parent(n);
        if above == NIL {
            self.root = c;
        } else {
            self.set_child(above, self.side_of(n), c);
        }
        self.set_parent(c, above);
    }

    // The child of top on the other side rises, and top goes down on this side.
    fn rotate(&mut self, top: u32, side: Side) {
        let risen = self.child(top, side.other());
        let inner = self.child(risen, side);
        self.transplant(top, risen);
        self.link(risen, side, top);
        self.link(top, side.other(), inner);
    }

    fn paint(&mut self, black: u32, red: u32) {
        self.set_colour(black, Colour::Black);
        self.set_colour(red, Colour::Red);
    }

    // Answers the node that holds a key.
    pub fn find(&mut self, k: u32) -> Option<u32> {
        let mut node = self.root;
        for _ in 0..BOUND {
            if node == NIL {
                return None;
            }
            if self.key(node) == k {
                return Some(node);
            }
            node = self.child(node, self.side_for(node, k));
        }
        count(&mut self.overruns);
        None
    }

    // the node below which a key that is not held would stand, nil in an empty tree
    fn last_on_path(&mut self, k: u32) -> u32 {
        let mut above = NIL;
        let mut node = self.root;
        for _ in 0..BOUND {
            if node == NIL {
                return above;
            }
            above = node;
            node = self.child(node, self.side_for(node, k));
        }
        count(&mut self.overruns);
        above
    }

    // takes a free node, fills it, and hangs it below the last node of its path
    fn add_leaf(&mut self, k: u32, v: u64, c: Colour) -> u32 {
        let above = self.last_on_path(k);
        let leaf = self.free;
        self.free = self.left(leaf);
        if let Some(node) = self.node_mut(leaf) {
            *node = Node {
                key: k,
                record: v,
                left: NIL,
                right: NIL,
                parent: above,
                colour: c,
            };
        }
        if above == NIL {
            self.root = leaf;
        } else {
            self.set_child(above, self.side_for(above, k), leaf);
        }
        count(&mut self.held);
        leaf
    }

    // Lines 29 to 41 of Add, and their mirror image: the node stands on the outer side. The grandparent's own parent is read before the
    // grandparent moves, as in 000's appendix B; appendix A reads it afterwards.
    fn raise_parent(&mut self, above: u32, grandparent: u32, side: Side) {
        let sister = self.child(above, side.other());
        self.paint(above, grandparent);
        self.transplant(grandparent, above);
        self.link(above, side.other(), grandparent);
        self.link(grandparent, side, sister);
        count(&mut self.singles);
    }

    // Lines 43 to 58 of Add, and their mirror image: the node stands on the inner side.
    fn raise_node(&mut self, node: u32, grandparent: u32, side: Side) {
        let above = self.parent(node);
        let same = self.child(node, side);
        let opposite = self.child(node, side.other());
        self.paint(node, grandparent);
        self.transplant(grandparent, node);
        self.link(node, side, above);
        self.link(node, side.other(), grandparent);
        self.link(above, side.other(), same);
        self.link(grandparent, side, opposite);
        count(&mut self.doubles);
    }

    // One turn of Add's loop, for a node below a red parent: the node to go on from, none after a rotation. (000 by the letter goes on after
    // a double rotation too, from the black top, and then breaks the tree.)
    fn add_turn(&mut self, node: u32) -> Option<u32> {
        let above = self.parent(node);
        let grandparent = self.parent(above);
        let side = self.side_of(above);
        let aunt = self.child(grandparent, side.other());
        if self.colour(aunt) == Colour::Red {
            self.paint(aunt, grandparent);
            self.set_colour(above, Colour::Black);
            return Some(grandparent);
        }
        if self.side_of(node) == side {
            self.raise_parent(above, grandparent, side);
        } else {
            self.raise_node(node, grandparent, side);
        }
        None
    }

    fn add_fixup(&mut self, start: u32) {
        let mut node = start;
        for _ in 0..BOUND {
            if self.colour(self.parent(node)) == Colour::Black {
                return;
            }
            match self.add_turn(node) {
                Some(next) => node = next,
                None => return,
            }
        }
        count(&mut self.overruns);
    }

    fn begin_write(&mut self) {
        self.singles = 0;
        self.doubles = 0;
    }

    // Inserts a key with its record; a held key's record is overwritten.
    pub fn insert(&mut self, k: u32, v: u64) {
        self.begin_write();
        if let Some(node) = self.find(k) {
            self.set_record(node, v);
            return;
        }
        let leaf = self.add_leaf(k, v, Colour::Red);
        self.add_fixup(leaf);
        self.set_colour(self.root, Colour::Black);
    }

    // the leftmost node from a node on
    fn minimum(&mut self, start: u32) -> u32 {
        let mut node = start;
        for _ in 0..BOUND {
            let next = self.left(node);
            if next == NIL {
                return node;
            }
            node = next;
        }
        count(&mut self.overruns);
        node
    }

    // gives back a node that is out of the tree
    fn free_node(&mut self, node: u32) {
        self.set_child(node, Side::Left, self.free);
        self.free = node;
        self.held = self.held.saturating_sub(1);
    }

    // case 1, if the sibling is red: it rises
    fn first_case(&mut self, p: u32, side: Side) {
        let w = self.child(p, side.other());
        if self.colour(w) == Colour::Red {
            self.paint(w, p);
            self.rotate(p, side);
            count(&mut self.singles);
        }
    }

    // Case 3 of RB-Delete-Fixup, if the sibling's outer child is black: its inner child rises.
    fn third_case(&mut self, p: u32, side: Side) {
        let w = self.child(p, side.other());
        if self.colour(self.child(w, side.other())) == Colour::Black {
            self.paint(self.child(w, side), w);
            self.rotate(w, side.other());
            count(&mut self.doubles);
        } else {
            count(&mut self.singles);
        }
    }

    // case 4: the sibling's outer child is red
    fn fourth_case(&mut self, p: u32, side: Side) {
        let w = self.child(p, side.other());
        let outer = self.child(w, side.other());
        self.set_colour(w, self.colour(p));
        self.set_colour(p, Colour::Black);
        self.set_colour(outer, Colour::Black);
        self.rotate(p, side);
    }

    // case 2, the sibling has no red child, or cases 3 and 4: the next x
    fn later_cases(&mut self, p: u32, side: Side) -> u32 {
        let w = self.child(p, side.other());
        if self.colour(self.left(w)) == Colour::Black
            && self.colour(self.right(w)) == Colour::Black
        {
            self.set_colour(w, Colour::Red);
            return p;
        }
        self.third_case(p, side);
        self.fourth_case(p, side);
        self.root
    }

    fn delete_fixup(&mut self, start: u32) {
        let mut x = start;
        for _ in 0..BOUND {
            if x == self.root || self.colour(x) == Colour::Red {
                self.set_colour(x, Colour::Black);
                return;
            }
            let p = self.parent(x);
            let side = self.side_of(x);
            self.first_case(p, side);
            x = self.later_cases(p, side);
        }
        count(&mut self.overruns);
    }

    // RB-Delete of a node with at most one child, x
    fn splice_out(&mut self, z: u32, x: u32) {
        let lost = self.colour(z);
        self.transplant(z, x);
        self.free_node(z);
        if lost == Colour::Black {
            self.delete_fixup(x);
        }
    }

    // The successor y leaves its place to its right child x, unless it is z's right child `below` itself.
    fn leave_place(&mut self, y: u32, x: u32, below: u32) {
        if y == below {
            self.set_parent(x, y);
        } else {
            self.transplant(y, x);
            self.link(y, Side::Right, below);
        }
    }

    // Then it goes where z is.
    fn take_place(&mut self, y: u32, z: u32) {
        let below = self.left(z);
        let c = self.colour(z);
        self.transplant(z, y);
        self.link(y, Side::Left, below);
        self.set_colour(y, c);
    }

    // RB-Delete of a node with two children: the successor's node is moved up.
    fn move_up(&mut self, z: u32) {
        let below = self.right(z);
        let y = self.minimum(below);
        let x = self.right(y);
        let lost = self.colour(y);
        self.leave_place(y, x, below);
        self.take_place(y, z);
        self.free_node(z);
        if lost == Colour::Black {
            self.delete_fixup(x);
        }
    }

    // Deletes a key that is held.
    pub fn delete(&mut self, k: u32) {
        self.begin_write();
        let Some(z) = self.find(k) else {
            return;
        };
        if self.left(z) == NIL {
            self.splice_out(z, self.right(z));
        } else if self.right(z) == NIL {
            self.splice_out(z, self.left(z));
        } else {
            self.move_up(z);
        }
    }

    // Answers the form of a delete; nil is the node of a key that is not held.
    pub fn delete_form(&mut self, k: u32) -> DeleteForm {
        let z = self.find(k).unwrap_or(NIL);
        if self.left(z) == NIL || self.right(z) == NIL {
            return DeleteForm::OneChild;
        }
        if self.left(self.right(z)) == NIL {
            return DeleteForm::NextIsChild;
        }
        DeleteForm::Other
    }

    // Puts a sorted list of keys with their records into an empty tree (document 02, C-24), level by level. A level is black if the list has
    // as many keys as a tree that is full to this level.
    pub fn put_list(&mut self, keys: &[u32], records: &[u64]) {
        self.begin_write();
        for level in 1..=MOST_LEVELS {
            let full = (1usize << level) - 1;
            let colour = if full <= keys.len() {
                Colour::Black
            } else {
                Colour::Red
            };
            self.put_level(keys, records, level, colour);
        }
    }

    fn put_level(&mut self, keys: &[u32], records: &[u64], level: u32, colour: Colour) {
        for (i, (k, v)) in keys.iter().zip(records).enumerate() {
            if level_of(i, keys.len()) == level {
                self.add_leaf(*k, *v, colour);
            }
        }
    }
}

// The level of place i among m places, counted from 0: level 1 is the place with m / 2 places before it, and both sides follow alike.
fn level_of(i: usize, m: usize) -> u32
    requires { i < m }
{
    let mut place = i;
    let mut many = m;
    for level in 1..MOST_LEVELS {
        let half = many / 2;
        if place == half {
            return level;
        }
        if place < half {
            many = half;
        } else {
            place -= half + 1;
            many -= half + 1;
        }
    }
    MOST_LEVELS
}
