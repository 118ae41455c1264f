// Sides and links: the other side, a node's link on a side, the node and the side of a link; the form of a rotation.
#![tactic(auto)]

ghost use Rattle.std.specs.Prelude.{◌≡◌, cond};
ghost use Rattle.datatypes.specs.declared.Form.TheVariants.{Diag, Zig};
ghost use Rattle.datatypes.specs.Side.{other, same_side, link_at, owner, side_of};

use datatypes::{Form, Link, Side};

// Answers the other side.
pub fn other(s: Side) -> Side
    ensures { result ≡ other s }
{
    match s {
        Side::L => Side::R,
        Side::R => Side::L,
    }
}

// Answers node n's link on a side.
pub fn link_at(s: Side, n: u32) -> Link
    ensures { result ≡ link_at s n }
{
    match s {
        Side::L => Link::Left(n),
        Side::R => Link::Right(n),
    }
}

// Answers the node whose link this is, 0 for the root.
pub fn owner(l: Link) -> u32
    ensures { result ≡ owner l }
{
    match l {
        Link::Root => 0,
        Link::Left(n) | Link::Right(n) => n,
    }
}

// Answers the side that a link is on; the root counts as left.
pub fn side_of(l: Link) -> Side
    ensures { result ≡ side_of l }
{
    match l {
        Link::Root | Link::Left(_) => Side::L,
        Link::Right(_) => Side::R,
    }
}

// Answers a diag on the outer side, a zig on the inner one.
pub fn form_of(x: Side, y: Side) -> Form
    ensures { result ≡ cond (same_side x y) Diag Zig }
{
    form_if(x == y)
}

// Answers a diag where the outer child is red, a zig otherwise.
pub fn form_if(outer: bool) -> Form
    ensures { result ≡ cond outer Diag Zig }
{
    if outer { Form::Diag } else { Form::Zig }
}
