// The line that the program trace prints of a node.
#![tactic(auto)]

ghost use Rattle.std.specs.Prelude.{[], ◌∷◌, ◌++◌, ◌≤◌, ◌+◌, length};
ghost use Rattle.texts.specs.Ascii.{tab};
ghost use Rattle.texts.specs.Decimal.{decimal};
ghost use Rattle.texts.specs.Put.{Put};
ghost use Rattle.texts.specs.Line.{room};
ghost use Rattle.node_lines.specs.Shown.{node_shown};

// three numbers, each with the byte that ends its field
// kept: a buffer with a position beside it: the one that page::put_sheet fills, whose form README names.
#[tactic(auto, using(texts::proofs::Fields::fields))]
fn put_three(out: &mut [u8], at: usize, a: u32, b: u32, c: u64, end: u8) -> usize
    requires { at + 43 ≤ length out.old }
    ensures put { Put out.old at (decimal a ++ (tab ∷ decimal b ++ (tab ∷ decimal c ++ (end ∷ [])))) out.new result }
    ensures upper_bound { result ≤ at + 43 }
{
    let second = texts::number_field(out, at, a as u64, texts::TAB);
    let third = texts::number_field(out, second, b as u64, texts::TAB);
    texts::number_field(out, third, c, end)
}

// Writes T's line of a node, if it is linked.
#[tactic(auto, using(crate::specs::Shown::put_six), unfolding(crate::specs::Shown::node_shown, crate::specs::Shown::node_line))]
pub fn write_node(out: &mut [u8], at: usize, pool: &[u32], n: u32) -> usize
    requires { at + room ≤ length out.old }
    ensures { Put out.old at (node_shown pool.now n) out.new result }
{
    if pool::word(pool, n, pool::STANDING) != pool::LINKED {
        return at;
    }
    let key = pool::word(pool, n, pool::KEY);
    let record = pool::record(pool, n);
    let colour = pool::word(pool, n, pool::COLOUR);
    let left = pool::word(pool, n, pool::LEFT);
    let right = pool::word(pool, n, pool::RIGHT);
    let fourth = put_three(out, at, n, key, record, texts::TAB);
    put_three(out, fourth, colour, left, right as u64, texts::NEWLINE)
}
