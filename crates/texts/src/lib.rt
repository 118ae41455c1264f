// Text as bytes: a number and a word put into a buffer, with the byte that ends its field.
#![tactic(auto)]

ghost use Rattle.std.specs.Prelude.{◌≡◌, [], ◌∷◌, ◌++◌, ◌≤◌, ◌<◌, ◌+◌, length, replicate};
ghost use Rattle.texts.specs.Put.{Put};
ghost use Rattle.texts.specs.Ascii.{blank};
ghost use Rattle.texts.specs.Decimal.{decimal, two};
ghost use Rattle.texts.specs.Column.{right_in, Blanks};

pub const TAB: u8 = b'\t';

pub const NEWLINE: u8 = b'\n';

const BLANK: u8 = b' ';

// Each writer below puts its text into out from position at on and answers the next position (specs, Put); the caller sees to the room.
// kept: a buffer with a position beside it, since README names put_page and put_sheet in this form.

// Puts one byte.
pub fn put_byte(out: &mut [u8], at: usize, b: u8) -> usize
    requires { at < length out.old }
    ensures { Put out.old at (b ∷ []) out.new result }
{
    out[at] = b;
    at + 1
}

// two digits; a number of at most two, and of at most four
fn put_two(out: &mut [u8], at: usize, n: u64) -> usize
    requires { (n < 100) × (at + 2 ≤ length out.old) }
    ensures { Put out.old at (two n) out.new result }
{
    let next = put_byte(out, at, b'0' + (n / 10) as u8);
    put_byte(out, next, b'0' + (n % 10) as u8)
}

#[tactic(auto, using(crate::proofs::Digits::number_digits))]
fn put_low(out: &mut [u8], at: usize, n: u64) -> usize
    requires { (n < 100) × (at + length (decimal n) ≤ length out.old) }
    ensures { Put out.old at (decimal n) out.new result }
{
    if n < 10 {
        return put_byte(out, at, b'0' + n as u8);
    }
    put_two(out, at, n)
}

#[tactic(auto, using(crate::proofs::Digits::number_digits))]
fn put_small(out: &mut [u8], at: usize, n: u64) -> usize
    requires { (n < 10000) × (at + length (decimal n) ≤ length out.old) }
    ensures { Put out.old at (decimal n) out.new result }
{
    if n < 100 {
        return put_low(out, at, n);
    }
    let next = put_low(out, at, n / 100);
    put_two(out, next, n % 100)
}

// Puts a number in base ten, its high digits first, four at a time.
#[tactic(auto, using(crate::proofs::Digits::number_digits))]
pub fn put_number(out: &mut [u8], at: usize, n: u64) -> usize
    requires { at + length (decimal n) ≤ length out.old }
    ensures { Put out.old at (decimal n) out.new result }
{
    if n < 10000 {
        return put_small(out, at, n);
    }
    let high = put_number(out, at, n / 10000);
    let next = put_two(out, high, n / 100 % 100);
    put_two(out, next, n % 100)
}

fn put_text(out: &mut [u8], at: usize, s: &[u8]) -> usize
    requires { at + length s.now ≤ length out.old }
    ensures { Put out.old at s.now out.new result }
{
    let end = at + s.len();
    out[at..end].copy_from_slice(s);
    end
}

// Puts a number and the byte that ends its field.
pub fn number_field(out: &mut [u8], at: usize, n: u64, end: u8) -> usize
    requires { at + length (decimal n) < length out.old }
    ensures { Put out.old at (decimal n ++ (end ∷ [])) out.new result }
{
    let next = put_number(out, at, n);
    put_byte(out, next, end)
}

// Puts a text and the byte that ends its field.
pub fn text_field(out: &mut [u8], at: usize, s: &[u8], end: u8) -> usize
    requires { at + length s.now < length out.old }
    ensures { Put out.old at (s.now ++ (end ∷ [])) out.new result }
{
    let next = put_text(out, at, s);
    put_byte(out, next, end)
}

fn put_blanks(out: &mut [u8], at: usize, count: usize) -> usize
    requires { at + count ≤ length out.old }
    ensures { Put out.old at (replicate count blank) out.new result }
{
    let end = at + count;
    out[at..end].fill(BLANK);
    end
}

// a number's digits over the blanks of a column, from its right end
fn put_digits(out: &mut [u8], at: usize, width: usize, n: u64) -> usize
    requires { (at + width ≤ length out.old) × Blanks out.old at width }
    ensures { Put out.old at (right_in width (decimal n)) out.new result }
{
    let end = at + width;
    let mut v = n;
    for i in (at..end).rev() {
        out[i] = b'0' + (v % 10) as u8;
        if v < 10 {
            return end;
        }
        v /= 10;
    }
    end
}

// Puts a gap of blanks and a number right-aligned in the width after it.
#[tactic(auto, using(crate::proofs::Column::widths))]
pub fn put_right(out: &mut [u8], at: usize, gap: usize, width: usize, n: u64) -> usize
    requires { at + (gap + width) ≤ length out.old }
    ensures put { Put out.old at (replicate gap blank ++ right_in width (decimal n)) out.new result }
    ensures value { result ≡ at + (gap + width) }
{
    put_blanks(out, at, gap + width);
    put_digits(out, at + gap, width, n)
}
