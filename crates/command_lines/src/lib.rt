// A line of the program trace as a command, read field by field.
#![tactic(auto)]

ghost use Rattle.std.specs.Prelude.{◌≡◌, ◌==◌, ◌≤◌, length, position};
ghost use Rattle.texts.specs.Ascii.{newline};
ghost use Rattle.command_lines.specs.declared.Reading.TheVariants.{Fresh, Letter, One, Two, Ill};
ghost use Rattle.command_lines.specs.Machine.{finished};
ghost use Rattle.command_lines.specs.Cut.{cut_from, Onward, Ends};

use command_fields::{Command, Field};

// A line so far: no byte, its letter, one field or two after it, or what can't become a command.
#[derive(Clone, Copy)]
pub enum Reading {
    Fresh,
    Letter(u8),
    One(u8, Field),
    Two(u8, Field, Field),
    Ill,
}

// Answers a line of which no byte has been read.
pub fn start() -> Reading
    ensures { result ≡ Fresh }
{
    Reading::Fresh
}

// a letter with one field, and with two
fn one_read(l: u8, f: Field) -> Option<Command>
    ensures { result ≡ finished (One l f) }
{
    match f {
        Field::Number(a) => command_fields::with_one(l, a),
        _ => None,
    }
}

fn two_read(l: u8, f: Field, g: Field) -> Option<Command>
    ensures { result ≡ finished (Two l f g) }
{
    match (f, g) {
        (Field::Number(a), Field::Number(b)) => command_fields::with_two(l, a, b),
        _ => None,
    }
}

// What the input gives up to its next newline or its end: a whole line's command, none if it is ill-formed, or the line so far;
// and the position after it.
#[derive(Clone, Copy)]
pub enum Piece {
    Whole(Option<Command>),
    Part(Reading),
}

#[derive(Clone, Copy)]
pub struct Scanned {
    pub piece: Piece,
    pub next: usize,
}

// A field, and the position of the byte that ends it.
#[derive(Clone, Copy)]
struct Passed {
    field: Field,
    next: usize,
}

// a field's bytes, up to a tab, a newline or the input's end
// kept: an input with a place in it; the definitions (Cut) and the theorems go by that place.
#[tactic(auto, using(crate::proofs::Cuts::onward))]
fn field_on(input: &[u8], from: usize, f: Field) -> Passed
    requires { from ≤ length input.now }
    ensures onward { Onward input.now f from result.field result.next }
    ensures ends { Ends input.now result.next }
{
    let mut field = f;
    for i in from..input.len() {
        let b = input[i];
        if b == texts::TAB || b == texts::NEWLINE {
            return Passed { field, next: i };
        }
        field = command_fields::field_taken(field, b);
    }
    Passed {
        field,
        next: input.len(),
    }
}

// where the next newline stands among these bytes
fn newline_in(bytes: &[u8]) -> Option<usize>
    ensures { result ≡ position (λ b. b == newline) bytes.now }
{
    bytes.iter().position(|b| *b == texts::NEWLINE)
}

// What the input gives after each reading.
fn ill_on(input: &[u8], from: usize) -> Scanned
    requires { from ≤ length input.now }
    ensures { result ≡ cut_from input.now from Ill }
{
    match newline_in(&input[from..]) {
        Some(k) => Scanned {
            piece: Piece::Whole(None),
            next: from + k + 1,
        },
        None => Scanned {
            piece: Piece::Part(Reading::Ill),
            next: input.len(),
        },
    }
}

#[tactic(auto, using(crate::proofs::Cuts::cuts))]
fn two_on(input: &[u8], from: usize, l: u8, f: Field, g: Field) -> Scanned
    requires { from ≤ length input.now }
    ensures { result ≡ cut_from input.now from (Two l f g) }
{
    let Passed { field, next: i } = field_on(input, from, g);
    if i == input.len() {
        let piece = Piece::Part(Reading::Two(l, f, field));
        return Scanned { piece, next: i };
    }
    if input[i] == texts::NEWLINE {
        let piece = Piece::Whole(two_read(l, f, field));
        return Scanned { piece, next: i + 1 };
    }
    ill_on(input, i + 1)
}

#[tactic(auto, using(crate::proofs::Cuts::cuts))]
fn one_on(input: &[u8], from: usize, l: u8, f: Field) -> Scanned
    requires { from ≤ length input.now }
    ensures { result ≡ cut_from input.now from (One l f) }
{
    let Passed { field, next: i } = field_on(input, from, f);
    if i == input.len() {
        let piece = Piece::Part(Reading::One(l, field));
        return Scanned { piece, next: i };
    }
    if input[i] == texts::NEWLINE {
        let piece = Piece::Whole(one_read(l, field));
        return Scanned { piece, next: i + 1 };
    }
    two_on(input, i + 1, l, field, Field::Empty)
}

#[tactic(auto, using(crate::proofs::Cuts::cuts))]
fn letter_on(input: &[u8], from: usize, l: u8) -> Scanned
    requires { from ≤ length input.now }
    ensures { result ≡ cut_from input.now from (Letter l) }
{
    if from == input.len() {
        let piece = Piece::Part(Reading::Letter(l));
        return Scanned { piece, next: from };
    }
    let b = input[from];
    if b == texts::NEWLINE {
        let piece = Piece::Whole(command_fields::with_none(l));
        return Scanned {
            piece,
            next: from + 1,
        };
    }
    if b == texts::TAB {
        return one_on(input, from + 1, l, Field::Empty);
    }
    ill_on(input, from + 1)
}

#[tactic(auto, using(crate::proofs::Cuts::cuts))]
fn fresh_on(input: &[u8], from: usize) -> Scanned
    requires { from ≤ length input.now }
    ensures { result ≡ cut_from input.now from Fresh }
{
    if from == input.len() {
        let piece = Piece::Part(Reading::Fresh);
        return Scanned { piece, next: from };
    }
    let b = input[from];
    if b == texts::NEWLINE {
        let piece = Piece::Whole(None);
        return Scanned {
            piece,
            next: from + 1,
        };
    }
    if b == texts::TAB {
        return ill_on(input, from + 1);
    }
    letter_on(input, from + 1, b)
}

// Reads on in the line so far, to its end or the input's. By theorem line-read (specs, Cut) a whole line gives the command that document
// 01 makes of its bytes, wherever one input ends and the next begins.
pub fn scan(input: &[u8], from: usize, reading: Reading) -> Scanned
    requires { from ≤ length input.now }
    ensures { result ≡ cut_from input.now from reading }
{
    match reading {
        Reading::Fresh => fresh_on(input, from),
        Reading::Letter(l) => letter_on(input, from, l),
        Reading::One(l, f) => one_on(input, from, l, f),
        Reading::Two(l, f, g) => two_on(input, from, l, f, g),
        Reading::Ill => ill_on(input, from),
    }
}
