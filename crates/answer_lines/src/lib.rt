// The lines that the program trace prints: the text of an answer.
#![tactic(auto)]

ghost use Rattle.std.specs.Prelude.{◌≡◌, [], ◌∷◌, ◌++◌, ◌≤◌, ◌+◌, length};
ghost use Rattle.spec.specs.Calls.{accepts, writer_says, reader_says};
ghost use Rattle.texts.specs.Ascii.{tab, text};
ghost use Rattle.texts.specs.Decimal.{decimal};
ghost use Rattle.texts.specs.Put.{Put};
ghost use Rattle.texts.specs.Line.{line, room};
ghost use Rattle.answer_lines.specs.Text.{letter_of, link_text, answer_fields, says, line_of, bad_line};

use command_fields::Command;
use datatypes::{Acceptance, Link, ReaderAnswer, Refusal, WriterAnswer};

// What a call answers: the cases of Answer (crate spec, Calls).
#[derive(Clone, Copy)]
pub enum Said {
    Ok,
    Go,
    Absent,
    Wait,
    Found(u64),
    Next(u32, u64),
    More(Link, u32),
    Done(Link, u32),
    No(Refusal),
}

impl From<Acceptance> for Said {
    ghost from_gives = { λ a said. says said ≡ accepts a };

    fn from(a: Acceptance) -> Said {
        match a {
            Ok(()) => Said::Ok,
            Err(why) => Said::No(why),
        }
    }
}

impl From<WriterAnswer> for Said {
    ghost from_gives = { λ a said. says said ≡ writer_says a };

    fn from(a: WriterAnswer) -> Said {
        match a {
            WriterAnswer::More(l, n) => Said::More(l, n),
            WriterAnswer::Done(l, n) => Said::Done(l, n),
            WriterAnswer::Wait => Said::Wait,
            WriterAnswer::Refused(why) => Said::No(why),
        }
    }
}

impl From<ReaderAnswer> for Said {
    ghost from_gives = { λ a said. says said ≡ reader_says a };

    fn from(a: ReaderAnswer) -> Said {
        match a {
            ReaderAnswer::Go => Said::Go,
            ReaderAnswer::Found(v) => Said::Found(v),
            ReaderAnswer::Next(k, v) => Said::Next(k, v),
            ReaderAnswer::Absent => Said::Absent,
            ReaderAnswer::Refused(why) => Said::No(why),
        }
    }
}

// Answers a command's letter in its line.
pub fn letter_of(c: Command) -> u8
    ensures { result ≡ letter_of c }
{
    match c {
        Command::SetUp(_) => b'P',
        Command::Insert(_, _) => b'I',
        Command::Delete(_) => b'D',
        Command::Write => b'W',
        Command::Begin(_, _) => b'B',
        Command::BeginNext(_, _) => b'S',
        Command::Turn(_) => b'R',
        Command::GiveUp(_) => b'E',
        Command::Show => b'T',
        Command::Page => b'L',
    }
}

// Each writer below puts its text into out from position at on and answers the next position, as those of texts do.
// kept: a buffer with a position beside it: the one that page::put_sheet fills, whose form README names.

// a node's link, its side as `.L` or `.R`
#[tactic(auto, using(texts::proofs::Fields::fields))]
fn side_field(out: &mut [u8], at: usize, n: u32, side: &[u8]) -> usize
    requires { at + 11 + length side.now ≤ length out.old }
    ensures put { Put out.old at ((decimal n ++ side.now) ++ (tab ∷ [])) out.new result }
    ensures upper_bound { result ≤ at + 11 + length side.now }
{
    let next = texts::put_number(out, at, n as u64);
    texts::text_field(out, next, side, texts::TAB)
}

#[tactic(auto, using(texts::proofs::Fields::fields), unfolding(crate::specs::Text::link_text))]
fn link_field(out: &mut [u8], at: usize, l: Link) -> usize
    requires { at + 13 ≤ length out.old }
    ensures put { Put out.old at (link_text l ++ (tab ∷ [])) out.new result }
    ensures upper_bound { result ≤ at + 13 }
{
    match l {
        Link::Root => texts::text_field(out, at, b"root", texts::TAB),
        Link::Left(n) => side_field(out, at, n, b".L"),
        Link::Right(n) => side_field(out, at, n, b".R"),
    }
}

// An answer's fields: a word with two unused ones, with a number in the last, with two numbers, and with a link and its new node.
#[tactic(auto, using(texts::proofs::Fields::fields))]
fn plain(out: &mut [u8], at: usize, word: &[u8]) -> usize
    requires { at + length word.now + 5 ≤ length out.old }
    ensures { Put out.old at (line (word.now ∷ text "-" ∷ text "-" ∷ [])) out.new result }
{
    let link = texts::text_field(out, at, word, texts::TAB);
    let last = texts::text_field(out, link, b"-", texts::TAB);
    texts::text_field(out, last, b"-", texts::NEWLINE)
}

#[tactic(auto, using(texts::proofs::Fields::fields))]
fn numbered(out: &mut [u8], at: usize, word: &[u8], n: u64) -> usize
    requires { at + length word.now + 24 ≤ length out.old }
    ensures { Put out.old at (line (word.now ∷ text "-" ∷ decimal n ∷ [])) out.new result }
{
    let link = texts::text_field(out, at, word, texts::TAB);
    let last = texts::text_field(out, link, b"-", texts::TAB);
    texts::number_field(out, last, n, texts::NEWLINE)
}

#[tactic(auto, using(texts::proofs::Fields::fields))]
fn ticket(out: &mut [u8], at: usize, word: &[u8], k: u32, v: u64) -> usize
    requires { at + length word.now + 33 ≤ length out.old }
    ensures { Put out.old at (line (word.now ∷ decimal k ∷ decimal v ∷ [])) out.new result }
{
    let key = texts::text_field(out, at, word, texts::TAB);
    let last = texts::number_field(out, key, k as u64, texts::TAB);
    texts::number_field(out, last, v, texts::NEWLINE)
}

#[tactic(auto, using(texts::proofs::Fields::fields))]
fn linked(out: &mut [u8], at: usize, word: &[u8], l: Link, n: u32) -> usize
    requires { at + length word.now + 25 ≤ length out.old }
    ensures { Put out.old at (line (word.now ∷ link_text l ∷ decimal n ∷ [])) out.new result }
{
    let link = texts::text_field(out, at, word, texts::TAB);
    let last = link_field(out, link, l);
    texts::number_field(out, last, n as u64, texts::NEWLINE)
}

// an answer's fields, to the line's end
fn put_said(out: &mut [u8], at: usize, a: Said) -> usize
    requires { at + 38 ≤ length out.old }
    ensures { Put out.old at (line (answer_fields (says a))) out.new result }
{
    match a {
        Said::Ok => plain(out, at, b"ok"),
        Said::Go => plain(out, at, b"go"),
        Said::Absent => plain(out, at, b"absent"),
        Said::Wait => plain(out, at, b"wait"),
        Said::Found(v) => numbered(out, at, b"found", v),
        Said::Next(k, v) => ticket(out, at, b"found", k, v),
        Said::More(l, n) => linked(out, at, b"more", l, n),
        Said::Done(l, n) => linked(out, at, b"done", l, n),
        Said::No(why) => numbered(out, at, b"no", u32::from(why) as u64),
    }
}

// Writes the line of a call: its number, its letter and its answer. Each line of trace asks for room enough for any of them.
#[tactic(auto, using(texts::proofs::Fields::fields))]
pub fn write_line(out: &mut [u8], at: usize, number: u64, letter: u8, a: Said) -> usize
    requires { at + room ≤ length out.old }
    ensures { Put out.old at (line_of number letter (says a)) out.new result }
{
    let second = texts::number_field(out, at, number, texts::TAB);
    let end = texts::put_byte(out, second, letter);
    let third = texts::put_byte(out, end, texts::TAB);
    put_said(out, third, a)
}

// Writes the line of an ill-formed command.
#[tactic(auto, using(texts::proofs::Fields::fields), unfolding(crate::specs::Text::bad_line))]
pub fn write_bad(out: &mut [u8], at: usize, number: u64) -> usize
    requires { at + room ≤ length out.old }
    ensures { Put out.old at (bad_line number) out.new result }
{
    let second = texts::number_field(out, at, number, texts::TAB);
    let third = texts::text_field(out, second, b"-", texts::TAB);
    plain(out, third, b"bad")
}
