// A run of the program trace: lines read from bytes, their commands run on the lent words, and what they print written to a buffer.
#![tactic(auto)]

ghost use Rattle.std.specs.Prelude.{◌≡◌, false, cond, List, ℕ, ◌≤◌, ◌<◌, ◌+◌, ◌-◌, ◌*◌, length};
ghost use Rattle.spec.specs.Numbers.{node_words, pool_limit};
ghost use Rattle.texts.specs.Line.{room};
ghost use Rattle.texts.specs.Put.{PutPart};
ghost use Rattle.command_lines.specs.declared.Reading.TheVariants.{Fresh};
ghost use Rattle.answer_lines.specs.Text.{says};
ghost use Rattle.page.specs.Sheets.{most_sheets, sheet_room};
ghost use Rattle.session.specs.declared.Rest.TheVariants.{Nodes, Sheets};
ghost use Rattle.session.specs.Output.{at_start, next_number, added, output_from};
ghost use Rattle.session.specs.Steps.{begun, pieces, Fits, Sound, rest_of, due, LineRead, Stepped, Answered, work_left, Onward, Prints};

use answer_lines::Said;
use command_fields::Command;
use command_lines::{Piece, Reading};
use datatypes::Register;

// What is still to be written after an answer's line: nothing, so many of the pool's last nodes (T), or so many sheets of the page after the
// line of a rank (L).
#[derive(Clone, Copy)]
pub enum Rest {
    Nothing,
    Nodes(usize),
    Sheets(usize, u64),
}

// What a run keeps beside the register: the words lent (0 before the first accepted P), the calls so far, the line so far, what is still to
// be written, whether an ill-formed line has ended it, and its positions in the input and in the output.
#[derive(Clone, Copy)]
pub struct Session {
    pub lent: usize,
    pub number: u64,
    pub reading: Reading,
    pub rest: Rest,
    pub ended: bool,
    pub from: usize,
    pub at: usize,
}

#[derive(Clone, Copy)]
pub struct Run {
    pub register: Register,
    pub session: Session,
}

// how many pieces, each a node's line or a sheet, are still to be written
fn pieces(rest: Rest) -> usize
    ensures { result ≡ pieces rest }
{
    match rest {
        Rest::Nothing => 0,
        Rest::Nodes(k) | Rest::Sheets(k, _) => k,
    }
}

// Starts a run: no words lent, no call made, no byte read.
#[tactic(auto, unfolding(crate::specs::Steps::due))]
pub fn start() -> Run
    ensures sound { Sound result.session × (result.session.from ≡ 0) × (result.session.at ≡ 0) }
    ensures by_index { (words later : List ℕ) → due words result.register result.session later ≡ output_from (at_start words) Fresh later }
{
    let session = Session {
        lent: 0,
        number: 0,
        reading: command_lines::start(),
        rest: Rest::Nothing,
        ended: false,
        from: 0,
        at: 0,
    };
    Run {
        register: fresh::fresh_register(0),
        session,
    }
}

// the number of the call after so many
#[tactic(auto, unfolding(crate::specs::Output::next_number))]
fn next_number(number: u64) -> u64
    ensures { result ≡ next_number number }
{
    number.saturating_add(1)
}

// what is to be written after a command's answer
fn to_write(pool: &[u32], c: Command, said: Said) -> Rest
    requires { length pool.now ≤ pool_limit }
    ensures fits { Fits (length pool.now) result }
    ensures result_value { rest_of pool.now result ≡ added pool.now c (says said) }
{
    match (said, c) {
        (Said::Ok, Command::Show) => Rest::Nodes(pool.len() / numbers::NODE_WORDS),
        (Said::Ok, Command::Page) => Rest::Sheets(page::sheets(pool), 0),
        _ => Rest::Nothing,
    }
}

// A piece written: the position after it, and what is still to be written.
#[derive(Clone, Copy)]
struct Written {
    next: usize,
    rest: Rest,
}

// the line of the next node that T has to show
fn put_node(pool: &[u32], out: &mut [u8], at: usize, nodes: usize) -> Written
    requires pool_len { (length pool.now ≤ pool_limit) × (nodes * node_words ≤ length pool.now) × (0 < nodes) }
    requires room { at + sheet_room ≤ length out.old }
    ensures fits { Fits (length pool.now) result.rest × (pieces result.rest ≡ nodes - 1) }
    ensures put_part { PutPart out.old at (rest_of pool.now (Nodes nodes)) out.new result.next (rest_of pool.now result.rest) }
{
    let node = pool.len() / numbers::NODE_WORDS - nodes + 1;
    Written {
        next: node_lines::write_node(out, at, pool, node as u32),
        rest: Rest::Nodes(nodes - 1),
    }
}

// the next sheet of L's page
fn put_sheet(pool: &[u32], out: &mut [u8], at: usize, sheets: usize, last: u64) -> Written
    requires pool_len { (length pool.now ≤ pool_limit) × (sheets ≤ most_sheets) × (0 < sheets) }
    requires room { at + sheet_room ≤ length out.old }
    ensures fits { Fits (length pool.now) result.rest × (pieces result.rest ≡ sheets - 1) }
    ensures put_part { PutPart out.old at (rest_of pool.now (Sheets sheets last)) out.new result.next (rest_of pool.now result.rest) }
{
    let sheet = page::put_sheet(out, at, pool, last);
    Written {
        next: sheet.next,
        rest: Rest::Sheets(sheets - 1, sheet.last),
    }
}

// the next piece
fn put_piece(pool: &[u32], out: &mut [u8], at: usize, rest: Rest) -> Written
    requires pool_len { (length pool.now ≤ pool_limit) × Fits (length pool.now) rest × (0 < pieces rest) }
    requires room { at + sheet_room ≤ length out.old }
    ensures fits { Fits (length pool.now) result.rest × (pieces result.rest ≡ pieces rest - 1) }
    ensures put_part { PutPart out.old at (rest_of pool.now rest) out.new result.next (rest_of pool.now result.rest) }
{
    match rest {
        Rest::Nothing => Written { next: at, rest },
        Rest::Nodes(k) => put_node(pool, out, at, k),
        Rest::Sheets(k, last) => put_sheet(pool, out, at, k, last),
    }
}

// A step's session, and the command that is to be called next, if there is one.
#[derive(Clone, Copy)]
struct Moved {
    session: Session,
    call: Option<Command>,
}

// a whole line; an ill-formed one ends the run
fn whole_line(out: &mut [u8], s: Session, c: Option<Command>, next: usize) -> Moved
    requires { (s.at + room ≤ length out.old) × (pieces s.rest ≤ 0) }
    ensures { (result.call ≡ c) × LineRead out.old s c next out.new result.session }
{
    let mut session = s;
    session.from = next;
    if c.is_none() {
        session.at = answer_lines::write_bad(out, s.at, next_number(s.number));
        session.ended = true;
    }
    Moved { session, call: c }
}

// the input's next bytes, up to a newline
fn read_line(out: &mut [u8], s: Session, input: &[u8]) -> Moved
    requires sound { Sound s × (s.at + room ≤ length out.old) × (s.from < length input.now) }
    requires rest_bound { (pieces s.rest ≤ 0) × (s.ended ≡ false) }
    ensures { (words : List ℕ) → Stepped input.now words out.old s out.new result.session result.call }
{
    let scanned = command_lines::scan(input, s.from, s.reading);
    match scanned.piece {
        Piece::Whole(c) => whole_line(out, s, c, scanned.next),
        Piece::Part(reading) => Moved {
            session: Session {
                reading,
                from: scanned.next,
                ..s
            },
            call: None,
        },
    }
}

// one step: a piece, or else a line read
fn step(words: &[u32], out: &mut [u8], s: Session, input: &[u8]) -> Moved
    requires sound { Sound s × (length words.now ≡ pool_limit) × (s.at + sheet_room ≤ length out.old) }
    requires from_in_bounds { (s.from ≤ length input.now) × (0 < work_left s (length input.now)) }
    ensures { Stepped input.now words.now out.old s out.new result.session result.call }
{
    if 0 < pieces(s.rest) {
        let written = put_piece(&words[..s.lent], out, s.at, s.rest);
        return Moved {
            session: Session {
                rest: written.rest,
                at: written.next,
                ..s
            },
            call: None,
        };
    }
    read_line(out, s, input)
}

// a command's call, and its line
fn answer(words: &mut [u32], out: &mut [u8], register: Register, s: Session, c: Command) -> Run
    requires { Sound s × (length words.old ≡ pool_limit) × (s.at + room ≤ length out.old) }
    ensures sound { Sound result.session × (result.session.from ≡ s.from) }
    ensures answered { Answered words.old out.old register s c words.new out.new result.register result.session }
{
    let number = next_number(s.number);
    let done = commands::perform(words, s.lent, register, c);
    let at = answer_lines::write_line(out, s.at, number, answer_lines::letter_of(c), done.said);
    let session = Session {
        lent: done.lent,
        number,
        reading: command_lines::start(),
        rest: to_write(&words[..done.lent], c, done.said),
        ended: false,
        at,
        ..s
    };
    Run {
        register: done.register,
        session,
    }
}

// Answers what is left to do on an input: pieces to write, or else bytes to read.
pub fn left(s: Session, input: &[u8]) -> usize
    requires { s.from ≤ length input.now }
    ensures upper_bound { result ≤ work_left s (length input.now) }
    ensures input_value { result ≡ 0 → work_left s (length input.now) ≡ 0 }
{
    let count = pieces(s.rest);
    if count != 0 {
        return count;
    }
    if s.ended {
        return 0;
    }
    input.len() - s.from
}

// Runs on through an input, as far as there is room for the output. With room for any piece it makes progress. What it puts is the beginning of
// what documents 01 and 02 print of the input (specs, Output), wherever one input ends and the next begins. The register is moved by a call alone.
pub fn advance(words: &mut [u32], out: &mut [u8], r: Run, input: &[u8]) -> Run
    requires { Sound r.session × (length words.old ≡ pool_limit) × (r.session.at ≤ length out.old) × (r.session.from ≤ length input.now) }
    ensures sound { Sound result.session × (result.session.at ≤ length out.new) × (result.session.from ≤ length input.now) }
    ensures onward { Onward (length input.now) (length out.old) r.session result.session }
    ensures prints { Prints input.now words.old out.old r.register r.session words.new out.new result.register result.session }
{
    let mut run = r;
    // kept: goes on until nothing is left; it counts nothing.
    while 0 < left(run.session, input) {
        if out.len() - run.session.at < page::SHEET_ROOM {
            break;
        }
        let moved = step(words, out, run.session, input);
        run.session = moved.session;
        if let Some(c) = moved.call {
            run = answer(words, out, run.register, moved.session, c);
        }
    }
    run
}

// Answers whether a line has begun that the input does not end.
pub fn unfinished(s: Session) -> bool
    ensures { result ≡ cond s.ended false (begun s.reading) }
{
    !s.ended && !matches!(s.reading, Reading::Fresh)
}
