// The fields of a command: digits as a number, and the command that a letter and numbers are.
#![tactic(auto)]

ghost use Rattle.std.specs.Prelude.{◌≡◌, ◌≤◌};
ghost use Rattle.command_fields.specs.Commands.{with_none, with_one, with_two};
ghost use Rattle.command_fields.specs.Taken.{with_digit, field_taken};

// What a line asks for.
#[derive(Clone, Copy)]
pub enum Command {
    SetUp(u32),
    Insert(u32, u64),
    Delete(u32),
    Write,
    Begin(u32, u32),
    BeginNext(u32, u32),
    Turn(u32),
    GiveUp(u32),
    Show,
    Page,
}

// A field so far: no byte, digits that make a number, or anything else.
#[derive(Clone, Copy)]
pub enum Field {
    Empty,
    Number(u64),
    Wrong,
}

// Answers a field's number after one digit more.
#[tactic(auto, unfolding(crate::specs::Taken::with_digit))]
fn with_digit(v: u64, b: u8) -> Field
    requires { (48 ≤ b) × (b ≤ 57) }
    ensures { result ≡ with_digit v b }
{
    let digit = (b - b'0') as u64;
    if v <= (u64::MAX - digit) / 10 {
        return Field::Number(v * 10 + digit);
    }
    Field::Wrong
}

// Answers a field after one byte more.
#[tactic(auto, unfolding(crate::specs::Taken::field_taken, crate::specs::Commands::is_digit))]
pub fn field_taken(f: Field, b: u8) -> Field
    ensures { result ≡ field_taken f b }
{
    if !matches!(b, b'0'..=b'9') {
        return Field::Wrong;
    }
    match f {
        Field::Empty => with_digit(0, b),
        Field::Number(v) => with_digit(v, b),
        Field::Wrong => Field::Wrong,
    }
}

// Answers the command of a letter alone, if there is one.
#[tactic(auto, unfolding(crate::specs::Commands::with_none))]
pub fn with_none(l: u8) -> Option<Command>
    ensures { result ≡ with_none l }
{
    match l {
        b'W' => Some(Command::Write),
        b'T' => Some(Command::Show),
        b'L' => Some(Command::Page),
        _ => None,
    }
}

// Answers the command of a letter and one number.
#[tactic(auto, unfolding(crate::specs::Commands::with_one))]
pub fn with_one(l: u8, a: u64) -> Option<Command>
    ensures { result ≡ with_one l a }
{
    let n = u32::try_from(a).ok()?;
    match l {
        b'P' => Some(Command::SetUp(n)),
        b'D' => Some(Command::Delete(n)),
        b'R' => Some(Command::Turn(n)),
        b'E' => Some(Command::GiveUp(n)),
        _ => None,
    }
}

// Answers the command of a letter and two numbers.
#[tactic(auto, unfolding(crate::specs::Commands::with_two))]
pub fn with_two(l: u8, a: u64, b: u64) -> Option<Command>
    ensures { result ≡ with_two l a b }
{
    let first = u32::try_from(a).ok()?;
    if l == b'I' {
        return Some(Command::Insert(first, b));
    }
    let second = u32::try_from(b).ok()?;
    match l {
        b'B' => Some(Command::Begin(first, second)),
        b'S' => Some(Command::BeginNext(first, second)),
        _ => None,
    }
}
