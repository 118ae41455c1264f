// Runs stored inputs of trace and compares what comes out with the stored outputs. The arguments are pairs of files: an input, its output.
#![tactic(auto)]

ghost use Rattle.std.specs.Prelude.{◌≤◌, ◌≡◌, length};
ghost use Rattle.std.specs.Io.{ReadsAtMost};
ghost use Rattle.spec.specs.Numbers.{pool_limit};

use std::io::Read;
use std::rt::Files;
use std::{env, fs, io};

const NEWLINE: u8 = b'\n';

// The most bytes of an input or of an output.
const BUFFER_BYTES: usize = 65536;

// The array lent as the pool, and the bytes of a stored run: its input, the output that is wanted, and the output that comes.
#[derive(Drop)]
struct Room {
    words: [u32; numbers::POOL_WORDS],
    input: [u8; BUFFER_BYTES],
    want: [u8; BUFFER_BYTES],
    out: [u8; BUFFER_BYTES],
}

// Reads until the buffer is full or the input ends, and answers how many bytes it has put there.
// kept: std's read_exact answers an error where the input ends first, and its other readers need a heap.
fn read_full<R: Read>(from: &mut R, buf: &mut [u8]) -> io::Result<usize>
    ensures { ReadsAtMost result buf.new }
{
    let mut done: usize = 0;
    while done < buf.len() {
        let n = from.read(&mut buf[done..])?;
        if n == 0 {
            return Ok(done);
        }
        done += n;
    }
    Ok(done)
}

// the file of a name, as far as there is room for it
fn load<H: Files>(rt: &H, name: &str, buf: &mut [u8]) -> io::Result<usize>
    ensures { ReadsAtMost result buf.new }
{
    let mut file = fs::open(rt, name)?;
    read_full(&mut file, buf)
}

// the output of a stored input, as far as there is room for it; a last line without a newline is run too
fn output(words: &mut [u32], out: &mut [u8], input: &[u8]) -> usize
    requires { length words.old ≡ pool_limit }
    ensures { result ≤ length out.new }
{
    let mut run = session::advance(words, out, session::start(), input);
    if session::unfinished(run.session) {
        run.session.from = 0;
        run = session::advance(words, out, run, b"\n");
    }
    run.session.at
}

// the number of the first line in which two texts differ
fn difference(a: &[u8], b: &[u8]) -> Option<u64> {
    if a == b {
        return None;
    }
    let same = a.iter().zip(b).take_while(|(x, y)| x == y);
    let lines = same.filter(|(x, _)| **x == NEWLINE).count();
    Some((lines as u64).saturating_add(1))
}

// a run's line: its input's name, and `same` or the first line that differs
fn report<H: Print>(rt: &H, name: &str, difference: Option<u64>) -> io::Result<()> {
    match difference {
        None => println!(rt; "{name}\tsame"),
        Some(line) => println!(rt; "{name}\tdiffers in line\t{line}"),
    }
}

// one stored run, of an input and the output that is wanted: whether it is the same
fn compare<H: Files + Print>(
    rt: &H,
    room: &mut Room,
    name: &str,
    wanted: &str,
) -> io::Result<bool> {
    let n = load(rt, name, &mut room.input)?;
    let end = output(&mut room.words, &mut room.out, &room.input[..n]);
    let m = load(rt, wanted, &mut room.want)?;
    let line = difference(&room.out[..end], &room.want[..m]);
    report(rt, name, line)?;
    Ok(line.is_none())
}

// the total's line
fn total<H: Print>(rt: &H, runs: usize, same: usize) -> io::Result<()> {
    println!(rt; "{runs}\truns\t{same}\tsame")
}

// all runs that the arguments name, two by two
fn compare_all<H: Files + Print>(rt: &H, room: &mut Room, names: &[String]) -> io::Result<()> {
    let mut same = 0;
    for pair in names.chunks_exact(2) {
        if compare(rt, room, pair[0].as_str(), pair[1].as_str())? {
            same += 1;
        }
    }
    total(rt, names.len() / 2, same)
}

// The program's own name is the first of the arguments.
fn main(rt: HostRuntime) -> io::Result<()> {
    let names: Vec<String> = env::args(&rt)?.skip(1).collect(rt.alloc())?;
    let mut room = Room {
        words: [0; numbers::POOL_WORDS],
        input: [0; BUFFER_BYTES],
        want: [0; BUFFER_BYTES],
        out: [0; BUFFER_BYTES],
    };
    compare_all(&rt, &mut room, &names)
}
