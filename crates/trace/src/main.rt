// Runs the commands of standard input on the ticket index and prints a line for each call.
#![tactic(auto)]

ghost use Rattle.std.specs.Prelude.{IfOk};
ghost use Rattle.session.specs.Steps.{Sound};

use session::Run;
use std::io;
use std::io::{Read, Write};

// The bytes of a read, and of the output that is written at once.
const BUFFER_BYTES: usize = 65536;

// The array lent as the pool, and the output that is not yet written.
#[derive(Drop)]
struct Room {
    words: [u32; numbers::POOL_WORDS],
    out: [u8; BUFFER_BYTES],
}

// Runs all of an input and writes its output.
fn run<W: Write>(to: &mut W, room: &mut Room, r: Run, input: &[u8]) -> io::Result<Run>
    requires { Sound r.session }
    ensures { IfOk result (λ q. Sound q.session) }
{
    let mut run = r;
    run.session.from = 0;
    // kept: goes on until nothing is left; it counts nothing.
    while 0 < session::left(run.session, input) {
        run.session.at = 0;
        run = session::advance(&mut room.words, &mut room.out, run, input);
        to.write_all(&room.out[..run.session.at])?;
    }
    Ok(run)
}

// Runs an input to its end, or to an ill-formed line; the output of each read is written before the next. A proved loop has to end, and nothing
// says that an input does: the loop has more turns than any run uses up.
fn run_all<R: Read, W: Write>(
    from: &mut R,
    to: &mut W,
    room: &mut Room,
    input: &mut [u8],
) -> io::Result<()> {
    let mut r = session::start();
    for _ in 0..u64::MAX {
        let n = from.read(input)?;
        r = run(to, room, r, &input[..n])?;
        if n == 0 || r.session.ended {
            break;
        }
    }
    if session::unfinished(r.session) {
        run(to, room, r, b"\n")?;
    }
    Ok(())
}

fn main(rt: HostRuntime) -> io::Result<()> {
    let mut room = Room {
        words: [0; numbers::POOL_WORDS],
        out: [0; BUFFER_BYTES],
    };
    let mut input = [0u8; BUFFER_BYTES];
    run_all(&mut rt.stdin(), &mut rt.stdout(), &mut room, &mut input)
}
