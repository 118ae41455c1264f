// The reader's turn to which a camera lends its tally (document 02, C-17).
#![tactic(auto)]

ghost use Rattle.std.specs.Prelude.{◌≡◌};
ghost use Rattle.spec.specs.Register.{state};
ghost use Rattle.spec.specs.Calls.{reader_says, reader_turn, turn_count};
ghost use Rattle.spec.specs.Tally.{tallied};

use datatypes::{ReaderReply, Register, Tally};

// Reader's turn, with a tally lent: index::reader_turn, after which the tally counts a reading that ended with an answer.
// Needs: nothing.
// Answers, refuses and leaves: as index::reader_turn.
// The tally: after Found, Next and Absent one more answered, the reading's whole count added to the nodes compared, and the longest count raised
// to it if it was less; a sum that would pass 32 bits stays at the largest value. After Go and Refused it is as it was.
pub fn reader_turn(pool: &mut [u32], reg: Register, s: u32, tally: &mut Tally) -> ReaderReply
    ensures answer_value { reader_says result.answer ≡ (reader_turn (state pool.old reg) s).answer }
    ensures register_after { state pool.new result.register ≡ (reader_turn (state pool.old reg) s).after }
    ensures compared_value { result.compared ≡ turn_count (state pool.old reg) s }
    ensures tally_after { tally.new ≡ tallied tally.old (reader_turn (state pool.old reg) s).answer (turn_count (state pool.old reg) s) }
{
    let reply = index::reader_turn(pool, reg, s);
    let answer = reply.answer;
    *tally = tallies::tallied(*tally, answer, reply.compared);
    reply
}
