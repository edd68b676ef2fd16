// The line that the joining program prints for a pile.
#![tactic(auto)]

ghost use Rattle.std.specs.Prelude.{◌≡◌, [], ◌∷◌, length};
ghost use Rattle.answer.specs.Outcome.{outcome};
ghost use Rattle.answer.specs.Checks.{first_fail};
ghost use Rattle.answer.specs.Lent.{left};
ghost use Rattle.pile.specs.Lines.{too_long};
ghost use Rattle.joining.specs.Joined.{joining};
ghost use Rattle.joining.specs.Secret.{secret};
ghost use Rattle.print.specs.Written.{Prints};
ghost use Rattle.joined_line.specs.Joined.{joined_line};

use answer::{Answer, Kind};

// Joins a pile of at most 65,536 bytes.
fn join_pile(pile: &[u8], words: &mut [u16]) -> Answer
    ensures says { outcome result ≡ first_fail (too_long pile.now ∷ []) (joining pile.now (length words.old)) }
    ensures leaves { words.new ≡ left (first_fail (too_long pile.now ∷ []) (joining pile.now (length words.old))) (secret pile.now) words.old }
{
    if 65536 < pile.len() {
        return answer::refuse(Kind::Long, 0, 0);
    }
    joining::join(pile, words)
}

// The secret line of a pile that joins, or the refusal line. Answers its length.
pub fn joined_line(pile: &[u8], out: &mut [u8; 128]) -> usize
    ensures { Prints (joined_line pile.now) out.old out.new result }
{
    let mut words = [0u16; 16];
    match join_pile(pile, &mut words) {
        Ok(w) => print::secret_line(out, &words[..w]),
        Err(refusal) => print::refused_line(out, refusal),
    }
}
