// The refusal line and the secret line, written into a lent buffer.
ghost use Rattle.std.specs.Prelude.{take};
ghost use Rattle.answer.specs.Outcome.{number};
ghost use Rattle.print.specs.Written.{Prints};
ghost use Rattle.print.specs.Lines.{refused_line, secret_line};

use crate::Page;

// The refusal line: `refused`, the number and the places a and b. Answers its length.
pub fn refused_line(out: &mut [u8; 128], refusal: answer::Refusal) -> usize
    ensures { Prints (refused_line (number refusal.kind) refusal.a refusal.b) out.old out.new result }
{
    let mut page = Page::new(out);
    page.write_refusal(refusal);
    page.at
}

// The secret line: `secret` and the words. A secret has at most 16 words: of more, the first 16 are printed. Answers its length.
pub fn secret_line(out: &mut [u8; 128], words: &[u16]) -> usize
    ensures { Prints (secret_line (take 16 words.now)) out.old out.new result }
{
    let mut page = Page::new(out);
    page.write_secret(&words[..words.len().min(16)]);
    page.at
}
