// What the salvaging program writes for a pile: the salvaged pile, and the report of it.
#![tactic(auto)]

ghost use Rattle.std.specs.Prelude.{◌≡◌, ◌*◌, ◌≤◌, length};
ghost use Rattle.answer.specs.Outcome.{outcome};
ghost use Rattle.answer.specs.Lent.{left};
ghost use Rattle.block.specs.Open.{by_outcome};
ghost use Rattle.salvage.specs.Pile.{mended_pile, rebuilt_words, places};
ghost use Rattle.print.specs.Written.{Prints};
ghost use Rattle.print.specs.Inner.{Room, Writes};
ghost use Rattle.print.specs.Lines.{rising};
ghost use Rattle.salvaged_text.specs.Salvaged.{program_salvages, place_line, report, salvaged_text, salvaged_bytes};

use answer::{Answer, Kind};
use print::Page;

// How many bytes of the lent pile are for standard output, and how many of the lent text for standard error.
#[derive(Clone, Copy)]
pub struct Report {
    pub bytes: usize,
    pub text: usize,
}

// Writes the lines of the first n places of the list.
fn write_places(page: &mut Page, list: &[u16], n: usize)
    requires listed { 2 * n ≤ length list.now }
    requires room { Room (rising (place_line list.now) n) page.old }
    ensures same_buffer { page.new.out.ghost_name ≡ page.old.out.ghost_name }
    ensures written { Writes (rising (place_line list.now) n) page.old page.new }
{
    for j in 0..n {
        let block = usize::from(list[2 * j]);
        let word = usize::from(list[2 * j + 1]);
        page.write_pair(b"block", block, b" word", word);
    }
}

// Writes the report of n words, whose places the list has.
fn write_report(page: &mut Page, list: &[u16], n: usize)
    requires listed { 2 * n ≤ length list.now }
    requires room { Room (report n list.now) page.old }
    ensures same_buffer { page.new.out.ghost_name ≡ page.old.out.ghost_name }
    ensures written { Writes (report n list.now) page.old page.new }
{
    page.write_label(b"rebuilt", n, b"\n");
    write_places(page, list, n);
}

// Salvages a pile of at most 65,536 bytes where it stands. A refusal changes neither the pile nor the list.
fn salvage_pile(pile: &mut [u8], list: &mut [u16; 256]) -> Answer
    ensures says { outcome result ≡ program_salvages pile.old }
    ensures mends { pile.new ≡ by_outcome (program_salvages pile.old) (mended_pile pile.old) pile.old }
    ensures lists { list.new ≡ left (program_salvages pile.old) (places (rebuilt_words pile.old)) list.old }
{
    if 65536 < pile.len() {
        return answer::refuse(Kind::Long, 0, 0);
    }
    salvage::salvage(pile, list)
}

// Salvages the pile where it stands and writes the report, or writes the refusal. No report is longer than 2,444 bytes.
pub fn salvaged_text(pile: &mut [u8], out: &mut [u8; 2444]) -> Report
    ensures text { Prints (salvaged_text pile.old) out.old out.new result.text }
    ensures bytes { Prints (salvaged_bytes pile.old) pile.old pile.new result.bytes }
{
    let mut page = Page::new(out);
    let mut list = [0; 256];
    let bytes = match salvage_pile(pile, &mut list) {
        Ok(n) => {
            write_report(&mut page, &list, n);
            pile.len()
        }
        Err(refusal) => {
            page.write_refusal(refusal);
            0
        }
    };
    Report {
        bytes,
        text: page.at,
    }
}
