// The listing that the listing program prints (SCOPE 7.2), written into a lent buffer.
#![tactic(auto)]

ghost use Rattle.std.specs.Prelude.{◌≡◌, ℕ, false, not, [], get_or, ◌-◌, ◌≤◌, ◌<◌};
ghost use Rattle.planning.specs.Groups.{marked};
ghost use Rattle.print.specs.Written.{Prints};
ghost use Rattle.print.specs.Inner.{Room, Writes};
ghost use Rattle.print.specs.Lines.{spaced_all, rising};
ghost use Rattle.listing.specs.Listing.{piece_line, holder_line, listing_by, listed};
ghost use Rattle.listing.specs.Inner.{marked_numbers, marks_line, Plans};

use answer::Refusal;
use planning::{Plan, Policy, Rows};
use print::Page;

// Writes the numbers of the marks that are set, the first of which has the number 1.
fn write_marked(page: &mut Page, marks: &[bool])
    requires { Room (spaced_all (marked_numbers marks.now)) page.old }
    ensures same_buffer { page.new.out.ghost_name ≡ page.old.out.ghost_name }
    ensures written { Writes (spaced_all (marked_numbers marks.now)) page.old page.new }
{
    for (i, &mark) in marks.iter().enumerate() {
        if mark {
            page.write_number(i + 1);
        }
    }
}

// What is listed: how many people a policy has, and its plan.
#[derive(Clone, Copy)]
struct PlannedText {
    people: usize,
    plan: Plan,
}

// Writes a line of a word, a number and how it goes on, and behind it the numbers of the marks that are set.
fn write_line(page: &mut Page, word: &[u8], number: usize, more: &[u8], marks: &[bool])
    requires { Room (marks_line word.now number more.now marks.now) page.old }
    ensures same_buffer { page.new.out.ghost_name ≡ page.old.out.ghost_name }
    ensures written { Writes (marks_line word.now number more.now marks.now) page.old page.new }
{
    page.write_label(word, number, more);
    write_marked(page, marks);
    page.write_bytes(b"\n");
}

// Writes the line of piece j, whose row marks those who lack it.
fn write_piece(page: &mut Page, j: usize, row: &[bool; 8], people: usize)
    requires few { people ≤ 8 }
    requires room { Room (piece_line (λ i. get_or row.now (i - 1) false) people j) page.old }
    ensures same_buffer { page.new.out.ghost_name ≡ page.old.out.ghost_name }
    ensures written { Writes (piece_line (λ i. get_or row.now (i - 1) false) people j) page.old page.new }
{
    write_line(page, b"piece", j, b" missing", &row[..people]);
}

// Writes the lines of the pieces.
fn write_pieces(page: &mut Page, people: usize, plan: &Plan)
    requires few { (people ≤ 8) × (plan.now.pieces ≤ 70) }
    requires room { Room (rising (λ j. piece_line (marked plan.now.rows j) people j) plan.now.pieces) page.old }
    ensures same_buffer { page.new.out.ghost_name ≡ page.old.out.ghost_name }
    ensures written { Writes (rising (λ j. piece_line (marked plan.now.rows j) people j) plan.now.pieces) page.old page.new }
{
    for j in 0..plan.pieces {
        write_piece(page, j + 1, &plan.rows[j], people);
    }
}

// Which rows do not mark the person behind i others.
fn unmarked(rows: &Rows, i: usize) -> [bool; 70]
    requires { i < 8 }
    ensures { (j : ℕ) → j < 70 → get_or result j false ≡ not (get_or (get_or rows.now j []) i false) }
{
    let mut has = [false; 70];
    for (j, row) in rows.iter().enumerate() {
        has[j] = !row[i];
    }
    has
}

// Writes the lines of the holders: a holder has the pieces whose rows do not mark the holder. This walk and that of the pieces differ in what
// a line is made of: one walk that is lent a closure for the line was no plainer.
fn write_holders(page: &mut Page, people: usize, plan: &Plan)
    requires few { (people ≤ 8) × (plan.now.pieces ≤ 70) }
    requires room { Room (rising (λ i. holder_line (λ j. not (marked plan.now.rows j i)) plan.now.pieces i) people) page.old }
    ensures same_buffer { page.new.out.ghost_name ≡ page.old.out.ghost_name }
    ensures written { Writes (rising (λ i. holder_line (λ j. not (marked plan.now.rows j i)) plan.now.pieces i) people) page.old page.new }
{
    for i in 0..people {
        let has = unmarked(&plan.rows, i);
        write_line(page, b"holder", i + 1, b" has", &has[..plan.pieces]);
    }
}

// Writes the listing.
fn write_listing(page: &mut Page, people: usize, plan: &Plan)
    requires few { (people ≤ 8) × (plan.now.pieces ≤ 70) }
    requires room { Room (listing_by (marked plan.now.rows) (λ i j. not (marked plan.now.rows j i)) people plan.now.pieces) page.old }
    ensures same_buffer { page.new.out.ghost_name ≡ page.old.out.ghost_name }
    ensures written { Writes (listing_by (marked plan.now.rows) (λ i j. not (marked plan.now.rows j i)) people plan.now.pieces) page.old page.new }
{
    page.write_pair(b"people", people, b" pieces", plan.pieces);
    write_pieces(page, people, plan);
    write_holders(page, people, plan);
}

// Reads a policy text and plans it.
fn plan_text(text: &[u8]) -> Result<PlannedText, Refusal>
    ensures { Plans text.now result }
{
    let read = policy::read_policy(text)?;
    let plan = planning::plan(Policy {
        people: read.people,
        required: read.required.as_slice(),
        forbidden: read.forbidden.as_slice(),
    })?;
    Ok(PlannedText {
        people: read.people,
        plan,
    })
}

// What the listing program prints for a policy text: the listing or a refusal, and its length. No listing is longer than 4,113 bytes.
pub fn listing(text: &[u8], out: &mut [u8; 4113]) -> usize
    ensures { Prints (listed text.now) out.old out.new result }
{
    let mut page = Page::new(out);
    match plan_text(text) {
        Ok(planned) => write_listing(&mut page, planned.people, &planned.plan),
        Err(refusal) => page.write_refusal(refusal),
    }
    page.at
}
