// What the programs print: numbers in decimal, the refusal line, the secret line.
#![tactic(auto)]

mod lines; // lines.rt: the two lines
mod page; // page.rt: bytes and numbers, one behind the other

pub use lines::{refused_line, secret_line};
pub use page::Page;
