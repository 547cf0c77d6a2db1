//! The script language: lines, tokens, and the grammar of sums, lists and operands with its readers.
#![tactic(auto)]

mod front;
pub mod laws;
mod lexer;
mod line;
mod operand;
mod reader;
mod sum;
#[cfg(test)]
mod tests;

pub use front::{after_sign, first, number, word};
pub use lexer::{Letter, NUMBER_TOP, Sign, Token, is_word, tokens};
pub use line::{content_of, is_blank, next_line};
pub use operand::{DEEPEST, read_leaded_sum, read_list, read_module, read_name, read_twisted};
pub use reader::read_sum;
pub use sum::{Factor, Kind, ModArg, Name, OreArg, Sum, Term};
