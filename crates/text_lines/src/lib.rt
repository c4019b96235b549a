//! Texts of lines: the next line of a text, the parts of a line, and numbers in decimal digits without a leading zero.
//!
//! The readers of reports, of scripts and of words stand on it; it stands on nothing. Lines end with a newline,
//! which the last one may lack. To cut a line costs a look at each of its bytes; no call takes memory.
#![tactic(auto)]

mod cutting;
mod numerals;

pub use cutting::{behind, cut, next_line};
pub use numerals::{are_digits, field, number, number_below};
