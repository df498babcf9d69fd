//! Texts cut into parts at a separator, as lines, fields, items; and what the digits of a part
//! spell: numbers and times in decimal digits, and hexadecimal digits.
#![tactic(auto)]

mod hexadecimal;
mod numbers;
mod parts;
mod search;

pub use hexadecimal::hexadecimal_digit;
pub use numbers::{number, time};
pub use parts::{Parts, cut};
