//! Expressions, operands and types in the words of a Go programmer, a line of the program with marks under a span, and words that
//! are spelt nearly alike: what messages about a program are made of. No contract says what is printed.
#![tactic(auto)]

pub mod excerpt;
pub mod operand;
pub mod spelling;
pub mod words;
