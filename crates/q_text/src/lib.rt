//! The tokens of a text, byte by byte, and the decimal text of numbers. Nothing here takes memory
//! of its own.
#![tactic(auto)]

mod numbers;
mod runs;
mod shape;
mod tokens;

pub use numbers::{digits, put_count, put_number};
pub use runs::LiteralWord;
pub use tokens::{Token, TokenKind, Tokens};
