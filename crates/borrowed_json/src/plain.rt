//! Reads plain JSON straight from the bytes of a text. A text is plain if it has no escape, no
//! `true`, `false` or `null`, and only whole numbers below 2^64 without a sign.
mod lexeme;
mod number;
mod reader;
mod run;

pub(crate) use reader::plain_value;
