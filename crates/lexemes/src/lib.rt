// Unit texts as lexemes: bytes, their classes, the lexemes they make, and lines.
#![tactic(auto)]

pub mod class;
pub mod lexeme;
pub mod lexer;
pub mod location;
