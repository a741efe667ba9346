// A byte's class, by a table of 256.
ghost use Rattle.std.specs.Prelude.{◌≡◌};
ghost use Rattle.lexemes.specs.Classes.{class_of, is_blank};

#[derive(Clone, Copy, PartialEq, Eq, Debug)]
pub enum Class {
    Blank,
    Letter,
    Digit,
    Sign,
    Other,
}

use Class::{Blank, Digit, Letter, Other, Sign};

// Stays: a byte's class is read from one constant table, a rule of the project.
const CLASSES: &[Class; 256] = &[
    Other, Other, Other, Other, Other, Other, Other, Other, Other, Blank, Blank, Other, Other,
    Blank, Other, Other, Other, Other, Other, Other, Other, Other, Other, Other, Other, Other,
    Other, Other, Other, Other, Other, Other, Blank, Other, Other, Other, Other, Other, Sign,
    Other, Sign, Sign, Sign, Other, Sign, Other, Sign, Other, Digit, Digit, Digit, Digit, Digit,
    Digit, Digit, Digit, Digit, Digit, Other, Sign, Other, Sign, Other, Other, Other, Letter,
    Letter, Letter, Letter, Letter, Letter, Letter, Letter, Letter, Letter, Letter, Letter, Letter,
    Letter, Letter, Letter, Letter, Letter, Letter, Letter, Letter, Letter, Letter, Letter, Letter,
    Letter, Other, Other, Other, Other, Letter, // 95, the underscore
    Other, Letter, Letter, Letter, Letter, Letter, Letter, Letter, Letter, Letter, Letter, Letter,
    Letter, Letter, Letter, Letter, Letter, Letter, Letter, Letter, Letter, Letter, Letter, Letter,
    Letter, Letter, Letter, Other, Other, Other, Other, Other, Other, Other, Other, Other, Other,
    Other, Other, Other, Other, Other, Other, Other, Other, Other, Other, Other, Other, Other,
    Other, Other, Other, Other, Other, Other, Other, Other, Other, Other, Other, Other, Other,
    Other, Other, Other, Other, Other, Other, Other, Other, Other, Other, Other, Other, Other,
    Other, Other, Other, Other, Other, Other, Other, Other, Other, Other, Other, Other, Other,
    Other, Other, Other, Other, Other, Other, Other, Other, Other, Other, Other, Other, Other,
    Other, Other, Other, Other, Other, Other, Other, Other, Other, Other, Other, Other, Other,
    Other, Other, Other, Other, Other, Other, Other, Other, Other, Other, Other, Other, Other,
    Other, Other, Other, Other, Other, Other, Other, Other, Other, Other, Other, Other, Other,
    Other, Other, Other, Other, Other, Other, Other, Other, Other, Other, Other, Other, Other,
    Other, Other, Other, Other, Other, Other,
];

pub fn class_of(b: u8) -> Class
    ensures { result ≡ class_of b }
{
    CLASSES[usize::from(b)]
}

pub fn is_blank(b: u8) -> bool
    ensures { result ≡ is_blank b }
{
    class_of(b) == Class::Blank
}
