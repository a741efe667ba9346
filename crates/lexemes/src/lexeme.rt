// The lexemes of a unit text.
ghost use Rattle.std.specs.Prelude.{◌≡◌};
ghost use Rattle.lexemes.specs.Texts.{name_in_text};
ghost use Rattle.lexemes.specs.Lexemes.{sign_of, reserved};

#[derive(Clone, Copy, PartialEq, Eq, Debug)]
pub enum Sign {
    Equals,
    Ampersand,
    Star,
    Open,
    Close,
    Comma,
    Semicolon,
    Stop,
}

// Stays: signs are told by a match on character literals, a rule of the project.
pub fn sign_of(b: u8) -> Option<Sign>
    ensures { result ≡ sign_of b }
{
    match char::from(b) {
        '=' => Some(Sign::Equals),
        '&' => Some(Sign::Ampersand),
        '*' => Some(Sign::Star),
        '(' => Some(Sign::Open),
        ')' => Some(Sign::Close),
        ',' => Some(Sign::Comma),
        ';' => Some(Sign::Semicolon),
        '.' => Some(Sign::Stop),
        _ => None,
    }
}

// The reserved words.
#[derive(Clone, Copy, PartialEq, Eq, Debug)]
pub enum Word {
    Var,
    Fun,
    Extern,
}

// The bytes of a text from one offset up to another.
#[derive(Clone, Copy, PartialEq, Eq, Debug)]
pub struct Span {
    pub from: usize,
    pub to: usize,
}

#[derive(Clone, Copy, PartialEq, Eq, Debug)]
pub enum Lexeme {
    Sign(Sign),
    Word(Word),
    Name(Span),
    Number(u8),
}

// A lexeme, the offset at which it begins, and that after it.
#[derive(Clone, Copy, PartialEq, Eq, Debug)]
pub struct Token {
    pub at: usize,
    pub lexeme: Lexeme,
    pub end: usize,
}

// Stays: reserved words are fixed byte strings compared with a name's bytes, a rule of the project.
pub fn reserved(name: &[u8]) -> Option<Word>
    ensures { result ≡ reserved name.now }
{
    if name == b"var".as_slice() {
        Some(Word::Var)
    } else if name == b"fun".as_slice() {
        Some(Word::Fun)
    } else if name == b"extern".as_slice() {
        Some(Word::Extern)
    } else {
        None
    }
}

// The bytes of a span, as far as the text has them.
pub fn bytes_of(text: &[u8], span: Span) -> &[u8]
    ensures { result.now ≡ (name_in_text text.now span).bytes }
{
    let to = span.to.min(text.len());
    let from = span.from.min(to);
    &text[from..to]
}
