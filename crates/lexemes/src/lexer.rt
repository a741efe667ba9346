// Cuts a text into lexemes, one at a time, by offsets.
ghost use Rattle.std.specs.Prelude.{not, ◌≡◌, ◌+◌, ◌<◌, ◌≤◌, length, drop, ◌≢◌, slice_index, slice_range};
ghost use Rattle.std.specs.List.{position};
ghost use Rattle.lexemes.specs.Classes.{is_blank, class_of};
ghost use Rattle.lexemes.specs.Lexemes.{in_name, digit_first, run, spelled, pieces_from};
ghost use Rattle.lexemes.specs.Texts.{terminal, pieces_of, Onward};

use crate::class::{Class, class_of, is_blank};
use crate::lexeme::{Lexeme, Span, Token, reserved, sign_of};

const LONGEST_NAME: usize = 24;

const LAST_DIGIT: u8 = b'6';

fn in_name(b: u8) -> bool
    ensures { result ≡ in_name (class_of b) }
{
    matches!(class_of(b), Class::Letter | Class::Digit)
}

// The position of the first byte that is no blank.
fn end_of_blanks(bytes: &[u8]) -> Option<usize>
    ensures { result ≡ position (λ b. not (is_blank b)) bytes.now }
{
    bytes.iter().position(|b| !is_blank(*b))
}

// The offset of the first byte from `at` on that is no blank, or one past the text's last byte.
pub fn skip_blanks(text: &[u8], at: usize) -> usize
    ensures after { at ≤ result }
    ensures same { pieces_from text.now at ≡ pieces_from text.now result }
    ensures stops { result < length text.now → class_of (slice_index text.now result) ≢ Class.Blank }
{
    let rest = &text[at.min(text.len())..];
    at + end_of_blanks(rest).unwrap_or(rest.len())
}

// The position of the first byte that is no letter and no digit.
fn end_of_run(bytes: &[u8]) -> Option<usize>
    ensures { result ≡ position (λ b. not (in_name (class_of b))) bytes.now }
{
    bytes.iter().position(|b| !in_name(*b))
}

// The offset at which the letters and digits from `from` on end.
fn name_end(text: &[u8], from: usize) -> usize
    requires { from ≤ length text.now }
    ensures within { result ≤ length text.now }
    ensures all { result ≡ from + run (drop from text.now) }
{
    let rest = &text[from..];
    from + end_of_run(rest).unwrap_or(rest.len())
}

// The reserved word or the name that the span's bytes are.
fn spelled(text: &[u8], span: Span) -> Lexeme
    requires { (span.from ≤ span.to) × (span.to ≤ length text.now) }
    ensures { terminal text.now result ≡ spelled span.from (slice_range text.now span.from span.to) }
{
    match reserved(&text[span.from..span.to]) {
        Some(word) => Lexeme::Word(word),
        None => Lexeme::Name(span),
    }
}

// The reserved word or the name that begins at `at`.
fn word_token(text: &[u8], at: usize) -> Result<Option<Token>, usize>
    requires { (at < length text.now) × (Class.Letter ≡ class_of (slice_index text.now at)) }
    ensures read { pieces_from text.now at ≡ pieces_of text.now result }
    ensures onward { Onward (length text.now) at result }
{
    let end = name_end(text, at + 1);
    if end - at > LONGEST_NAME {
        return Err(at);
    }
    let lexeme = spelled(text, Span { from: at, to: end });
    Ok(Some(Token { at, lexeme, end }))
}

// The number that begins at `at`: a digit up to 6 with no digit after it.
fn number_token(text: &[u8], at: usize) -> Result<Option<Token>, usize>
    requires { (at < length text.now) × (Class.Digit ≡ class_of (slice_index text.now at)) }
    ensures read { pieces_from text.now at ≡ pieces_of text.now result }
    ensures onward { Onward (length text.now) at result }
{
    let end = at + 1;
    if text[at] > LAST_DIGIT || digit_at(text, end) {
        return Err(at);
    }
    let lexeme = Lexeme::Number(text[at] - b'0');
    Ok(Some(Token { at, lexeme, end }))
}

fn digit_at(text: &[u8], at: usize) -> bool
    requires { at ≤ length text.now }
    ensures { result ≡ digit_first (drop at text.now) }
{
    text.get(at).is_some_and(|b| class_of(*b) == Class::Digit)
}

// The sign at `at`.
fn sign_token(text: &[u8], at: usize) -> Result<Option<Token>, usize>
    requires { (at < length text.now) × (Class.Sign ≡ class_of (slice_index text.now at)) }
    ensures read { pieces_from text.now at ≡ pieces_of text.now result }
    ensures onward { Onward (length text.now) at result }
{
    let lexeme = Lexeme::Sign(sign_of(text[at]).ok_or(at)?);
    let end = at + 1;
    Ok(Some(Token { at, lexeme, end }))
}

// The next lexeme from `at` on, none at the text's end, or the offset of a run that is no lexeme.
pub fn next_token(text: &[u8], at: usize) -> Result<Option<Token>, usize>
    ensures read { pieces_from text.now at ≡ pieces_of text.now result }
    ensures onward { Onward (length text.now) at result }
{
    let first = skip_blanks(text, at);
    if first >= text.len() {
        return Ok(None);
    }
    match class_of(text[first]) {
        Class::Letter => word_token(text, first),
        Class::Digit => number_token(text, first),
        Class::Sign => sign_token(text, first),
        Class::Blank | Class::Other => Err(first),
    }
}
