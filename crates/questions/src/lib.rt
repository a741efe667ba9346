// Places and names in questions: written as in unit texts, without blanks.
#![tactic(auto)]

ghost use Rattle.std.specs.Prelude.{◌≡◌, ℕ, List};
ghost use Rattle.std.specs.List.{list_any};
ghost use Rattle.lexemes.specs.Classes.{is_blank};
ghost use Rattle.lexemes.specs.Lexemes.{pieces_from};
ghost use Rattle.lexemes.specs.Texts.{terminal, name_in_text};
ghost use Rattle.grammar.specs.Meanings.{target_in};
ghost use Rattle.questions.specs.Questions.{slot_lexeme, last_slot, after_name, place_from, place_of, name_of, name_or, Grammatical};

use grammar::item::{Place, Slot};
use lexemes::class::is_blank;
use lexemes::lexeme::{Lexeme, Sign, Span, bytes_of};
use lexemes::lexer::next_token;

fn has_blank(text: &[u8]) -> bool
    ensures { result ≡ list_any (λ b. is_blank b) text.now }
{
    text.iter().any(|b| is_blank(*b))
}

// The slot that a lexeme after a full stop says.
fn slot_of(text: &[u8], lexeme: Lexeme) -> Option<Slot>
    ensures { result ≡ slot_lexeme (terminal text.now lexeme) }
{
    match lexeme {
        Lexeme::Number(n) => Some(Slot::Parameter(n)),
        Lexeme::Name(name) if bytes_of(text, name) == b"r".as_slice() => {
            Some(Slot::Result(name.from))
        }
        _ => None,
    }
}

// The slot from `at` on, where the text ends after it.
fn last_slot(text: &[u8], at: usize) -> Option<Slot>
    ensures { result ≡ last_slot (pieces_from text.now at) }
{
    let token = next_token(text, at).ok()??;
    match next_token(text, token.end) {
        Ok(None) => slot_of(text, token.lexeme),
        _ => None,
    }
}

// The place of this name, of which the text has the rest from `at` on.
fn place_after(text: &[u8], base: Span, at: usize) -> Option<Place>
    ensures { target_in text.now result ≡ after_name (name_in_text text.now base) (pieces_from text.now at) }
{
    let slot = match next_token(text, at).ok()? {
        None => Slot::Bare,
        Some(token) if token.lexeme == Lexeme::Sign(Sign::Stop) => last_slot(text, token.end)?,
        Some(_) => return None,
    };
    Some(Place { base, slot })
}

// The place that the text's lexemes are.
fn place_of(text: &[u8]) -> Option<Place>
    ensures { target_in text.now result ≡ place_from (pieces_from text.now 0) }
{
    let token = next_token(text, 0).ok()??;
    let Lexeme::Name(base) = token.lexeme else {
        return None;
    };
    place_after(text, base, token.end)
}

// The place that the text is, if it is one and has no blanks.
pub fn read_place(text: &[u8]) -> Option<Place>
    ensures is { target_in text.now result ≡ place_of text.now }
    ensures grammar { Grammatical text.now }
{
    if has_blank(text) {
        return None;
    }
    place_of(text)
}

// The name that the text is, if it is one.
pub fn read_name(text: &[u8]) -> Option<Span>
    ensures { name_or text.now result ≡ name_of text.now }
{
    let place = read_place(text)?;
    matches!(place.slot, Slot::Bare).then_some(place.base)
}

#[cfg(test)]
mod tests {
    use super::{read_name, read_place};

    #[test]
    fn places(rt: HostRuntime) {
        assert!(rt; read_place(b"x1").is_some());
        assert!(rt; read_place(b"f.r").is_some());
        assert!(rt; read_place(b"f.6").is_some());
        assert!(rt; read_place(b"f. r").is_none());
        assert!(rt; read_place(b"f.s").is_none());
        assert!(rt; read_place(b"f.r.r").is_none());
        assert!(rt; read_place(b"var").is_none());
        assert!(rt; read_place(b"").is_none());
    }

    #[test]
    fn names(rt: HostRuntime) {
        assert!(rt; read_name(b"f").is_some());
        assert!(rt; read_name(b"f.r").is_none());
    }
}
