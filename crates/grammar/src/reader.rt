// Reads a text's items, one at a time, by offsets.
ghost use Rattle.std.specs.Prelude.{◌≡◌};
ghost use Rattle.grammar.specs.Faults.{Determined};
ghost use Rattle.grammar.specs.Meanings.{statements_from, statements_of, Further, ending, Checked, verdict};

use crate::state::{Found, State, Step};
use crate::step::stepped;
use lexemes::lexer::{next_token, skip_blanks};
use lexemes::location::{Location, locate};

// The next item from `at` on, none at the text's end, or the offset of the fault.
pub fn next_item(text: &[u8], at: usize) -> Result<Option<Found>, usize>
    ensures read { statements_from text.now at ≡ statements_of text.now result }
    ensures further { Further text.now at result }
{
    let start = skip_blanks(text, at);
    if start >= text.len() {
        return Ok(None);
    }
    let mut state = State::Start;
    let mut from = start;
    // Stays: a token iterator would be a type for this one loop, and its items results that the loop opens all the same.
    while let Some(token) = next_token(text, from)? {
        match stepped(text, state, token.lexeme).ok_or(token.at)? {
            Step::More(next) => state = next,
            Step::Done(item) => return Ok(Some(Found {
                at: start,
                item,
                end: token.end,
            })),
        }
        from = token.end;
    }
    match state {
        State::Start => Ok(None),
        _ => Err(text.len()),
    }
}

// Reads all items; the offset of the fault.
fn read_all(text: &[u8]) -> Result<(), usize>
    ensures { result ≡ ending (statements_from text.now 0) }
{
    let mut at = 0;
    // Stays: `Items` ends at a fault without telling it, and here the fault's offset is the answer.
    while let Some(found) = next_item(text, at)? {
        at = found.end;
    }
    Ok(())
}

// Whether the grammar admits the text; where it does not, the place at which the text leaves it.
pub fn check_grammar(text: &[u8]) -> Result<(), Location>
    ensures verdict { Checked text.now result }
    ensures read { result ≡ verdict text.now (statements_from text.now 0) }
    ensures only { Determined }
{
    read_all(text).map_err(|offset| locate(text, offset))
}
