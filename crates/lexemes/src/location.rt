// Where something stands in a text.
ghost use Rattle.std.specs.Prelude.{◌≡◌};
ghost use Rattle.lexemes.specs.Lines.{line_of, located};

// An offset, and the line on which it lies.
#[derive(Clone, Copy, PartialEq, Eq, Debug, Drop)]
pub struct Location {
    pub offset: usize,
    pub line: usize,
}

// The line of an offset: 1 and the line feeds before it.
pub fn line_of(text: &[u8], offset: usize) -> usize
    ensures { result ≡ line_of text.now offset }
{
    let before = &text[..offset.min(text.len())];
    1 + before.iter().filter(|b| **b == b'\n').count()
}

pub fn locate(text: &[u8], offset: usize) -> Location
    ensures { result ≡ located text.now offset }
{
    Location {
        offset,
        line: line_of(text, offset),
    }
}
