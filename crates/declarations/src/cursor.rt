// The declarations of a unit text, one after another.
ghost use Rattle.std.specs.Prelude.{◌≡◌, ℕ, List, IfSome};
ghost use Rattle.std.specs.List.{flat_map};
ghost use Rattle.grammar.specs.Meanings.{item_in};
ghost use Rattle.declarations.specs.Declarations.{kept, mentions as mentions_of};
ghost use Rattle.declarations.specs.Meanings.{declaration_or, NextDeclaration, Onward, AllDeclarations};

use grammar::item::{Item, Linkage};
use grammar::state::Found;
use grammar::unit::Items;
use lexemes::lexeme::Span;

// A name that is declared, how many slots follow its own cell (none for a variable, n + 1 for a function with n
// parameters), and the offset after its item.
#[derive(Clone, Copy)]
pub struct Declaration {
    pub linkage: Linkage,
    pub name: Span,
    pub slots: u16,
    pub end: usize,
}

fn declared(found: Found) -> Option<Declaration>
    ensures is { (text : List ℕ) → declaration_or text result ≡ flat_map kept (mentions_of (item_in text found.item)) }
    ensures ends { IfSome result (λ d. d.end ≡ found.end) }
{
    let end = found.end;
    match found.item {
        Item::Variable(linkage, name) => Some(Declaration {
            linkage,
            name,
            slots: 0,
            end,
        }),
        Item::Function(linkage, name, count) => Some(Declaration {
            linkage,
            name,
            slots: u16::from(count) + 1,
            end,
        }),
        Item::Assign(..) | Item::Store(..) | Item::Invoke(_) => None,
    }
}

// The first declaration from an offset on; none where there is none up to the end, or up to a grammar fault.
pub fn next_declaration(text: &[u8], at: usize) -> Option<Declaration>
    ensures next { NextDeclaration text.now at result }
    ensures all { AllDeclarations text.now }
    ensures onward { Onward text.now at result }
{
    for found in Items::new(text, at) {
        if let Some(declaration) = declared(found) {
            return Some(declaration);
        }
    }
    None
}
