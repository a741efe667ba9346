// The earliest name of a unit text that breaks a declaration rule.
ghost use Rattle.std.specs.Prelude.{◌≡◌, ◌<◌, ◌≤◌, [], map, length};
ghost use Rattle.numbering.specs.Keys.{Numbered};
ghost use Rattle.numbering.specs.Lists.{same_list, hash_of};
ghost use Rattle.numbering.proofs.Lists.{lists_equivalence, lists_alike};
ghost use Rattle.grammar.specs.Units.{read, outcome};
ghost use Rattle.declarations.specs.Declarations.{mentions_in, fault_after, fault_in};
ghost use Rattle.declarations.specs.Listed.{listed};
ghost use Rattle.declarations.specs.Meanings.{noted, key, mention_in};
ghost use Rattle.declarations.specs.Verdicts.{unit_verdict, KnownVerdicts};

use crate::mention::{Mention, note_item};
use crate::mentions::Mentions;
use grammar::unit::{Items, UnitFault, check_text};
use lexemes::lexeme::bytes_of;
use lexemes::location::locate;
use numbering::{KeyBank, hash_items, number};

// Memory for a check, used again by the next.
#[derive(Clone, Copy)]
pub struct DeclarationMemory {
    mentions: Mentions,
    // Stays: memory to work in, written as slices by position.
    first: [u16; 4104],
    links: [Option<u16>; 4104],
    // Stays: a block's length of 0 is the rules' own word for a name that is not declared.
    sizes: [u32; 4104],
}

impl DeclarationMemory {
    pub fn new() -> Self {
        DeclarationMemory {
            mentions: Mentions::new(),
            first: [0; 4104],
            links: [None; 4104],
            sizes: [0; 4104],
        }
    }
}

// The names of a text's mentions as a bank of keys: same names have same bytes.
#[derive(Drop)]
struct Names<'a> {
    text: &'a [u8],
    mentions: &'a [Mention],
}

impl<'a> Names<'a> {
    fn name(&self, i: usize) -> &[u8]
        requires { i < length self.now.mentions.now }
        ensures { result.now ≡ key self.now.text.now self.now.mentions.now i }
    {
        bytes_of(self.text, self.mentions[i].name())
    }
}

impl<'a> KeyBank for Names<'a> {
    ghost count = { λ b. length b.mentions.now };

    ghost same = { λ b. same_list (key b.text.now b.mentions.now) };

    ghost hashed = { λ b i. hash_of (key b.text.now b.mentions.now i) };

    ghost equivalence = { λ b. lists_equivalence (key b.text.now b.mentions.now) (length b.mentions.now) };

    ghost alike = { λ b. lists_alike (key b.text.now b.mentions.now) (length b.mentions.now) hash_of };

    fn len(&self) -> usize {
        self.mentions.len()
    }

    fn hash(&self, i: usize) -> u32 {
        hash_items(self.name(i))
    }

    fn is_same(&self, i: usize, j: usize) -> bool {
        self.name(i) == self.name(j)
    }
}

// Notes the mentions of a text, in order.
fn note_all(text: &[u8], mentions: &mut Mentions)
    requires { Ok tt ≡ outcome (read text.now) }
    ensures few { length (listed mentions.new) ≤ 4096 }
    ensures all { noted text.now (listed mentions.new) ≡ mentions_in text.now }
{
    mentions.clear();
    for found in Items::new(text, 0) {
        note_item(mentions, found.item);
    }
}

// The offset of the first mention that breaks a rule, given the first position of each name.
fn first_fault(names: &Names, first: &[u16], sizes: &mut [u32]) -> Option<usize>
    requires numbered { Numbered (same_list (key names.now.text.now names.now.mentions.now)) first.now (length names.now.mentions.now) }
    requires long { length names.now.mentions.now ≤ length first.now }
    requires room { length names.now.mentions.now ≤ length sizes.old }
    ensures { result ≡ fault_after [] (map (mention_in names.now.text.now) names.now.mentions.now) }
{
    sizes.fill(0);
    // Stays: `first` is read by the mention's position, since the numbering is said by positions, and `sizes` by a position that it gives.
    for (k, mention) in names.mentions.iter().enumerate() {
        let at = usize::from(first[k]);
        let size = sizes[at];
        if !mention.is_right(size) {
            return Some(mention.offset());
        }
        sizes[at] = mention.size_after(size);
    }
    None
}

// The offset of the earliest name that breaks a declaration rule.
fn declaration_fault(text: &[u8], memory: &mut DeclarationMemory) -> Option<usize>
    requires { Ok tt ≡ outcome (read text.now) }
    ensures { result ≡ fault_in text.now }
{
    note_all(text, &mut memory.mentions);
    let mentions = memory.mentions.as_slice();
    let names = Names { text, mentions };
    number(&names, &mut memory.first, &mut memory.links);
    first_fault(&names, &memory.first, &mut memory.sizes)
}

// Whether the text is short enough, admitted by the grammar, and declares its names as the rules ask.
pub fn check_unit(text: &[u8], memory: &mut DeclarationMemory) -> Result<(), UnitFault>
    ensures verdict { result ≡ unit_verdict text.now }
    ensures known { KnownVerdicts }
{
    check_text(text)?;
    match declaration_fault(text, memory) {
        Some(offset) => Err(UnitFault::Declaration(locate(text, offset))),
        None => Ok(()),
    }
}

#[cfg(test)]
mod tests {
    use super::{DeclarationMemory, check_unit};

    // The refusal's number and offset, 0 and 0 where the text is accepted.
    fn refusal(text: &[u8]) -> (u8, usize) {
        let mut memory = DeclarationMemory::new();
        check_unit(text, &mut memory).err().map_or((0, 0), |fault| {
            let location = fault.location();
            (
                fault.number(),
                location.map_or(0, |location| location.offset),
            )
        })
    }

    #[test]
    fn refusals(rt: HostRuntime) {
        assert_eq!(rt; refusal(b"p=q;"), (13, 0));
        assert_eq!(rt; refusal(b"var p; fun p 2;"), (13, 11));
        assert_eq!(rt; refusal(b"fun f 2; f.2 = f.3;"), (13, 15));
        assert_eq!(rt; refusal(b"var p; p();"), (13, 7));
        assert_eq!(rt; refusal(b"fun f 2; f(f);"), (13, 9));
        assert_eq!(rt; refusal(b"q=p;\n;"), (12, 5));
        assert_eq!(rt; refusal(b"fun f 2; extern var g; f.r = f(f.1, g);"), (0, 0));
    }
}
