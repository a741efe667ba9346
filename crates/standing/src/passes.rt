// Passes over the declarations of a text, against the table of names.
ghost use Rattle.std.specs.Prelude.{◌≡◌, true, is_ok, Ok as Fine};
ghost use Rattle.grammar.specs.Units.{read, outcome};
ghost use Rattle.declarations.specs.Declarations.{declarations_in};
ghost use Rattle.declarations.specs.Meanings.{declaration_in};
ghost use Rattle.names.specs.Held.{notes};
ghost use Rattle.books.specs.Books.{is_defined};
ghost use Rattle.books.specs.Loads.{first_at};
ghost use Rattle.standing.specs.Passes.{clashes_note, clashes_known, known_in, enter_all, fit_all, forget_all};

use crate::cursor::Declarations;
use declarations::cursor::Declaration;
use grammar::item::Linkage;
use lexemes::lexeme::bytes_of;
use names::{NameTable, Note, TableFull};

fn is_definition(linkage: Linkage) -> bool
    ensures { result ≡ is_defined linkage }
{
    matches!(linkage, Linkage::Defined)
}

// Whether the name is known with another kind or count, or defined here and elsewhere.
fn is_clash(known: Option<Note>, declaration: Declaration) -> bool
    ensures { result ≡ clashes_note (is_defined declaration.linkage) declaration.slots known }
{
    known.is_some_and(|note| {
        u16::from(note.slots) != declaration.slots
            || is_definition(declaration.linkage) && note.defined
    })
}

// Whether a declaration of a text clashes with what is known of its name.
fn clashes(names: &NameTable, text: &[u8], declaration: Declaration) -> bool
    ensures { result ≡ clashes_known (notes names.now) (declaration_in text.now declaration) }
{
    is_clash(names.find(bytes_of(text, declaration.name)), declaration)
}

// The offset of the first declared name that clashes with what is known of it.
pub(crate) fn first_clash(names: &NameTable, text: &[u8]) -> Option<usize>
    requires { Fine tt ≡ outcome (read text.now) }
    ensures { result ≡ first_at (clashes_known (notes names.now)) (declarations_in text.now) }
{
    Declarations::new(text)
        .find(|found| clashes(names, text, *found))
        .map(|found| found.name.from)
}

// One unit more declares the text's names; some may be entered where not all are.
pub(crate) fn enter_names(names: &mut NameTable, text: &[u8]) -> Result<(), TableFull>
    requires { Fine tt ≡ outcome (read text.now) }
    ensures fits { is_ok result ≡ fit_all (known_in names.old) (declarations_in text.now) }
    ensures after { is_ok result ≡ true → known_in names.new ≡ enter_all (known_in names.old) (declarations_in text.now) }
{
    for found in Declarations::new(text) {
        let name = bytes_of(text, found.name);
        names.mention(name, found.slots as u8, is_definition(found.linkage))?;
    }
    Ok(())
}

// One unit less declares the text's names.
pub(crate) fn forget_names(names: &mut NameTable, text: &[u8])
    requires { Fine tt ≡ outcome (read text.now) }
    ensures { notes names.new ≡ forget_all (notes names.old) (declarations_in text.now) }
{
    for found in Declarations::new(text) {
        names.forget(bytes_of(text, found.name), is_definition(found.linkage));
    }
}
