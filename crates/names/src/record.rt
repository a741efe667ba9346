// One name's record.
ghost use Rattle.std.specs.Prelude.{◌≡◌, ◌<◌, ◌≤◌, [], ◌++◌, length, map, take, drop, slice_index_or, slice_set};
ghost use Rattle.std.specs.Fn.{FnOnceReturnsAtMut};
ghost use Rattle.names.specs.declared.record.NameRecord.{NameRecord as AnyRecord};
ghost use Rattle.names.specs.Notes.{name_in, fresh_note, stands, raised, lowered, placed, unplaced};

use crate::short_name::ShortName;

// The number of no variable: a name that is placed there has no block.
pub const NOWHERE: u16 = 256;

// What is known of a name.
#[derive(Clone, Copy)]
pub struct Note {
    // how many cells follow the name's own
    pub slots: u8,
    // how many standing units mention it
    pub units: u8,
    // whether one of them defines it without extern
    pub defined: bool,
    // the first variable of its block, once that is laid out
    pub first: Option<u16>,
}

#[derive(Clone, Copy)]
pub struct NameRecord {
    name: ShortName,
    pub note: Note,
}

impl NameRecord {
    // A record that no name has.
    pub(crate) fn free() -> NameRecord
        ensures { name_in result ≡ [] }
    {
        NameRecord {
            name: ShortName::empty(),
            note: Note {
                slots: 0,
                units: 0,
                defined: false,
                first: None,
            },
        }
    }

    // The record of a name that one unit mentions.
    pub(crate) fn new(name: &[u8], slots: u8, defines: bool) -> NameRecord
        requires { length name.now ≤ 24 }
        ensures named { name_in result ≡ name.now }
        ensures noted { result.note ≡ fresh_note slots defines }
    {
        NameRecord {
            name: ShortName::new(name),
            note: Note {
                slots,
                units: 1,
                defined: defines,
                first: None,
            },
        }
    }

    pub(crate) fn name(&self) -> &[u8]
        ensures { result.now ≡ name_in self.now }
    {
        self.name.as_slice()
    }

    // Whether some unit mentions the name.
    pub(crate) fn stands(&self) -> bool
        ensures { result ≡ stands self.now.note }
    {
        self.note.units > 0
    }

    // One unit more mentions the name.
    pub(crate) fn raise(&mut self, defines: bool)
        ensures named { self.new.name ≡ self.old.name }
        ensures noted { self.new.note ≡ raised self.old.note defines }
    {
        self.note.units = self.note.units.saturating_add(1);
        self.note.defined = self.note.defined || defines;
    }

    // One unit less mentions the name.
    pub(crate) fn lower(&mut self, defines: bool)
        ensures named { self.new.name ≡ self.old.name }
        ensures noted { self.new.note ≡ lowered self.old.note defines }
    {
        self.note.units = self.note.units.saturating_sub(1);
        self.note.defined = self.note.defined && !defines;
    }

    // The name's block begins at this variable, or it has none.
    pub(crate) fn place(&mut self, first: Option<u16>)
        ensures named { self.new.name ≡ self.old.name }
        ensures noted { self.new.note ≡ placed first self.old.note }
    {
        self.note.first = first;
    }
}

// Changes one of the records.
pub(crate) fn change_record<F: FnOnce(&mut NameRecord)>(
    records: &mut [NameRecord],
    p: usize,
    change: F,
)
    requires within { p < length records.old }
    requires callable { F.IsAlwaysCallable change }
    ensures { (before after : AnyRecord) × (before ≡ slice_index_or records.old p before) × FnOnceReturnsAtMut F.FnOnce change before tt after × (records.new ≡ slice_set records.old p after) }
{
    change(&mut records[p]);
}

// No block is laid out for any of the names.
fn unplace(records: &mut [NameRecord])
    ensures { records.new ≡ map unplaced records.old }
{
    for known in records {
        known.place(None);
    }
}

// No block is laid out for any of the first so many names. The records are lent whole, since a part of a field is not lent
// from a struct with a ghost field.
pub(crate) fn unplace_first(records: &mut [NameRecord], used: usize)
    requires { used ≤ length records.old }
    ensures { records.new ≡ map unplaced (take used records.old) ++ drop used records.old }
{
    unplace(&mut records[..used]);
}
