// The laws, each a contract: a function of this file computes nothing.
ghost use Rattle.books.specs.Counts.{TableGrowsAtEnd, EntriesBehind, SameSizesSameVariables, TableHasNamesOnce, SameTextsSameVariables, DeclaredNamesAreShort, LoadAdds, LoadGrowsTable, UnloadTakes, UnloadShrinksTable, DeclaredWhileCounted, ClashByCounts};
ghost use Rattle.books.specs.Known.{KnownList, KnownUnits, KnownClashes, KnownLimits};
ghost use Rattle.books.specs.Listing.{ListingHasTheWords, WordsHaveOrigins};
ghost use Rattle.books.specs.Loads.{NothingIsABook, LoadKeepsBook, UnloadKeepsBook, LoadsCommute};
ghost use Rattle.books.specs.Replies.{SameTextsSameReplies, KnownIsWithin, MoreTextsMorePairs};
ghost use Rattle.books.specs.Solutions.{ListIsValid, PointsInEverySolution, AliasInEverySolution, TargetsInEverySolution};
ghost use Rattle.books.specs.Targets.{PointersAreWithin, TargetsRise};

// What the smallest solution of a book's list says of every solution of its texts.
pub fn solutions_of_texts()
    ensures valid { ListIsValid }
    ensures points { PointsInEverySolution }
    ensures alias { AliasInEverySolution }
    ensures targets { TargetsInEverySolution }
    ensures rising { TargetsRise }
    ensures known { KnownIsWithin }
    ensures pointers { PointersAreWithin }
{}

// What depends on the set of texts alone, not on the numbers they stand under.
pub fn same_texts()
    ensures replies { SameTextsSameReplies }
    ensures variables { SameTextsSameVariables }
    ensures more { MoreTextsMorePairs }
{}

// Loads and unloads leave a book, in whatever order.
pub fn loads_and_unloads()
    ensures none { NothingIsABook }
    ensures load { LoadKeepsBook }
    ensures unload { UnloadKeepsBook }
    ensures commute { LoadsCommute }
{}

// The table, name by name.
pub fn tables_of_names()
    ensures at_end { TableGrowsAtEnd }
    ensures behind { EntriesBehind }
    ensures once { TableHasNamesOnce }
    ensures short { DeclaredNamesAreShort }
    ensures any_order { SameSizesSameVariables }
{}

// What a text adds to the table and to the counts of a name, and takes away again.
pub fn counts_of_names()
    ensures load { LoadAdds }
    ensures load_table { LoadGrowsTable }
    ensures unload { UnloadTakes }
    ensures unload_table { UnloadShrinksTable }
    ensures declared { DeclaredWhileCounted }
    ensures clash { ClashByCounts }
{}

// Where each word of the list comes from.
pub fn origins_of_words()
    ensures words { ListingHasTheWords }
    ensures origins { WordsHaveOrigins }
{}

// Texts with known outcomes.
pub fn known_outcomes()
    ensures list { KnownList }
    ensures units { KnownUnits }
    ensures clashes { KnownClashes }
    ensures limits { KnownLimits }
{}
