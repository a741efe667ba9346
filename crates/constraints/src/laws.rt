// The laws, each a contract: a function of this file computes nothing.
ghost use Rattle.constraints.specs.Merge.{same_mark};
ghost use Rattle.constraints.specs.Theorems.{LeastIsSmallest, SmallestIsUnique, InEverySolution, ObjectsMakeNoDifference, ObjectsAreTaken, PrefixIsContained, ContainedHasFewer, NewPairCountsOne, EqualMarksEqualRows, ReducedHasSameRows, LayerIsRight, OwnPosition, SettledIsLeast, FullIsTooMany, PositionIsEarliest, RenumberingKeepsRows, EmbeddingKeepsPairs, KnownOutcomes, ReachesByWalks, ObjectsStartBlocks, OneSlot};
ghost use Rattle.constraints.specs.Value.{value_class};

// The smallest solution exists, is one, and holds what every solution holds.
pub fn smallest_solution()
    ensures exists { LeastIsSmallest }
    ensures unique { SmallestIsUnique }
    ensures common { InEverySolution }
    ensures untyped { ObjectsMakeNoDifference }
    ensures taken { ObjectsAreTaken }
    ensures prefix { PrefixIsContained }
{}

// Variables may bear other numbers; blocks tell which are objects.
pub fn numbers_of_variables()
    ensures renumbered { RenumberingKeepsRows }
    ensures embedded { EmbeddingKeepsPairs }
    ensures objects { ObjectsStartBlocks }
    ensures slots { OneSlot }
{}

// How many pairs there are, which lists fit a room, and where one stops fitting.
pub fn counting_pairs()
    ensures contained { ContainedHasFewer }
    ensures one_more { NewPairCountsOne }
    ensures settled { SettledIsLeast }
    ensures full { FullIsTooMany }
    ensures position { PositionIsEarliest }
{}

// Variables with equal marks or equal values have equal rows, and the reduced list keeps the rows.
pub fn merging()
    ensures reach { ReachesByWalks }
    ensures marks { EqualMarksEqualRows }
    ensures reduction { ReducedHasSameRows }
    ensures by_mark { LayerIsRight same_mark }
    ensures by_value { LayerIsRight value_class }
    ensures own_position { OwnPosition }
{}

// The table of lists with known outcomes is right.
pub fn known_outcomes()
    ensures { KnownOutcomes }
{}
