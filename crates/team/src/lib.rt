// Team bisimulation. What it is stands in specs/; each function here stands for one theorem about it, which its contract names, and does nothing else.
#![tactic(auto)]

ghost use Rattle.team.specs.Theorems.{BisimilarityIsEquivalence, BisimilarityIsLargest, TeamsLieInStages, StableStagesAreTeams, RoundsEnd, TablesAreStages};
ghost use Rattle.team.specs.Theorems.{ClassesAlwaysDecide, CountsAlwaysTell, ClosureIsEven, ClosureIsPairing, GreedyIsGreatest, GreedyIsShort};
ghost use Rattle.team.specs.Theorems.{FollowFinds, FollowKeeps, PairsTurn};

// Bisimilarity is an equivalence on the places of a net.
pub fn bisimilarity_is_equivalence()
    ensures { BisimilarityIsEquivalence }
{}

// Bisimilarity is itself a team bisimulation, and every other lies in it.
pub fn bisimilarity_is_largest()
    ensures { BisimilarityIsLargest }
{}

// Every team bisimulation lies in every stage, and a stage that agrees with the next is a team bisimulation.
pub fn stages_approach()
    ensures contain { TeamsLieInStages }
    ensures settle { StableStagesAreTeams }
{}

// The rounds are the lowest stage that agrees with the next, and fewer than the places.
pub fn rounds_end()
    ensures { RoundsEnd }
{}

// The stages by tables, which compute fast, are the stages.
pub fn tables_are_stages()
    ensures { TablesAreStages }
{}

// The classes decide bisimilarity, and a class is named by its lowest place.
pub fn classes_decide()
    ensures { ClassesAlwaysDecide }
{}

// A class count is the number of tokens on the places that are bisimilar to one.
pub fn class_counts_tell()
    ensures { CountsAlwaysTell }
{}

// Two markings are paired exactly when each class holds equally many tokens of both.
pub fn closure_is_even()
    ensures { ClosureIsEven }
{}

// The closure of a relation relates two markings exactly when some table pairs them through it.
pub fn closure_is_pairing()
    ensures { ClosureIsPairing }
{}

// Where each class holds equally many tokens of both, the greedy table is the greatest pairing; it has at most two cells above 0 for each place.
pub fn greedy_is_greatest()
    ensures greatest { GreedyIsGreatest }
    ensures short { GreedyIsShort }
{}

// While two markings are paired, a transition that can fire on one has one that fits on the other, and after both have fired the two are paired again.
pub fn follow_succeeds()
    ensures finds { FollowFinds }
    ensures keeps { FollowKeeps }
    ensures turn { PairsTurn }
{}
