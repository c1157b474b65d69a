//! Laws of programmes and of trees, each proved of all settings: that a programme tells what each configuration costs, and
//! that a tree with its multipliers bounds what every fitting configuration costs; and what a search may rely on.
ghost use Rattle.bip_model.specs.Laws.{ValueIsTotal, PartCostIsLeast, TreesBound, ProofsBound, FreeProofsBound, OutNeverLowers, InNeverLowers, NoneUsefulIsTotal};
ghost use Rattle.bip_model.specs.SearchLaws.{SpaceIsDecided, UsefulIsDecided, UsefulAreCounted, GrantsAreUses, LimitsAreThose, ValuesNeverFall, NodesHaveSpace, TreesStaySmall};

/// Of a programme that stands for a setting, `value` is the total of the workload under every configuration, and
/// `part_cost` the cost of a least plan of the part's block.
pub fn value_is_total()
    ensures total { ValueIsTotal }
    ensures part { PartCostIsLeast }
{}

/// A tree whose leaves are bounded or overfull bounds every fitting configuration below its root: weak duality at each leaf.
/// So does what proves an answer; from a root that leaves each candidate free, every fitting configuration.
pub fn shown_bounds()
    ensures tree { TreesBound }
    ensures proof { ProofsBound }
    ensures free { FreeProofsBound }
{}

/// To make a free candidate out, or an open one in, never lowers the Lagrangian value of a node, whatever the multipliers
/// within their limits.
pub fn fixing_never_lowers()
    ensures out { OutNeverLowers }
    ensures inside { InNeverLowers }
{}

/// Where no open candidate is useful, the Lagrangian value of a node under the multipliers of zeros is the total of the
/// candidates that are in.
pub fn none_useful_is_total()
    ensures { NoneUsefulIsTotal }
{}

/// A programme that stands for a setting tells the space of its candidates, and so what fits, is open and is available;
/// which are useful, and how many; and its multipliers are multipliers of the setting's uses of candidates.
pub fn programme_decides()
    ensures space { SpaceIsDecided }
    ensures useful { UsefulIsDecided }
    ensures count { UsefulAreCounted }
    ensures multipliers { GrantsAreUses }
    ensures limits { LimitsAreThose }
{}

/// In a tree whose branches are on open and useful candidates, no Lagrangian value falls below that of the root, and the
/// pages of what is in are within the budget at every node where they are at the root.
pub fn values_never_fall()
    ensures value { ValuesNeverFall }
    ensures space { NodesHaveSpace }
{}

/// Such a tree is smaller than a whole tree over the useful candidates where it leaves a bound below the cost, and what is in
/// fits at each node that isn't called overfull.
pub fn trees_stay_small()
    ensures { TreesStaySmall }
{}
