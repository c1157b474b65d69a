//! Laws of alike statements and of folded workloads, each proved of all catalogues, workloads and configurations.
ghost use Rattle.workload_fold.specs.Bindings.{BindsAlike};
ghost use Rattle.workload_fold.specs.FoldedTokens.{FoldedTokens};
ghost use Rattle.workload_fold.specs.Laws as laws;
ghost use Rattle.workload_fold.specs.ReadingBack.{FoldedTextsReadBack};
ghost use Rattle.workload_fold.specs.Readings.{StatementsReadAlike};

/// Alike statements propose the same candidates, and cost the same under every configuration: their blocks have one task
/// and one table of offers, and they have one upkeep.
pub fn alike_cost_the_same()
    ensures proposals { laws.ProposeTheSame }
    ensures task { laws.HaveOneTask }
    ensures table { laws.HaveOneTable }
    ensures upkeep { laws.HaveOneUpkeep }
    ensures cost { laws.HaveOneCost }
{}

/// A folded workload has the candidates of the whole, with as many left over, and one total with it under every
/// configuration.
pub fn folding_keeps_totals()
    ensures proposals { laws.FoldingKeepsCandidates }
    ensures left_over { laws.FoldingKeepsLeftOver }
    ensures total { laws.FoldingKeepsTotals }
{}

/// Reading is natural in places: terminals of two texts that agree in their kinds, numbers and bytes are read as statements
/// that agree but for the places of names and texts.
pub fn reading_is_natural()
    ensures { StatementsReadAlike }
{}

/// Binding is natural in places: statements of two texts that agree but for the places of names and texts mean the same.
pub fn binding_is_natural()
    ensures { BindsAlike }
{}

/// A folded text is cut into the tokens of its groups and no others: for each group a comment that gives its weight, tokens of
/// the kinds and with the bytes of its first statement's, and `;`.
pub fn folded_texts_keep_tokens()
    ensures { FoldedTokens }
{}

/// Where statements were read and bound of a text, the text of their groups reads back, if it is short enough to be read: it is
/// a workload without a fault, it binds without one, and whatever is bound from it stands for the groups.
pub fn folded_texts_read_back()
    ensures { FoldedTextsReadBack }
{}
