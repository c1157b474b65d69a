//! Laws of lines of rules, and of what is answered.
ghost use Rattle.dba_rules.specs.Laws as laws;

/// A line is read as a rule exactly where it is spelled so, and so as one rule at most; each other line is a bad one.
pub fn lines_are_rules()
    ensures spelled { laws.LinesAreSpelled }
    ensures bad { laws.OthersAreBad }
{}

/// There is one fault at most of what has to be, and none where that fits a budget; and one candidate
/// at most at which a configuration is told not to be below a node, and none where it is.
pub fn one_answer()
    ensures faults { laws.OneFault }
    ensures broken { laws.OneBroken }
{}
