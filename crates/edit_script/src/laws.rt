//! Laws of scripts.
ghost use Rattle.edit_script.specs.Laws as laws;

/// A text has one reading: it is one script at most, or has one bad line, and not both.
pub fn readings_are_one()
    ensures scripts { laws.ScriptsAreOne }
    ensures lines { laws.BadLinesAreOne }
    ensures none { laws.ScriptsHaveNone }
{}
