//! Laws of the grammar.
ghost use Rattle.sql_reader.specs.Terminals.{places_of, starts_in};
ghost use Rattle.sql_reader.specs.Printed.{IsAsPrinted};
ghost use Rattle.sql_reader.specs.Values.{no_statements};
ghost use Rattle.sql_reader.specs.Workload.{BeginsOneTooMany, HasSqlFault, IsWorkload, MeansStatements};
ghost use Rattle.sql_reader.specs.declared.parsed.ParsedStatement.{ParsedStatement};
ghost use Rattle.sql_reader.specs.declared.parsed.SqlFault.{SqlFault};
ghost use Rattle.sql_reader.specs.declared.parsed.SqlFault.TheVariants.{TooManyStatements};
ghost use Rattle.sql_reader.specs.declared.parts.Progress.{Progress};
ghost use Rattle.sql_reader.specs.declared.terminal.Terminal.{Terminal};
ghost use Rattle.std.specs.Prelude.{◌≡◌, List, ℕ};

/// Each list of terminals has at most one meaning as a workload.
pub fn one_meaning()
    ensures { (start : Progress) (terminals : List Terminal) (first second : Progress) →
        MeansStatements start terminals first → MeansStatements start terminals second → first ≡ second }
{}

/// A text has one answer: it is a workload of one list of statements, or it has one fault, and not both.
pub fn one_answer()
    ensures statements { (text : List ℕ) (first second : List ParsedStatement) → IsWorkload text first → IsWorkload text second → first ≡ second }
    ensures fault { (text : List ℕ) (first second : SqlFault) → HasSqlFault text first → HasSqlFault text second → first ≡ second }
    ensures either { (text : List ℕ) (statements : List ParsedStatement) (fault : SqlFault) → IsWorkload text statements → HasSqlFault text fault → ⊥ }
{}

/// The statements of a workload begin at its words that begin one, in order. So the 1001st of these words is the
/// first token of the 1001st statement of each workload that goes on through it.
pub fn statements_begin()
    ensures { (terminals : List Terminal) (progress : Progress) →
        MeansStatements no_statements terminals progress → places_of progress.statements ≡ starts_in terminals }
{}

/// Too many statements are at the first token of the 1001st statement of a workload that goes on through it.
pub fn one_too_many()
    ensures { (text : List ℕ) (place : ℕ) → HasSqlFault text (TooManyStatements place) → BeginsOneTooMany text place }
{}

/// The grammar as docs/FORMATS.md prints it, alternative by alternative, means what the rules mean by which workloads
/// are read.
pub fn as_printed()
    ensures { IsAsPrinted }
{}
