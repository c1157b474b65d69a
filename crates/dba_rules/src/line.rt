//! Lines of rules, as they are spelled.
ghost use Rattle.std.specs.Prelude.{◌≡◌, ◌<◌, ◌≤◌, ℕ, true, false, length, slice_index, IfOk};
ghost use Rattle.adv_base.specs.declared.limits.TheConstants.{MOST_KEYS};
ghost use Rattle.std.specs.List.{list_all, prefix_len};
ghost use Rattle.std.specs.Option.{option_copied};
ghost use Rattle.dba_rules.specs.Lines as lines;
ghost use Rattle.dba_rules.specs.Faults.{Gives};

use crate::fault::RuleFault;
use adv_base::limits::MOST_KEYS;
use adv_base::{List, Name};
use std::alloc::{AllocError, Global};

/// An index, as a rule names it.
#[derive(Debug, Drop)]
pub struct IndexName {
    pub table: Name,
    pub columns: List<Name>,
    pub clustered: bool,
}

/// What a rule names: an index, a table, or a column with its table.
#[derive(Debug, Drop)]
pub enum Named {
    Index(IndexName),
    Table(Name),
    Column(Name, Name),
}

/// What a line says: nothing, that an index has to be, or what must never be indexed.
#[derive(Debug, Drop)]
pub enum Rule {
    Blank,
    Must(IndexName),
    Never(Named),
}

/// Whether a name may have a byte.
fn is_name_byte(byte: u8) -> bool
    ensures { result ≡ lines.is_name_byte byte }
{
    byte.is_ascii_alphanumeric() || byte == b'_'
}

/// Whether bytes begin with no digit.
fn begins_well(word: &[u8]) -> bool
    ensures { result ≡ lines.begins_well word.now }
{
    match word {
        [] => true,
        [first, ..] => !first.is_ascii_digit(),
    }
}

/// Whether a name may have each of some bytes.
fn has_name_bytes(word: &[u8]) -> bool
    ensures { result ≡ list_all lines.is_name_byte word.now }
{
    word.iter().all(|byte| is_name_byte(*byte))
}

/// Whether bytes are a name.
#[tactic(auto, unfolding(crate::specs::Lines::is_name))]
fn is_name(word: &[u8]) -> bool
    ensures { result ≡ lines.is_name word.now }
{
    !word.is_empty() && word.len() <= 64 && has_name_bytes(word) && begins_well(word)
}

/// Where the bytes of a name at the front end.
fn word_end(bytes: &[u8]) -> usize
    ensures within { result ≤ length bytes.now }
    ensures before { (k : ℕ) → k < result → lines.is_name_byte (slice_index bytes.now k) ≡ true }
    ensures at { result < length bytes.now → lines.is_name_byte (slice_index bytes.now result) ≡ false }
{
    for (i, byte) in bytes.iter().enumerate() {
        if !is_name_byte(*byte) {
            return i;
        }
    }
    bytes.len()
}

/// How many bytes of a name stand at the front.
fn word_len(bytes: &[u8]) -> usize
    ensures exact { result ≡ prefix_len lines.is_name_byte bytes.now }
    ensures within { result ≤ length bytes.now }
{
    word_end(bytes)
}

/// The name at the front, and what follows it.
fn front_name(number: u32, bytes: &[u8]) -> Result<(&[u8], &[u8]), RuleFault>
    ensures { Gives (λ r. (r.0.now, r.1.now)) result (lines.front_name number bytes.now) }
{
    let len = word_len(bytes);
    let word = &bytes[..len];
    if !is_name(word) {
        return Err(RuleFault::BadLine(number));
    }
    Ok((word, &bytes[len..]))
}

/// What follows a word at the front.
fn after<'a>(word: &[u8], bytes: &'a [u8]) -> Option<&'a [u8]>
    ensures { option_copied result ≡ lines.after word.now bytes.now }
{
    match bytes.strip_prefix(word) {
        Some(rest) => Some(rest),
        None => None,
    }
}

/// What follows a word that has to stand at the front.
fn behind<'a>(number: u32, word: &[u8], bytes: &'a [u8]) -> Result<&'a [u8], RuleFault>
    ensures { Gives (λ rest. rest.now) result (lines.behind number word.now bytes.now) }
{
    match after(word, bytes) {
        Some(rest) => Ok(rest),
        None => Err(RuleFault::BadLine(number)),
    }
}

/// A copy of a name's bytes.
fn name_of(alloc: Global, word: &[u8]) -> Result<Name, AllocError>
    ensures { IfOk result (λ name. name ≡ word.now) }
{
    Ok(Name {
        items: Vec::from_slice(alloc, word)?,
    })
}

/// Puts a name behind the others.
fn put(alloc: Global, columns: &mut List<Name>, word: &[u8]) -> Result<(), RuleFault>
    ensures { Gives (λ _. columns.new) result (lines.put columns.old word.now) }
{
    let name = name_of(alloc, word)?;
    columns.items.push(name)?;
    Ok(())
}

/// Reads a column behind the others; says whether it is the last, and what follows.
#[tactic(auto, unfolding(crate::specs::Lines::column_step))]
fn column_step<'a>(
    alloc: Global,
    number: u32,
    columns: &mut List<Name>,
    bytes: &'a [u8],
) -> Result<(bool, &'a [u8]), RuleFault>
    ensures { Gives (λ r. (columns.new, r.0, r.1.now)) result (lines.column_step number columns.old bytes.now) }
{
    let (word, rest) = front_name(number, bytes)?;
    put(alloc, columns, word)?;
    if let Some(more) = after(b")", rest) {
        return Ok((true, more));
    }
    let more = behind(number, b", ", rest)?;
    Ok((false, more))
}

/// Reads the columns of an index up to the closing parenthesis, and gives what follows that.
fn read_columns<'a>(
    alloc: Global,
    number: u32,
    columns: &mut List<Name>,
    bytes: &'a [u8],
) -> Result<&'a [u8], RuleFault>
    ensures { Gives (λ rest. (columns.new, rest.now)) result (lines.columns_from number MOST_KEYS columns.old bytes.now) }
{
    let mut rest = bytes;
    'columns: for _count in 0..MOST_KEYS {
        let (closed, more) = column_step(alloc, number, columns, rest)?;
        if closed {
            return Ok(more);
        }
        rest = more;
    }
    Err(RuleFault::BadLine(number))
}

/// Whether what follows an index calls it clustered.
fn tail(number: u32, rest: &[u8]) -> Result<bool, RuleFault>
    ensures { Gives (λ clustered. clustered) result (lines.tail number rest.now) }
{
    if rest.is_empty() {
        return Ok(false);
    }
    let word = b" clustered".as_slice();
    if rest == word {
        return Ok(true);
    }
    Err(RuleFault::BadLine(number))
}

/// An index from the parenthesis behind its table on.
#[tactic(auto, unfolding(crate::specs::Lines::index_from))]
fn index_from(alloc: Global, number: u32, table: &[u8], rest: &[u8]) -> Result<IndexName, RuleFault>
    ensures { Gives (λ index. index) result (lines.index_from number table.now rest.now) }
{
    let inside = behind(number, b"(", rest)?;
    let mut columns = List::new(alloc);
    let more = read_columns(alloc, number, &mut columns, inside)?;
    let clustered = tail(number, more)?;
    let table = name_of(alloc, table)?;
    Ok(IndexName {
        table,
        columns,
        clustered,
    })
}

/// A column behind its table.
#[tactic(auto, unfolding(crate::specs::Lines::column_of))]
fn column_of(alloc: Global, number: u32, table: &[u8], column: &[u8]) -> Result<Named, RuleFault>
    ensures { Gives (λ named. named) result (lines.column_of number table.now column.now) }
{
    if !is_name(column) {
        return Err(RuleFault::BadLine(number));
    }
    let table = name_of(alloc, table)?;
    let column = name_of(alloc, column)?;
    Ok(Named::Column(table, column))
}

/// What a rule names, from what stands behind the name of a table on.
#[tactic(auto, unfolding(crate::specs::Lines::named_from))]
fn named_from(alloc: Global, number: u32, table: &[u8], rest: &[u8]) -> Result<Named, RuleFault>
    ensures { Gives (λ named. named) result (lines.named_from number table.now rest.now) }
{
    if rest.is_empty() {
        let table = name_of(alloc, table)?;
        return Ok(Named::Table(table));
    }
    if let Some(column) = after(b".", rest) {
        return column_of(alloc, number, table, column);
    }
    let index = index_from(alloc, number, table, rest)?;
    Ok(Named::Index(index))
}

/// Whether a line is empty or a comment.
fn is_blank(line: &[u8]) -> bool
    ensures { result ≡ lines.is_blank line.now }
{
    line.is_empty() || line[0] == b'#'
}

/// What a `must` says, from behind the word on.
#[tactic(auto, unfolding(crate::specs::Lines::must))]
fn must(alloc: Global, number: u32, rest: &[u8]) -> Result<Rule, RuleFault>
    ensures { Gives (λ rule. rule) result (lines.must number rest.now) }
{
    let (table, more) = front_name(number, rest)?;
    let index = index_from(alloc, number, table, more)?;
    Ok(Rule::Must(index))
}

/// What a `never` says.
#[tactic(auto, unfolding(crate::specs::Lines::never))]
fn never(alloc: Global, number: u32, rest: &[u8]) -> Result<Rule, RuleFault>
    ensures { Gives (λ rule. rule) result (lines.never number rest.now) }
{
    let (table, more) = front_name(number, rest)?;
    let named = named_from(alloc, number, table, more)?;
    Ok(Rule::Never(named))
}

/// What a line that isn't blank says.
#[tactic(auto, unfolding(crate::specs::Lines::spoken))]
fn spoken(alloc: Global, number: u32, line: &[u8]) -> Result<Rule, RuleFault>
    ensures { Gives (λ rule. rule) result (lines.spoken number line.now) }
{
    if let Some(rest) = after(b"must ", line) {
        return must(alloc, number, rest);
    }
    let rest = behind(number, b"never ", line)?;
    never(alloc, number, rest)
}

/// What a line says, which stands without its line feed; `BadLine` where it is none of rules.
#[tactic(auto, unfolding(crate::specs::Lines::rule_in))]
pub fn rule_in(alloc: Global, number: u32, line: &[u8]) -> Result<Rule, RuleFault>
    ensures { Gives (λ rule. rule) result (lines.rule_in number line.now) }
{
    if is_blank(line) {
        return Ok(Rule::Blank);
    }
    spoken(alloc, number, line)
}
