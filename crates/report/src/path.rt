//! The paths of a catalogue's keys.
ghost use Rattle.std.specs.Prelude.{◌≡◌, ◌++◌, OnOk, codes};
ghost use Rattle.report.specs.Paths.{field_word as word_of_field, bracket as bracket_text, dotted as dotted_text, path_text};

use adv_base::push_decimal;
use catalogue::{KeyField, KeyPart, KeyPath};
use std::alloc::{AllocError, Global};

/// The word of a key, as the catalogue spells it.
fn field_word(field: KeyField) -> &'static [u8]
    ensures { result.now ≡ word_of_field field }
{
    match field {
        KeyField::Itself => b"",
        KeyField::Version => b"version",
        KeyField::SeqPage => b"seq_page",
        KeyField::RandPage => b"rand_page",
        KeyField::RowCpu => b"row_cpu",
        KeyField::SortCpu => b"sort_cpu",
        KeyField::MergeCpu => b"merge_cpu",
        KeyField::HashCpu => b"hash_cpu",
        KeyField::GroupCpu => b"group_cpu",
        KeyField::Name => b"name",
        KeyField::Rows => b"rows",
        KeyField::Pages => b"pages",
        KeyField::MayCluster => b"may_cluster",
        KeyField::Columns => b"column",
        KeyField::Indexes => b"index",
        KeyField::Kind => b"kind",
        KeyField::Width => b"width",
        KeyField::Distinct => b"distinct",
        KeyField::Low => b"low",
        KeyField::High => b"high",
        KeyField::Bounds => b"bounds",
        KeyField::Keys => b"keys",
        KeyField::Unique => b"unique",
        KeyField::Clustered => b"clustered",
    }
}

/// Adds a number in brackets, where it isn't 0.
fn push_bracket(alloc: Global, out: &mut Vec<u8>, number: u32) -> Result<(), AllocError>
    ensures { OnOk result (out.new.items ≡ out.old.items ++ bracket_text number) }
{
    if number == 0 {
        return Ok(());
    }
    out.extend_from_slice(b"[")?;
    push_decimal(alloc, out, u128::from(number))?;
    out.extend_from_slice(b"]")?;
    Ok(())
}

/// Adds a point and the word of a key of its own.
fn push_dotted(out: &mut Vec<u8>, field: KeyField) -> Result<(), AllocError>
    ensures { OnOk result (out.new.items ≡ out.old.items ++ dotted_text field) }
{
    if field == KeyField::Itself {
        return Ok(());
    }
    out.extend_from_slice(b".")?;
    out.extend_from_slice(field_word(field))?;
    Ok(())
}

/// Adds the path of a key.
pub(crate) fn push_path(alloc: Global, out: &mut Vec<u8>, path: KeyPath) -> Result<(), AllocError>
    ensures { OnOk result (out.new.items ≡ out.old.items ++ path_text path) }
{
    match path.part {
        KeyPart::Whole => out.extend_from_slice(field_word(path.field))?,
        KeyPart::Rates => {
            out.extend_from_slice(b"rates")?;
            push_dotted(out, path.field)?;
        }
        KeyPart::Table => {
            out.extend_from_slice(b"table")?;
            push_bracket(alloc, out, path.table)?;
            push_dotted(out, path.field)?;
        }
        KeyPart::Column => push_item(alloc, out, path, b".column")?,
        KeyPart::Index => push_item(alloc, out, path, b".index")?,
    }
    Ok(())
}

/// Adds the path of a key of a column or of an index.
fn push_item(alloc: Global, out: &mut Vec<u8>, path: KeyPath, word: &[u8]) -> Result<(), AllocError>
    ensures { OnOk result (out.new.items ≡ out.old.items ++ (codes "table" ++ (bracket_text path.table
        ++ (word.now ++ (bracket_text path.item ++ (dotted_text path.field ++ bracket_text path.at)))))) }
{
    out.extend_from_slice(b"table")?;
    push_bracket(alloc, out, path.table)?;
    out.extend_from_slice(word)?;
    push_bracket(alloc, out, path.item)?;
    push_dotted(out, path.field)?;
    push_bracket(alloc, out, path.at)?;
    Ok(())
}
