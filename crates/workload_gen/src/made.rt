//! The two texts.
ghost use Rattle.std.specs.Prelude.{◌≡◌, ◌≤◌, IfOk, length, string_bytes};
ghost use Rattle.adv_base.specs.declared.limits.TheConstants.{MOST_FILE_BYTES};
ghost use Rattle.workload_gen.specs.Texts.{catalogue_text, workload_text};

use crate::draws::Draws;
use crate::statements::push_statements;
use crate::tables::push_tables;
use adv_base::{Bytes, NoMemory};
use std::alloc::{AllocError, Global};

/// A catalogue, as TOML, and a workload over its tables, as SQL.
#[derive(Debug, Drop)]
pub struct Made {
    pub catalogue: Bytes,
    pub workload: Bytes,
}

/// Makes both texts.
#[tactic(auto, unfolding(crate::specs::Texts::catalogue_text, crate::specs::Texts::workload_text))]
fn make_texts(
    alloc: Global,
    seed: u64,
    tables: u32,
    statements: u32,
) -> Result<(String, String), AllocError>
    requires tables_some { 2 ≤ tables }
    requires tables_few { tables ≤ 20 }
    ensures catalogue { IfOk result (λ texts. string_bytes texts.0 ≡ catalogue_text seed tables) }
    ensures workload { IfOk result (λ texts. string_bytes texts.1 ≡ workload_text seed tables statements) }
{
    let mut draws = Draws { state: seed };
    let mut catalogue = String::new(alloc);
    catalogue.push_str("version = 1\n")?;
    push_tables(&mut catalogue, &mut draws, tables)?;
    let mut workload = String::new(alloc);
    push_statements(&mut workload, &mut draws, tables, statements)?;
    Ok((catalogue, workload))
}

/// Makes a catalogue of 2 to 20 tables and a workload of 1 to 500 statements over them. A seed gives the same bytes each
/// time. Each text is short enough to be read where a file would be. The only error is want of memory, of which the texts
/// take the most.
pub fn make(alloc: Global, seed: u64, tables: u32, statements: u32) -> Result<Made, NoMemory>
    requires tables_some { 2 ≤ tables }
    requires tables_few { tables ≤ 20 }
    requires statements_some { 1 ≤ statements }
    requires statements_few { statements ≤ 500 }
    ensures catalogue { IfOk result (λ made. made.catalogue ≡ catalogue_text seed tables) }
    ensures workload { IfOk result (λ made. made.workload ≡ workload_text seed tables statements) }
    ensures catalogue_short { IfOk result (λ made. length made.catalogue ≤ MOST_FILE_BYTES) }
    ensures workload_short { IfOk result (λ made. length made.workload ≤ MOST_FILE_BYTES) }
{
    match make_texts(alloc, seed, tables, statements) {
        Ok((catalogue, workload)) => Ok(Made {
            catalogue: Bytes {
                items: catalogue.into_bytes(),
            },
            workload: Bytes {
                items: workload.into_bytes(),
            },
        }),
        Err(_) => Err(NoMemory),
    }
}
