//! What a benchmark answers from.
ghost use Rattle.std.specs.Prelude.{◌≡◌, ◌≤◌, ◌∷◌, [], IfOk};
ghost use Rattle.workload_gen.specs.Texts.{catalogue_text, workload_text};

use crate::files::put;
use adv_base::{Bytes, List, NoMemory};
use std::alloc::Global;
use workload_gen::make;

/// The bytes of a catalogue of so many tables and those of a workload of so many statements, made from a seed.
pub(crate) fn made_inputs(
    alloc: Global,
    seed: u64,
    tables: u32,
    statements: u32,
) -> Result<List<Bytes>, NoMemory>
    requires tables_some { 2 ≤ tables }
    requires tables_few { tables ≤ 20 }
    requires statements_some { 1 ≤ statements }
    requires statements_few { statements ≤ 500 }
    ensures { IfOk result (λ inputs. inputs ≡ catalogue_text seed tables ∷ workload_text seed tables statements ∷ []) }
{
    let made = make(alloc, seed, tables, statements)?;
    let mut inputs = Vec::new(alloc);
    put(&mut inputs, made.catalogue)?;
    put(&mut inputs, made.workload)?;
    Ok(List { items: inputs })
}
