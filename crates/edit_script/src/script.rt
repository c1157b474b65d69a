//! Whole scripts.
ghost use Rattle.std.specs.Prelude.{◌≡◌, ◌+◌, ◌≤◌, IfOk, IfErr, if◌then◌else◌};
ghost use Rattle.edit_script.specs.Scripts as scripts;
ghost use Rattle.edit_script.specs.inner.Fronts as fronts;

use crate::edit::{Edit, Edits, MOST_ADVICES, MOST_LINES};
use crate::fault::ScriptFault;
use crate::line::front_edit;
use adv_base::List;
use std::alloc::Global;

/// How often an edit asks for advice.
fn advices_in(edit: &Edit<'_>) -> usize
    ensures { result ≡ (if scripts.is_advise (scripts.the_edit edit.now) then 1 else 0) }
{
    match edit {
        Edit::Advise => 1,
        _ => 0,
    }
}

/// Reads a script: its edits in order, a line each, to the end of the bytes. Else `BadLine` is the first line, from 1, that
/// isn't one of `add W SQL`, `remove N`, `weigh N W` and `advise`, has a number out of range or no line feed, or is the 1001st
/// line or the 17th that asks for advice. `Memory` is want of memory.
pub fn read_edits<'a>(alloc: Global, bytes: &'a [u8]) -> Result<Edits<'a>, ScriptFault>
    ensures script { IfOk result (λ edits. scripts.IsScript bytes.now (scripts.the_edits edits)) }
    ensures fault { IfErr result (scripts.IsFault bytes.now) }
{
    let mut edits = Vec::new(alloc);
    let mut advices = 0;
    let mut rest = bytes;
    'lines: while !rest.is_empty() {
        let bad = ScriptFault::BadLine(edits.len() as u32 + 1);
        let (edit, more) = match front_edit(rest) {
            Some(read) => read,
            None => return Err(bad),
        };
        advices += advices_in(&edit);
        if edits.len() == MOST_LINES || advices > MOST_ADVICES {
            return Err(bad);
        }
        edits.push(edit)?;
        rest = more;
    }
    Ok(Edits {
        list: List { items: edits },
    })
}
