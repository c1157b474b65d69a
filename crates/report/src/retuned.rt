//! The text of advice again and again.
ghost use Rattle.std.specs.Prelude.{◌≡◌, ◌++◌, OnOk, All, option_map};
ghost use Rattle.adv_base.specs.Settings.{the_setting};
ghost use Rattle.report.specs.Retuned.{tuned_text, tuned_texts, retuned_text};
ghost use Rattle.report.specs.Texts.{FitsCatalogue, FitCatalogueOf};

use crate::Tuned;
use crate::advised::{push_advice, push_line_of};
use adv_base::{Catalogue, Setting};
use std::alloc::{AllocError, Global};

/// Adds the text of advice with its number.
#[tactic(auto, unfolding(crate::specs::Retuned::tuned_text))]
fn push_tuned(
    alloc: Global,
    out: &mut Vec<u8>,
    cat: &Catalogue,
    number: u128,
    tuned: &Tuned,
) -> Result<(), AllocError>
    requires { FitsCatalogue cat.now tuned.now }
    ensures { OnOk result (out.new.items ≡ out.old.items ++ tuned_text cat.now number tuned.now) }
{
    push_line_of(alloc, out, b"advice ", number)?;
    push_advice(alloc, out, cat, tuned.shapes.as_slice(), &tuned.advice)
}

/// Adds the texts of advice one after another.
fn push_all(
    alloc: Global,
    out: &mut Vec<u8>,
    cat: &Catalogue,
    tuned: &[Tuned],
) -> Result<(), AllocError>
    requires { All (FitsCatalogue cat.now) tuned.now }
    ensures { OnOk result (out.new.items ≡ out.old.items ++ tuned_texts cat.now 1 tuned.now) }
{
    'tuned: for at in 0..tuned.len() {
        push_tuned(alloc, out, cat, at as u128 + 1, &tuned[at])?;
    }
    Ok(())
}

/// Adds the texts of advice that a script of edits asks for, over the setting that is there.
pub(crate) fn push_retuned(
    alloc: Global,
    out: &mut Vec<u8>,
    setting: Option<&Setting<'_>>,
    tuned: &[Tuned],
) -> Result<(), AllocError>
    requires { FitCatalogueOf (option_map (λ s. the_setting s.now) setting) tuned.now }
    ensures { OnOk result (out.new.items ≡ out.old.items ++ retuned_text (option_map (λ s. the_setting s.now) setting.entry) tuned.now) }
{
    match setting {
        None => Ok(()),
        Some(setting) => push_all(alloc, out, setting.cat, tuned),
    }
}
