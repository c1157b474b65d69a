//! What is asserted of a text.
ghost use Rattle.std.specs.Prelude.{option_map};
ghost use Rattle.adv_base.specs.Settings.{the_setting};
ghost use Rattle.report.specs.Texts.{FitsSetting};

use adv_base::Setting;
use report::{Done, text};
use std::alloc::Global;
use std::process::Abort;

/// The text of an answer to a command with three files.
pub(crate) fn assert_text(
    rt: &impl Abort,
    alloc: Global,
    done: &Done,
    setting: Option<&Setting<'_>>,
    want: &str,
)
    requires { FitsSetting (option_map (λ s. the_setting s.now) setting) done.now }
{
    let mut words = Vec::new(alloc);
    for word in ["explain", "shop.toml", "load.sql", "none.conf"] {
        let word = String::from_str(alloc, word).expect(rt, "memory");
        words.push(word).expect(rt, "memory");
    }
    let printed = text(alloc, done, words.as_slice(), setting).expect(rt, "memory");
    assert!(rt; printed.as_slice() == want.as_bytes(), "{want}");
}
