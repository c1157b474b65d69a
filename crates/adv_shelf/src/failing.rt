//! Calls that are to fail.
ghost use Rattle.std.specs.Prelude.{◌≡◌, ◌↔◌, IsTrue};
ghost use Rattle.adv_shelf.specs.Memory.{IsDue, after_call};

/// Takes one call from the numbers, and says whether it is to fail.
pub(crate) fn count_call(failing: &mut [u64]) -> bool
    ensures due { IsTrue result ↔ IsDue failing.old }
    ensures after { failing.new ≡ after_call failing.old }
{
    let due = failing.contains(&1);
    for calls in failing.iter_mut() {
        *calls = calls.saturating_sub(1);
    }
    due
}
