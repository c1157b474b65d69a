//! What is asserted of a run.
use std::process::Abort;

/// A status and an output are the wanted ones.
pub(crate) fn assert_told(rt: &impl Abort, found: (u8, &[u8]), want: (u8, &[u8]), about: &str) {
    assert_eq!(rt; found.0, want.0, "{about}");
    assert_eq!(rt; found.1, want.1, "{about}");
}
