//! How much of a text was read.
ghost use Rattle.std.specs.Prelude.{◌≡◌, ◌+◌, ◌<◌};
ghost use Rattle.adv_base.specs.declared.limits.TheConstants.{MOST_CERTIFICATE_BYTES};

/// How many lines of a text were read, and how many bytes they have with their line feeds.
#[derive(Clone, Copy)]
pub(crate) struct Counts {
    pub(crate) bytes: u64,
    pub(crate) lines: u32,
}

impl Counts {
    /// Those with one more line, of so many bytes before its line feed.
    pub(crate) fn with_line(self, len: usize) -> Counts
        requires bytes { self.bytes + len < MOST_CERTIFICATE_BYTES }
        requires lines { self.lines < MOST_CERTIFICATE_BYTES }
        ensures { result ≡ record { bytes = self.bytes + len + 1; lines = self.lines + 1 } }
    {
        Counts {
            bytes: self.bytes + len as u64 + 1,
            lines: self.lines + 1,
        }
    }
}
