//! A shelf: named files that are read in pieces and put whole.
ghost use Rattle.std.specs.Prelude.{◌≡◌, ◌≤◌, ◌<◌, ℕ, List, length, Option, Ok, OnOk, OnErr, IfOk, IsErrOf};
ghost use Rattle.adv_shelf.specs.Faults.{Rose};
ghost use Rattle.adv_shelf.specs.Shelf.{Files, HasFile, IsRead, IsPutInPart, put_file};

/// A read or a write failed. The object that was called has counted it.
#[derive(Clone, Copy, Debug, PartialEq, Eq)]
pub struct Failed;

/// Why a file could not be put.
#[derive(Clone, Copy, Debug, PartialEq, Eq)]
pub enum PutFault {
    /// Memory ran out.
    Memory,
    /// The write failed, and the shelf has counted it.
    Failed,
}

/// Named files, and counts of what failed.
pub trait Shelf {
    /// The files, where the shelf tells them.
    ghost files: { Self → Option Files };

    /// How many reads have failed.
    ghost read_faults: { Self → ℕ };

    /// How many reads of the file of that name have failed. A shelf may give all its reads for each name.
    ghost read_faults_at: { Self → List ℕ → ℕ };

    /// How many puts have failed.
    ghost put_faults: { Self → ℕ };

    /// Reads bytes of a file from a place on, and answers how many. It reads at least one where the buffer has
    /// room and the file goes on; fewer than the buffer holds do not say that the file ends. A file that is
    /// not there is a fault, except for an empty buffer, into which nothing is read.
    fn read_at(&mut self, name: &str, from: u64, buf: &mut [u8]) -> Result<usize, Failed>
        ensures within { IfOk result (λ n. n ≤ length buf.old) }
        ensures empty { length buf.old ≡ 0 → result ≡ Ok 0 }
        ensures read { 0 < length buf.old → IfOk result (λ n. HasFile (files self.old) name.now (λ file. IsRead file from n buf.new)) }
        ensures failed { OnErr result (Rose (read_faults self.old) (read_faults self.new)) }
        ensures failed_at { OnErr result (Rose (read_faults_at self.old name.now) (read_faults_at self.new name.now)) }

        ensures files { files self.new ≡ files self.old }
        ensures counts { read_faults self.old ≤ read_faults self.new }
        ensures counts_at { (n : List ℕ) → read_faults_at self.old n ≤ read_faults_at self.new n }
        ensures puts { put_faults self.new ≡ put_faults self.old };

    /// Makes these bytes the whole file of that name. All other files stay, whatever it answers.
    fn put(&mut self, name: &str, bytes: &[u8]) -> Result<(), PutFault>
        ensures ok { OnOk result (files self.new ≡ put_file (files self.old) name.now bytes.now) }
        ensures memory { IsErrOf result PutFault.Memory → files self.new ≡ files self.old }
        ensures failed { IsErrOf result PutFault.Failed → Rose (put_faults self.old) (put_faults self.new) }
        ensures in_part { IsErrOf result PutFault.Failed → IsPutInPart (files self.old) (files self.new) name.now bytes.now }

        ensures counts { put_faults self.old ≤ put_faults self.new }
        ensures reads { read_faults self.new ≡ read_faults self.old }
        ensures reads_at { (n : List ℕ) → read_faults_at self.new n ≡ read_faults_at self.old n };
}
