//! The numbers of candidates behind a step, by those before it.
ghost use Rattle.std.specs.Prelude.{◌≡◌, ◌<◌, ◌≤◌, true, All, length, take, slice_index_or};
ghost use Rattle.adv_base.specs.declared.catalogue.index.IndexShape as declared;
ghost use Rattle.bip_model.specs.StandsFor.{candidates_on};
ghost use Rattle.retune.specs.inner.Renewing.{IsCandidate};

use crate::tables::Changed;
use adv_base::IndexShape;
use adv_base::limits::MOST_CANDIDATES;

/// What stands where no number is written: a candidate has gone, or its table is among the changed ones.
const UNWRITTEN: u16 = 1;

/// The new number of each old one, both from 1, where the table of its candidate has the same candidates as before, in the same
/// sequence; and the other tables.
#[derive(Clone, Copy)]
pub(crate) struct Numbers {
    of: [u16; MOST_CANDIDATES + 1],
    pub changed: Changed,
    ghost candidates: { All IsCandidate of },
}

/// Whether two shapes are the same: of one table, with the same keys, as unique and as clustered.
pub fn is_same_shape(a: &IndexShape, b: &IndexShape) -> bool
    ensures same { result ≡ true → a.now ≡ b.now }
    ensures each { a.now ≡ b.now → result ≡ true }
{
    if a.table != b.table || a.unique != b.unique || a.clustered != b.clustered {
        return false;
    }
    a.keys.as_slice() == b.keys.as_slice()
}

/// The place of the next shape on a table, from a place on; their count where there is none.
fn next_on(shapes: &[IndexShape], table: u16, from: usize) -> usize
    requires { from ≤ length shapes.now }
    ensures least { from ≤ result }
    ensures most { result ≤ length shapes.now }
    ensures on { result < length shapes.now → (d : declared.IndexShape) → (slice_index_or shapes.now result d).table ≡ table }
    ensures none_between { candidates_on (take result shapes.now) table ≡ candidates_on (take from shapes.now) table }
{
    for at in from..shapes.len() {
        if shapes[at].table == table {
            return at;
        }
    }
    shapes.len()
}

impl Numbers {
    ghost use Rattle.std.specs.Prelude.{◌≡◌, ◌≢◌, ◌≤◌, ℕ, true, false, length, slice_index_or};
    ghost use Rattle.adv_base.specs.declared.limits.TheConstants.{MOST_CANDIDATES, MOST_TABLES};
    ghost use Rattle.retune.specs.inner.Renewing as inner;

    /// Writes the new numbers of the candidates on a table; whether it has the same ones as before, in the same sequence. Else
    /// some of the numbers may be written.
    fn write(&mut self, old: &[IndexShape], new: &[IndexShape], table: u16) -> bool
        requires old_few { length old.now ≤ MOST_CANDIDATES }
        requires new_few { length new.now ≤ MOST_CANDIDATES }
        ensures changed { self.new.changed ≡ self.old.changed }
        ensures same { result ≡ true → inner.IsRenumbering (λ n. slice_index_or self.new.of n 0) old.now new.now table }
        ensures others { (t : ℕ) → t ≢ table → inner.IsRenumbering (λ n. slice_index_or self.old.of n 0) old.now new.now t → inner.IsRenumbering (λ n. slice_index_or self.new.of n 0) old.now new.now t }
    {
        let mut from = next_on(old, table, 0);
        let mut at = next_on(new, table, 0);
        while from < old.len() {
            if at >= new.len() || !is_same_shape(&old[from], &new[at]) {
                return false;
            }
            self.of[from + 1] = at as u16 + 1;
            from = next_on(old, table, from + 1);
            at = next_on(new, table, at + 1);
        }
        at >= new.len()
    }

    /// Writes the new numbers of the candidates on a changed table, and takes that out where it has the same ones as before.
    fn settle(&mut self, old: &[IndexShape], new: &[IndexShape], table: u16)
        requires old_few { length old.now ≤ MOST_CANDIDATES }
        requires new_few { length new.now ≤ MOST_CANDIDATES }
        requires changed { inner.has_changed self.old.changed table ≡ true }
        ensures others { (t : ℕ) → t ≢ table → inner.has_changed self.new.changed t ≡ inner.has_changed self.old.changed t }
        ensures numbers { (t : ℕ) → (inner.has_changed self.old.changed t ≡ false → inner.IsRenumbering (λ n. slice_index_or self.old.of n 0) old.now new.now t) → inner.has_changed self.new.changed t ≡ false → inner.IsRenumbering (λ n. slice_index_or self.new.of n 0) old.now new.now t }
    {
        if !self.write(old, new, table) {
            return;
        }
        self.changed.take_out(table);
    }

    /// The numbers by old and new candidates over so many tables.
    pub(crate) fn new(tables: usize, old: &[IndexShape], new: &[IndexShape]) -> Numbers
        requires tables { tables ≤ MOST_TABLES }
        requires old_few { length old.now ≤ MOST_CANDIDATES }
        requires new_few { length new.now ≤ MOST_CANDIDATES }
        ensures { (t : ℕ) → inner.has_changed result.changed t ≡ false → inner.IsRenumbering (λ n. slice_index_or result.of n 0) old.now new.now t }
    {
        let mut numbers = Numbers {
            of: [UNWRITTEN; MOST_CANDIDATES + 1],
            changed: Changed::all(),
        };
        for table in 0..tables {
            numbers.settle(old, new, table as u16);
        }
        numbers
    }

    /// The new number of an old one.
    pub(crate) fn number(&self, old: u16) -> u16
        requires { old ≤ MOST_CANDIDATES }
        ensures exact { result ≡ slice_index_or self.now.of old 0 }
        ensures least { 1 ≤ result }
        ensures most { result ≤ MOST_CANDIDATES }
    {
        self.of[old as usize]
    }
}
