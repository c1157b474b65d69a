//! Tables whose candidates have changed.
use adv_base::limits::MOST_TABLES;
use adv_base::{Block, IndexShape};

/// For each table whether its candidates have changed, by its number.
#[derive(Clone, Copy)]
pub(crate) struct Changed {
    pub on: [bool; MOST_TABLES],
}

impl Changed {
    ghost use Rattle.std.specs.Prelude.{◌≡◌, ◌≢◌, ℕ, All, true, false};
    ghost use Rattle.retune.specs.inner.Renewing as inner;

    /// No table.
    fn none() -> Changed {
        Changed {
            on: [false; MOST_TABLES],
        }
    }

    /// Every table.
    pub(crate) fn all() -> Changed
        ensures { (t : ℕ) → inner.has_changed result t ≡ true }
    {
        Changed {
            on: [true; MOST_TABLES],
        }
    }

    /// Takes a table out.
    pub(crate) fn take_out(&mut self, table: u16)
        ensures { (t : ℕ) → t ≢ table → inner.has_changed self.new t ≡ inner.has_changed self.old t }
    {
        if (table as usize) < MOST_TABLES {
            self.on[table as usize] = false;
        }
    }

    /// The tables of shapes.
    pub(crate) fn by(shapes: &[IndexShape]) -> Changed
        ensures { All (λ shape. inner.has_changed result shape.table ≡ true) shapes.now }
    {
        let mut changed = Changed::none();
        for shape in shapes {
            changed.add(shape.table);
        }
        changed
    }

    /// Adds a table.
    fn add(&mut self, table: u16)
        ensures own { inner.has_changed self.new table ≡ true }
        ensures others { (t : ℕ) → inner.has_changed self.old t ≡ true → inner.has_changed self.new t ≡ true }
    {
        if (table as usize) < MOST_TABLES {
            self.on[table as usize] = true;
        }
    }

    /// Whether a table is among them; one that no catalogue has counts as such.
    fn has(&self, table: u16) -> bool
        ensures { result ≡ inner.has_changed self.now table }
    {
        table as usize >= MOST_TABLES || self.on[table as usize]
    }

    /// Whether a slot of a block is on one of them.
    pub(crate) fn touches(&self, block: &Block) -> bool
        ensures { result ≡ false → inner.IsUntouched self.now block.now }
    {
        for slot in block.slots.as_slice() {
            if self.has(slot.table) {
                return true;
            }
        }
        false
    }
}
