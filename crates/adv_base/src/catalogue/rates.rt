//! The rates of the cost model.
ghost use Rattle.adv_base.specs.Limits.Numbers.{RatesLimits};

/// What each operation costs, in thousandths of a sequential page read. Each rate is at most a million.
#[derive(Clone, Copy, Debug)]
pub struct Rates {
    /// One page that is read in sequence.
    pub seq_page: u64,
    /// One page that is fetched at random.
    pub rand_page: u64,
    /// One row that is handled.
    pub row_cpu: u64,
    /// One row and one binary digit of the number of rows that is sorted.
    pub sort_cpu: u64,
    /// One row of a side that is merged.
    pub merge_cpu: u64,
    /// One row that is hashed.
    pub hash_cpu: u64,
    /// One row of a sorted input that is grouped.
    pub group_cpu: u64,
    pub ghost limits: { RatesLimits seq_page rand_page row_cpu sort_cpu merge_cpu hash_cpu group_cpu },
}

impl Rates {
    ghost use Rattle.adv_base.specs.Defaults.{AreDefaults};

    /// The rates of a catalogue that names none.
    pub fn default() -> Rates
        ensures { AreDefaults result }
    {
        Rates {
            seq_page: 1000,
            rand_page: 4000,
            row_cpu: 10,
            sort_cpu: 5,
            merge_cpu: 5,
            hash_cpu: 8,
            group_cpu: 5,
        }
    }
}
