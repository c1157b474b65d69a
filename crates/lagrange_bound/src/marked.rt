//! Parts of which some are to be priced anew.
ghost use Rattle.std.specs.Prelude.{◌≡◌, ℕ, ◌<◌, ◌≤◌, All, length, slice_index_or, sum_by, take};
ghost use Rattle.adv_base.specs.declared.limits.TheConstants.{MOST_RENT, MOST_STATEMENTS};
ghost use Rattle.bip_model.specs.Values as values;

use adv_base::Config;
use bip_model::Part;

/// Parts, where the rents of the grants of each begin, the candidates that may be used, and the parts that have a mark.
#[derive(Drop)]
pub(crate) struct Marked<'a> {
    pub parts: &'a [Part],
    pub starts: &'a [usize],
    pub rents: &'a [u64],
    pub config: &'a Config,
    pub marks: &'a [bool],
    pub ghost few: { length parts.now ≤ MOST_STATEMENTS },
    pub ghost start_each: { length starts.now ≡ length parts.now },
    pub ghost starts_are: { (i : ℕ) → i < length parts.now → slice_index_or starts.now i 0 ≡ sum_by values.part_grants (take i parts.now) },
    pub ghost rent_each: { length rents.now ≡ sum_by values.part_grants parts.now },
    pub ghost rents_most: { All (λ rent. rent ≤ MOST_RENT) rents.now },
    pub ghost mark_each: { length marks.now ≡ length parts.now },
}
