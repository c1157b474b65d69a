//! The rents of a set, written over those of multipliers.
ghost use Rattle.std.specs.Prelude.{◌≡◌, ◌≤◌, All, length};
ghost use Rattle.adv_base.specs.declared.limits.TheConstants.{MOST_RENT};

use adv_base::limits::MOST_RENT;
use interior_point::Matrix;

/// Puts a rent at a place, where there is one.
fn put_rent(rents: &mut [u64], place: usize, rent: u64)
    requires most { All (λ rent. rent ≤ MOST_RENT) rents.old }
    ensures one_each { length rents.new ≡ length rents.old }
    ensures most { All (λ rent. rent ≤ MOST_RENT) rents.new }
{
    if place < rents.len() {
        rents[place] = rent.min(MOST_RENT);
    }
}

/// Writes zeros.
pub(crate) fn clear(rents: &mut [u64])
    requires most { All (λ rent. rent ≤ MOST_RENT) rents.old }
    ensures one_each { length rents.new ≡ length rents.old }
    ensures most { All (λ rent. rent ≤ MOST_RENT) rents.new }
{
    for place in 0..rents.len() {
        put_rent(rents, place, 0);
    }
}

/// Writes the rents of a matrix's links.
pub(crate) fn write_rents(matrix: &Matrix, rents: &[i64], into: &mut [u64])
    requires most { All (λ rent. rent ≤ MOST_RENT) into.old }
    ensures one_each { length into.new ≡ length into.old }
    ensures most { All (λ rent. rent ≤ MOST_RENT) into.new }
{
    for number in 0..matrix.links.len().min(rents.len()) {
        let rent = rents[number].max(0) as u64;
        put_rent(into, matrix.links[number].rent, rent);
    }
}
