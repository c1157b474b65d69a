//! Cholesky factors of symmetric matrices. A matrix is given by its upper triangle, row behind row, without gaps; a factor is
//! an upper triangle whose transpose times itself is the matrix.

use crate::places::{Places, at};

/// A pivot that isn't above this is none, and the other stands in its place: its part of a solution is 0 then.
const LEAST_PIVOT: f64 = 1e-300;

const NO_PIVOT: f64 = 1e150;

/// How many numbers a triangle of so many rows has.
pub(crate) fn triangle(rows: usize) -> usize {
    rows.saturating_mul(rows.saturating_add(1)) / 2
}

/// The place in a triangle of so many rows of the number that two rows have in common.
pub(crate) fn entry(rows: usize, one: usize, other: usize) -> usize {
    let row = one.min(other);
    let before = rows.wrapping_mul(2).wrapping_sub(row).wrapping_add(1);
    let start = row.wrapping_mul(before) / 2;
    start.wrapping_add(one.max(other).wrapping_sub(row))
}

/// What stands from a place on.
fn tail(list: &[f64], from: usize) -> &[f64] {
    &list[from.min(list.len())..]
}

/// The sum of products, in eight parts.
pub(crate) fn dot(one: &[f64], other: &[f64]) -> f64 {
    let count = one.len().min(other.len());
    let whole = count - count % 8;
    let mut sums = [0.0; 8];
    for (left, right) in one[..whole]
        .chunks_exact(8)
        .zip(other[..whole].chunks_exact(8))
    {
        if left.len() == 8 && right.len() == 8 {
            for k in 0..8 {
                sums[k] += left[k] * right[k];
            }
        }
    }
    let mut rest = 0.0;
    for (left, right) in one[whole..count].iter().zip(&other[whole..count]) {
        rest += *left * *right;
    }
    rest + ((sums[0] + sums[4]) + (sums[1] + sums[5])) + ((sums[2] + sums[6]) + (sums[3] + sums[7]))
}

/// Subtracts a row from another so many times.
fn subtract(row: &mut [f64], line: &[f64], times: f64) {
    if times == 0.0 {
        return;
    }
    let count = row.len().min(line.len());
    let line = &line[..count];
    for i in 0..count {
        row[i] -= times * line[i];
    }
}

/// Subtracts from a row what four rows of the factor, from its column on, have in it.
fn subtract_four(row: &mut [f64], a: &[f64], b: &[f64], c: &[f64], d: &[f64]) {
    let count = row
        .len()
        .min(a.len())
        .min(b.len())
        .min(c.len())
        .min(d.len());
    if count == 0 {
        return;
    }
    let (a, b, c, d) = (&a[..count], &b[..count], &c[..count], &d[..count]);
    let (p, q, r, s) = (a[0], b[0], c[0], d[0]);
    if p == 0.0 && q == 0.0 && r == 0.0 && s == 0.0 {
        return;
    }
    for i in 0..count {
        row[i] -= (p * a[i] + q * b[i]) + (r * c[i] + s * d[i]);
    }
}

/// Subtracts from a row what a row of the factor has in it, of which the row's column stands at a place.
fn subtract_line(row: &mut [f64], line: &[f64], place: usize) {
    subtract(row, tail(line, place), at(line, place, 0.0));
}

/// Makes a row that nothing is to be subtracted from a row of the factor.
fn finish(row: &mut [f64]) {
    if row.len() == 0 {
        return;
    }
    let pivot = row[0];
    let root = if pivot > LEAST_PIVOT {
        pivot.sqrt()
    } else {
        NO_PIVOT
    };
    let inverse = 1.0 / root;
    for i in 0..row.len() {
        row[i] *= inverse;
    }
    row[0] = root;
}

/// How much of a row stands before the zeros that it ends with.
fn extent(row: &[f64]) -> usize {
    let mut extent = 0;
    for (place, number) in row.iter().enumerate() {
        if *number != 0.0 {
            extent = place.wrapping_add(1);
        }
    }
    extent
}

/// The front of a row, so many numbers less some.
fn front(row: &[f64], count: usize, less: usize) -> &[f64] {
    &row[..count.saturating_sub(less).min(row.len())]
}

/// How far four rows of a factor reach, each of which begins one column behind the one before.
fn reach_of(a: &[f64], b: &[f64], c: &[f64], d: &[f64]) -> usize {
    let one = extent(a).max(extent(b).saturating_add(1));
    let other = extent(c).saturating_add(2).max(extent(d).saturating_add(3));
    one.max(other)
}

/// Makes the first four of so many rows rows of the factor, and subtracts them from the others.
fn factor_four(rows: &mut [f64], count: usize) {
    if count < 4 || rows.len() < count.saturating_mul(4).saturating_sub(6) {
        return;
    }
    let (a, rest) = rows.split_at_mut(count);
    let (b, rest) = rest.split_at_mut(count - 1);
    let (c, rest) = rest.split_at_mut(count - 2);
    let (d, rest) = rest.split_at_mut(count - 3);
    finish(a);
    subtract_line(b, a, 1);
    finish(b);
    subtract_line(c, a, 2);
    subtract_line(c, b, 1);
    finish(c);
    subtract_line(d, a, 3);
    subtract_line(d, b, 2);
    subtract_line(d, c, 1);
    finish(d);
    let reach = reach_of(a, b, c, d);
    let (a, b, c, d) = (
        front(a, reach, 0),
        front(b, reach, 1),
        front(c, reach, 2),
        front(d, reach, 3),
    );
    let mut start = 0usize;
    for skip in 1..count - 3 {
        let to = start.saturating_add(count - 3 - skip);
        let row = Places { from: start, to }.of_mut(rest);
        subtract_four(
            row,
            tail(a, skip + 3),
            tail(b, skip + 2),
            tail(c, skip + 1),
            tail(d, skip),
        );
        start = to;
    }
}

/// Makes the first of so many rows a row of the factor, and subtracts it from the others.
fn factor_one(rows: &mut [f64], count: usize) {
    if rows.len() < count {
        return;
    }
    let (line, rest) = rows.split_at_mut(count);
    finish(line);
    let mut start = 0usize;
    for skip in 1..count {
        let to = start.saturating_add(count - skip);
        subtract_line(Places { from: start, to }.of_mut(rest), line, skip);
        start = to;
    }
}

/// Factors a matrix of so many rows in its place, four rows at a time.
pub(crate) fn factor(matrix: &mut [f64], rows: usize) {
    let mut start = 0usize;
    let mut count = rows;
    for _four in 0..rows / 4 {
        let to = start.saturating_add(triangle(count));
        factor_four(Places { from: start, to }.of_mut(matrix), count);
        start = start.saturating_add(count.saturating_mul(4).saturating_sub(6));
        count = count.saturating_sub(4);
    }
    for _one in 0..rows % 4 {
        let to = start.saturating_add(triangle(count));
        factor_one(Places { from: start, to }.of_mut(matrix), count);
        start = start.saturating_add(count);
        count = count.saturating_sub(1);
    }
}

/// Solves with the transpose of a factor, from a row on, before which the right side is 0.
pub(crate) fn solve_transposed(factor: &[f64], from: usize, right: &mut [f64]) {
    let rows = right.len();
    let mut start = entry(rows, from, from);
    for row in from..rows {
        let to = start.saturating_add(rows - row);
        let line = Places { from: start, to }.of(factor);
        if line.len() == 0 {
            return;
        }
        let value = right[row] / line[0];
        right[row] = value;
        subtract(&mut right[row + 1..], &line[1..], value);
        start = to;
    }
}

/// Solves what a row of a factor says of its place, once those behind it are solved.
fn solve_row(line: &[f64], row: usize, right: &mut [f64]) {
    if line.len() > 0 && row < right.len() {
        let less = dot(&line[1..], &right[row + 1..]);
        right[row] = (right[row] - less) / line[0];
    }
}

/// Solves with a factor.
pub(crate) fn solve(factor: &[f64], right: &mut [f64]) {
    let rows = right.len();
    for row in (0..rows).rev() {
        let start = entry(rows, row, row);
        let to = start.saturating_add(rows - row);
        solve_row(Places { from: start, to }.of(factor), row, right);
    }
}
