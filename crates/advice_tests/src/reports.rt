//! The texts of answers, refusals and faults: each is written out byte for byte.
mod advice;
mod asserts;
mod faults;
mod keys;
mod refusals;
