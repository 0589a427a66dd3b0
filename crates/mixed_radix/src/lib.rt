//! Numbers in a mixed radix: digits, each below its count, as one number, the first digit varying slowest.
//!
//! The layer above has several small numbers that it wants as one, as the indices of a cell along its axes: `encode`
//! makes it, and `decode` gives the digits back. The numbers of a box, whose digits lie each from that of one number to
//! that of another, are counted by `box_size`, and found by `nth`.
#![tactic(auto)]

ghost use Rattle.std.specs.Prelude.{◌≡◌, ◌/◌, ◌%◌, ◌^◌, ◌<◌, ◌≤◌, ℕ, length, slice_index};
ghost use Rattle.mixed_radix.specs.Radix.{size, number, digit, AreDigits, AreDigitsOf};
ghost use Rattle.mixed_radix.specs.Boxes.{box_counts, nth};

/// The most digits of a number.
pub const DIGITS_LIMIT: usize = 6;

/// The number that digits make.
#[inline]
pub fn encode(counts: &[u32], digits: &[u32]) -> u32
    requires digits { AreDigits counts.now digits.now }
    requires fits { size counts.now ≤ 2 ^ 32 }
    ensures number { result ≡ number counts.now digits.now }
    ensures below { result < size counts.now }
{
    let mut number: u32 = 0;
    for i in 0..counts.len() {
        number = number * counts[i] + digits[i];
    }
    number
}

/// The digits of a number, one for each count. Past the last count they are 0.
#[inline]
pub fn decode(counts: &[u32], number: u32) -> [u32; DIGITS_LIMIT]
    requires few { length counts.now ≤ DIGITS_LIMIT }
    requires some { 0 < size counts.now }
    ensures each { (k : ℕ) → k < length counts.now → slice_index result k ≡ digit counts.now k number }
    ensures digits { number < size counts.now → AreDigitsOf counts.now number result }
    ensures past { (k : ℕ) → length counts.now ≤ k → slice_index result k ≡ 0 }
{
    let mut digits = [0; DIGITS_LIMIT];
    let mut rest = number;
    for i in (0..counts.len()).rev() {
        let (quotient, left) = split(rest, counts[i]);
        digits[i] = left;
        rest = quotient;
    }
    digits
}

/// How many numbers the counts make.
#[inline]
pub fn size(counts: &[u32]) -> u32
    requires some { 0 < size counts.now }
    requires fits { size counts.now < 2 ^ 32 }
    ensures { result ≡ size counts.now }
{
    let mut size: u32 = 1;
    for count in counts {
        size *= *count;
    }
    size
}

/// How many numbers a box has, by how far its last number is after its first.
#[inline]
pub fn box_size(counts: &[u32], distance: u32) -> u32
    requires below { distance < size counts.now }
    requires fits { size counts.now < 2 ^ 32 }
    ensures { result ≡ size (box_counts counts.now distance) }
{
    let mut size: u32 = 1;
    let mut rest = distance;
    for k in (0..counts.len()).rev() {
        let (quotient, steps) = split(rest, counts[k]);
        size *= steps + 1;
        rest = quotient;
    }
    size
}

/// How far the `i`-th number of a box is after its first.
#[inline]
pub fn nth(counts: &[u32], distance: u32, i: u32) -> u32
    requires below { distance < size counts.now }
    requires within { i < size (box_counts counts.now distance) }
    requires fits { size counts.now < 2 ^ 32 }
    ensures { result ≡ nth counts.now (box_counts counts.now distance) i }
{
    let mut nth: u32 = 0;
    let mut stride: u32 = 1;
    let mut rest = distance;
    let mut left = i;
    for k in (0..counts.len()).rev() {
        let count = counts[k];
        let (quotient, steps) = split(rest, count);
        let (carry, digit) = split(left, steps + 1);
        nth += digit * stride;
        stride *= count;
        left = carry;
        rest = quotient;
    }
    nth
}

/// A quotient and what is left. Most are so small that no division is made.
#[inline]
fn split(n: u32, by: u32) -> (u32, u32)
    requires { 0 < by }
    ensures quotient { result.0 ≡ n / by }
    ensures left { result.1 ≡ n % by }
{
    if n < by {
        return (0, n);
    }
    let more = n - by;
    if more < by {
        return (1, more);
    }
    (n / by, n % by)
}
