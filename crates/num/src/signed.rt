// Figures: signed words in lent bytes, the size of a figure and the distance of two.

ghost use Rattle.std.specs.Prelude.{◌≡◌, ◌+◌, ◌^◌, ◌≤◌, ◌<◌, leb, ◌+ℤ◌, length};
ghost use Rattle.num.specs.Metric.{size, dist};
ghost use Rattle.num.specs.Signed.{signed_of, word_of, signed_at, put_signed};

use crate::word::{put_word, word_at};

// The figure that a word stands for.
pub(crate) fn to_signed(x: u32) -> i32
    ensures { result ≡ signed_of x }
{
    x.cast_signed()
}

// The word that stands for a figure.
pub fn to_word(z: i32) -> u32
    ensures { result ≡ word_of z }
{
    z.cast_unsigned()
}

// The figure at an index.
pub fn signed_at(s: &[u8], at: usize) -> i32
    requires { at + 4 ≤ length s.now }
    ensures { result ≡ signed_at s.now at }
{
    to_signed(word_at(s, at))
}

// Puts a figure at an index.
pub fn put_signed(s: &mut [u8], at: usize, z: i32)
    requires { at + 4 ≤ length s.old }
    ensures { s.new ≡ put_signed s.old at z }
{
    put_word(s, at, to_word(z));
}

// The size of a figure: its absolute value.
pub fn size(z: i32) -> u32
    ensures value { result ≡ size z }
    ensures upper_bound { result ≤ 2147483648 }
{
    wide_size(z as i64) as u32
}

// The distance of two figures.
pub fn gap(a: i32, b: i32) -> u64
    ensures value { result ≡ dist a b }
    ensures upper_bound { result ≤ 4294967295 }
{
    wide_size(a as i64 - b as i64)
}

// The size of a 64-bit figure; the least one is excluded, since its negation would not fit.
pub(crate) fn wide_size(z: i64) -> u64
    requires { size z < 2 ^ 63 }
    ensures { result ≡ size z }
{
    if z < 0 { (-z) as u64 } else { z as u64 }
}

// Whether the size of a figure is at most `most`.
pub fn within(z: i32, most: u32) -> bool
    ensures { result ≡ leb (size z) most }
{
    size(z) <= most
}

// The sum of two figures.
pub fn plus(a: i32, b: i32) -> i64
    ensures value { result ≡ a +ℤ b }
    ensures result_bound { size result ≤ 4294967296 }
{
    a as i64 + b as i64
}

// The same figure in 32 bits; it must fit.
pub fn narrow(z: i64) -> i32
    requires { size z ≤ 2147483647 }
    ensures { result ≡ z }
{
    z as i32
}
