// The bits of a mask.

ghost use Rattle.std.specs.Prelude.{◌≡◌, ◌%◌, ◌^◌, ◌<◌};
ghost use Rattle.num.specs.Bits.{has_bit, shares};

// Whether bit a of a mask is set.
pub fn bit(mask: u8, a: u8) -> bool
    requires { a < 8 }
    ensures { result ≡ has_bit mask a }
{
    (mask >> a) & 1 == 1
}

// The mask of one bit, the one that the last six bits of `a` number.
pub fn bit_of(a: u32) -> u64
    ensures { result ≡ 2 ^ (a % 64) }
{
    1 << (a % 64)
}

// Whether two masks share a bit.
pub fn share(a: u8, b: u8) -> bool
    ensures { result ≡ shares a b }
{
    a & b != 0
}
