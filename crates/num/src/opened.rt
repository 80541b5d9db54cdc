// The open word: eight bytes, one bit for each disk, set if the disk is open.

ghost use Rattle.std.specs.Prelude.{◌≡◌, ◌≤◌, ◌<◌, length};
ghost use Rattle.num.specs.Opened.{open_at, set_open, open_count, open_word};

use crate::bits::bit;

// Whether a disk is open.
pub fn is_open(s: &[u8], d: usize) -> bool
    requires d_bound { d < 64 }
    requires in_bounds { 8 ≤ length s.now }
    ensures { result ≡ open_at s.now d }
{
    bit(s[d / 8], (d % 8) as u8)
}

// Opens a disk.
pub fn set_open(s: &mut [u8], d: usize)
    requires d_bound { d < 64 }
    requires in_bounds { 8 ≤ length s.old }
    ensures { s.new ≡ set_open s.old d }
{
    s[d / 8] |= 1 << (d % 8);
}

// How many disks are open.
pub fn open_count(s: &[u8]) -> u32
    requires { 8 ≤ length s.now }
    ensures value { result ≡ open_count s.now }
    ensures upper_bound { result ≤ 64 }
{
    open_word(s).count_ones()
}

// The eight bytes as one number.
pub(crate) fn open_word(s: &[u8]) -> u64
    requires { 8 ≤ length s.now }
    ensures { result ≡ open_word s.now }
{
    u64::from_le_bytes([s[0], s[1], s[2], s[3], s[4], s[5], s[6], s[7]])
}
