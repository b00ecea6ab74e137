// One field as a number, and the numbers of the file by their place.
ghost use Rattle.std.specs.Prelude.{◌≡◌, ◌≤◌, ◌+◌, length, get_or};
ghost use Rattle.scene_tables.specs.Tables.{natural};
ghost use Rattle.scene_file.specs.Readings.{position_of, magnitude_of, positive_of, negative_of, number_of};
ghost use Rattle.scene_file.specs.Grammar.{leading_zero};
ghost use Rattle.scene_tables.specs.Bytes.{same_bytes as same_bytes};

use scene_tables::ZERO;

// The place of the first such byte, or the length.
pub fn find(s: &[u8], byte: u8) -> usize
    ensures { result ≡ position_of byte s.now }
{
    for (i, b) in s.iter().enumerate() {
        if *b == byte {
            return i;
        }
    }
    s.len()
}

pub fn same(a: &[u8], b: &[u8]) -> bool
    ensures { result ≡ same_bytes a.now b.now }
{
    a == b
}

// What digits stand for, up to 2^31.
pub fn magnitude_of(s: &[u8]) -> Option<u64>
    ensures { result ≡ magnitude_of s.now }
{
    let mut m: u64 = 0;
    for b in s {
        if *b < 48 {
            return None;
        }
        if 57 < *b {
            return None;
        }
        m = m * 10 + (u64::from(*b) - 48);
        if 2147483648 < m {
            return None;
        }
    }
    Some(m)
}

// A field as a number, raised by 2^31.
pub fn number_of(s: &[u8]) -> Option<u32>
    ensures { result ≡ number_of s.now }
{
    if s.len() == 0 {
        return None;
    }
    if s[0] == 45 {
        return negative_of(&s[1..]);
    }
    positive_of(s)
}

fn leading_zero(s: &[u8]) -> bool
    ensures { result ≡ leading_zero s.now }
{
    if s.len() <= 1 {
        return false;
    }
    s[0] == 48
}

fn positive_of(s: &[u8]) -> Option<u32>
    ensures { result ≡ positive_of s.now }
{
    if s.len() == 0 {
        return None;
    }
    if leading_zero(s) {
        return None;
    }
    let m = magnitude_of(s)?;
    if m < 2147483648 {
        Some(2147483648 + (m as u32))
    } else {
        None
    }
}

fn negative_of(s: &[u8]) -> Option<u32>
    ensures { result ≡ negative_of s.now }
{
    if s.len() == 0 {
        return None;
    }
    if leading_zero(s) {
        return None;
    }
    let m = magnitude_of(s)?;
    if 0 < m {
        if m <= 2147483648 {
            Some((2147483648 - m) as u32)
        } else {
            None
        }
    } else {
        None
    }
}

// The number at the place a + j of the file's numbers, 0 beyond the end.
pub fn at(values: &[u32], a: usize, j: usize) -> u32
    ensures { result ≡ get_or values.now (a + j) 0 }
{
    if values.len() <= a {
        return 0;
    }
    if values.len() - a <= j {
        return 0;
    }
    values[a + j]
}

// What a raised number stands for, where that is not below 0.
pub fn natural_of(z: u32) -> usize
    ensures { result ≡ natural z }
{
    if z < ZERO { 0 } else { (z - ZERO) as usize }
}
