// A number of 80 bits: its sign, 15 bits of its power, and 64 digits. A number is normalised where the
// highest digit is 1; all 64 count in any number.
ghost use Rattle.std.specs.Prelude.{◌≡◌, ◌+◌, ◌-◌, ◌^◌, ◌≤◌, length, option_and_then};
ghost use Rattle.laws.specs.Pieces.{put_at};
ghost use Rattle.byte_order.specs.declared.bytes.ByteOrder.TheVariants.{Big};
ghost use Rattle.byte_order.specs.Bytes.{number_at};
ghost use Rattle.aiff_rate.specs.Rate.{unit, whole_of, whole_at, shift_of, rate_bytes, least_rate, most_rate};

use byte_order::{ByteOrder, number2_at, number4_at, put_number2, put_number4};

// The power with which digits are the whole number that they spell.
const UNIT: u32 = 16446;
// The power of infinities and NaNs; above it the sign is set.
const ENDLESS: u32 = 32767;
// 2^31 and 2^32.
const HALF: u64 = 0x8000_0000;

const WORD: u64 = 0x1_0000_0000;

// Digits of a lower power, halved until they have the power UNIT; none where a digit is cut off.
fn halved(power: u32, digits: u64) -> Option<u64>
    requires { power ≤ unit }
    ensures { option_and_then (whole_of unit unit) result ≡ whole_of unit power digits }
{
    let mut at = power;
    let mut rest = digits;
    while at < UNIT {
        if rest % 2 != 0 {
            return None;
        }
        rest = rest / 2;
        at += 1;
    }
    Some(rest)
}

// Digits of a higher power, doubled until they have the power UNIT; none where they pass 32 bits.
fn doubled(power: u32, digits: u64) -> Option<u64>
    requires { unit ≤ power }
    ensures { option_and_then (whole_of unit unit) result ≡ whole_of unit power digits }
{
    let mut at = power;
    let mut rest = digits;
    while UNIT < at {
        if HALF <= rest {
            return None;
        }
        rest = rest * 2;
        at -= 1;
    }
    Some(rest)
}

fn small(digits: u64) -> Option<u32>
    ensures { result ≡ whole_of unit unit digits }
{
    u32::try_from(digits).ok()
}

fn whole_of(power: u32, digits: u64) -> Option<u32>
    ensures { result ≡ whole_of unit power digits }
{
    if power < UNIT {
        return small(halved(power, digits)?);
    }
    small(doubled(power, digits)?)
}

fn digits_at(bytes: &[u8], at: usize) -> u64
    requires { at + 8 ≤ length bytes.now }
    ensures { result ≡ number_at Big bytes.now at 8 }
{
    let high = number4_at(bytes, at, ByteOrder::Big) as u64;
    let low = number4_at(bytes, at + 4, ByteOrder::Big) as u64;
    high * WORD + low
}

// The whole number that begins at a place: none where the number there is no whole one, or has more than
// 32 bits.
pub fn whole_at(bytes: &[u8], at: usize) -> Option<u32>
    requires { at + 10 ≤ length bytes.now }
    ensures { result ≡ whole_at bytes.now at }
{
    let power = number2_at(bytes, at, ByteOrder::Big);
    if ENDLESS <= power {
        return None;
    }
    whole_of(power, digits_at(bytes, at + 2))
}

fn shift_of(rate: u32) -> u32
    ensures { result ≡ shift_of rate }
{
    if rate < 8192 {
        return 51;
    }
    if rate < 16384 {
        return 50;
    }
    if rate < 32768 {
        return 49;
    }
    if rate < 65536 {
        return 48;
    }
    if rate < 131072 {
        return 47;
    }
    46
}

// The lower 32 of the 64 digits of a rate are 0: this is the factor that makes it the higher ones.
fn factor_of(shift: u32) -> u32
    requires { (46 ≤ shift) × (shift ≤ 51) }
    ensures { result ≡ 2 ^ (shift - 32) }
{
    match shift {
        51 => 0x8_0000,
        50 => 0x4_0000,
        49 => 0x2_0000,
        48 => 0x1_0000,
        47 => 0x8000,
        _ => 0x4000,
    }
}

// Writes a rate's ten bytes at a place.
pub fn put_rate(bytes: &mut [u8], at: usize, rate: u32)
    requires room_for_rate { at + 10 ≤ length bytes.old }
    requires rate_in_range { (least_rate ≤ rate) × (rate ≤ most_rate) }
    ensures { bytes.new ≡ put_at at (rate_bytes rate) bytes.old }
{
    let shift = shift_of(rate);
    let high = rate * factor_of(shift);
    put_number2(bytes, at, ByteOrder::Big, UNIT - shift);
    put_number4(bytes, at + 2, ByteOrder::Big, high);
    put_number4(bytes, at + 6, ByteOrder::Big, 0);
}
