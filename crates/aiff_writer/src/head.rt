// The bytes in front of the data.
ghost use Rattle.std.specs.Prelude.{◌≡◌, ◌+◌, ◌≤◌, length};
ghost use Rattle.laws.specs.Pieces.{put_at};
ghost use Rattle.aiff_rate.specs.Rate.{least_rate, most_rate};
ghost use Rattle.aiff_writer.specs.Write.{head_length, form_of, common_start, common_rest, sound_header_of, head_of};

use aiff_rate::put_rate;
use aiff_sound::{AIFF, COMMON, COMMON_SIZE, FORM, SAMPLE_BITS, SOUND};
use byte_order::{ByteOrder, put_number2, put_number4};

fn put_form(file: &mut [u8], size: u32)
    requires room_for_head { head_length ≤ length file.old }
    requires size_fits { 46 + size ≤ 4294967295 }
    ensures { file.new ≡ put_at 0 (form_of size) file.old }
{
    put_number4(file, 0, ByteOrder::Big, FORM);
    put_number4(file, 4, ByteOrder::Big, 46 + size);
    put_number4(file, 8, ByteOrder::Big, AIFF);
}

fn put_common_start(file: &mut [u8], channels: u32, frames: u32)
    requires { head_length ≤ length file.old }
    ensures { file.new ≡ put_at 12 (common_start channels frames) file.old }
{
    put_number4(file, 12, ByteOrder::Big, COMMON);
    put_number4(file, 16, ByteOrder::Big, COMMON_SIZE);
    put_number2(file, 20, ByteOrder::Big, channels);
    put_number4(file, 22, ByteOrder::Big, frames);
}

fn put_common_rest(file: &mut [u8], rate: u32)
    requires room_for_head { head_length ≤ length file.old }
    requires rate_in_range { (least_rate ≤ rate) × (rate ≤ most_rate) }
    ensures { file.new ≡ put_at 26 (common_rest rate) file.old }
{
    put_number2(file, 26, ByteOrder::Big, SAMPLE_BITS);
    put_rate(file, 28, rate);
}

// Offset and block size are 0.
fn put_sound(file: &mut [u8], size: u32)
    requires room_for_head { head_length ≤ length file.old }
    requires size_fits { 46 + size ≤ 4294967295 }
    ensures { file.new ≡ put_at 38 (sound_header_of size) file.old }
{
    put_number4(file, 38, ByteOrder::Big, SOUND);
    put_number4(file, 42, ByteOrder::Big, 8 + size);
    put_number4(file, 46, ByteOrder::Big, 0);
    put_number4(file, 50, ByteOrder::Big, 0);
}

pub fn put_head(file: &mut [u8], rate: u32, channels: u32, frames: u32, size: u32)
    requires room_for_head { head_length ≤ length file.old }
    requires size_fits { 46 + size ≤ 4294967295 }
    requires rate_in_range { (least_rate ≤ rate) × (rate ≤ most_rate) }
    ensures { file.new ≡ put_at 0 (head_of rate channels frames size) file.old }
{
    put_form(file, size);
    put_common_start(file, channels, frames);
    put_common_rest(file, rate);
    put_sound(file, size);
}
