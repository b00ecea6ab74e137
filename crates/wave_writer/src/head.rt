// The bytes in front of the data.
ghost use Rattle.std.specs.Prelude.{◌≡◌, true, ◌+◌, ◌*◌, ◌≤◌, length};
ghost use Rattle.laws.specs.Pieces.{put_at};
ghost use Rattle.pcm.specs.Sample.{width};
ghost use Rattle.wave_sound.specs.Sound.{channels_ok};
ghost use Rattle.wave_writer.specs.Write.{tag_of, riff_of, format_start, format_rest, data_header_of, head_of};

use byte_order::{ByteOrder, put_number2, put_number4};
use pcm::Encoding;
use wave_sound::{DATA, FLOAT, FORMAT, FORMAT_SIZE, PCM, RIFF, WAVE};

#[tactic(auto, unfolding(crate::specs::Write::tag_of))]
fn tag_of(encoding: Encoding) -> u32
    ensures { result ≡ tag_of encoding }
{
    match encoding {
        Encoding::Pcm16 => PCM,
        Encoding::Float32 => FLOAT,
    }
}

fn put_riff(file: &mut [u8], size: u32)
    requires room_for_head { 44 ≤ length file.old }
    requires size_fits { 36 + size ≤ 4294967295 }
    ensures { file.new ≡ put_at 0 (riff_of size) file.old }
{
    put_number4(file, 0, ByteOrder::Big, RIFF);
    put_number4(file, 4, ByteOrder::Little, 36 + size);
    put_number4(file, 8, ByteOrder::Big, WAVE);
}

fn put_format_start(file: &mut [u8], channels: u32, encoding: Encoding)
    requires { 44 ≤ length file.old }
    ensures { file.new ≡ put_at 12 (format_start channels encoding) file.old }
{
    put_number4(file, 12, ByteOrder::Big, FORMAT);
    put_number4(file, 16, ByteOrder::Little, FORMAT_SIZE);
    put_number2(file, 20, ByteOrder::Little, tag_of(encoding));
    put_number2(file, 22, ByteOrder::Little, channels);
}

fn put_format_rest(file: &mut [u8], rate: u32, frame: u32, bits: u32)
    requires room_for_head { 44 ≤ length file.old }
    requires rate_and_frame_in_range { (rate ≤ 192000) × (frame ≤ 8) }
    ensures { file.new ≡ put_at 24 (format_rest rate frame bits) file.old }
{
    put_number4(file, 24, ByteOrder::Little, rate);
    put_number4(file, 28, ByteOrder::Little, rate * frame);
    put_number2(file, 32, ByteOrder::Little, frame);
    put_number2(file, 34, ByteOrder::Little, bits);
}

fn put_data(file: &mut [u8], size: u32)
    requires { 44 ≤ length file.old }
    ensures { file.new ≡ put_at 36 (data_header_of size) file.old }
{
    put_number4(file, 36, ByteOrder::Big, DATA);
    put_number4(file, 40, ByteOrder::Little, size);
}

pub fn put_head(file: &mut [u8], rate: u32, channels: u32, encoding: Encoding, size: u32)
    requires room_for_head { 44 ≤ length file.old }
    requires size_fits { 36 + size ≤ 4294967295 }
    requires rate_in_range { rate ≤ 192000 }
    requires at_most_two_channels { channels ≤ 2 }
    ensures { file.new ≡ put_at 0 (head_of rate channels encoding size) file.old }
{
    let width = encoding.width() as u32;
    put_riff(file, size);
    put_format_start(file, channels, encoding);
    put_format_rest(file, rate, channels * width, width * 8);
    put_data(file, size);
}
