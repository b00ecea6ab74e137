// samples.raw and visitor.raw: f32 numbers, little-endian.
ghost use Rattle.std.specs.Prelude.{◌≡◌, ◌/◌, length};
ghost use Rattle.render_files.specs.Program.{samples_of};

// The whole samples; what is left of a broken last number is not looked at.
pub fn read_samples(raw: &[u8], samples: &mut [f32])
    requires { length samples.old ≡ length raw.now / 4 }
    ensures { samples.new ≡ samples_of raw.now }
{
    let mut i = 0;
    while i < samples.len() {
        samples[i] = float_bits::f32_from_bits(float_bits::word(raw, 4 * i));
        i += 1;
    }
}
