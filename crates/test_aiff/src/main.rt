// Reads cases from standard input and prints what the routines for AIFF files answer and leave in each
// buffer. A case is five numbers of four bytes, the lowest first, and then bytes: 0 to read, 1 to write, 2
// to convert from WAVE or 3 from AIFF; how many bytes follow; the length of the buffer to fill; and for a
// file to write its rate and channels.
#![tactic(auto)]

ghost use Rattle.std.specs.Prelude.{◌<◌, length, IfSome};

use std::io;

#[derive(Clone, Copy)]
struct Case<'a> {
    kind: u32,
    bytes: &'a [u8],
    room: usize,
    rate: u32,
    channels: u32,
}

fn first_case(input: &[u8]) -> Option<(Case<'_>, &[u8])>
    ensures { IfSome result (λ p. length p.1.now < length input.now) }
{
    let ([kind, length, room, rate, channels], rest) = test_replay::first_numbers::<5>(input)?;
    let (bytes, rest) = rest.split_at_checked(length as usize)?;
    Some((
        Case {
            kind,
            bytes,
            room: room as usize,
            rate,
            channels,
        },
        rest,
    ))
}

fn answer_info<R: Print>(rt: &R, file: &[u8]) -> io::Result<()> {
    let mut rate = 1;
    let mut channels = 2;
    let mut frames = 3;
    let number = aiff::number_of(aiff::info(file, &mut rate, &mut channels, &mut frames));
    print!(rt; "{number} {rate} {channels} {frames} ")
}

fn answer_read<R: Print>(rt: &R, file: &[u8], samples: &mut [f32]) -> io::Result<()> {
    let mut rate = 4;
    answer_info(rt, file)?;
    let number = aiff::number_of(aiff::read(file, samples, &mut rate));
    print!(rt; "{number} {rate} ")?;
    test_replay::print_samples(rt, samples)
}

// The buffer is cut here, where its contents are not written out.
fn read_into<R: Print>(rt: &R, case: Case<'_>, samples: &mut [f32]) -> io::Result<()> {
    let n = case.room.min(samples.len());
    answer_read(rt, case.bytes, &mut samples[0..n])
}

fn read_case<R: Print>(rt: &R, case: Case<'_>) -> io::Result<()> {
    let mut samples = [0.25f32; 4096];
    read_into(rt, case, &mut samples)
}

fn answer_write<R: Print>(
    rt: &R,
    case: Case<'_>,
    samples: &[f32],
    file: &mut [u8],
) -> io::Result<()> {
    let number = aiff::number_of(aiff::write(case.rate, case.channels, samples, file));
    print!(rt; "{number} ")?;
    test_replay::print_bytes(rt, file)
}

fn write_into<R: Print>(
    rt: &R,
    case: Case<'_>,
    samples: &[f32],
    file: &mut [u8],
) -> io::Result<()> {
    let m = case.room.min(file.len());
    answer_write(rt, case, samples, &mut file[0..m])
}

fn write_case<R: Print>(rt: &R, case: Case<'_>) -> io::Result<()> {
    let mut samples = [0.0f32; 4096];
    let n = test_replay::samples_of(case.bytes, &mut samples);
    let mut file = [170u8; 16384];
    write_into(rt, case, &samples[..n], &mut file)
}

fn answer_convert<R: Print>(rt: &R, case: Case<'_>, other: &mut [u8]) -> io::Result<()> {
    let number = if case.kind == 2 {
        aiff::number_of(sound_converter::wave_to_aiff(case.bytes, other))
    } else {
        aiff::number_of(sound_converter::aiff_to_wave(case.bytes, other))
    };
    print!(rt; "{number} ")?;
    test_replay::print_bytes(rt, other)
}

fn convert_into<R: Print>(rt: &R, case: Case<'_>, other: &mut [u8]) -> io::Result<()> {
    let m = case.room.min(other.len());
    answer_convert(rt, case, &mut other[0..m])
}

fn convert_case<R: Print>(rt: &R, case: Case<'_>) -> io::Result<()> {
    let mut other = [170u8; 16384];
    convert_into(rt, case, &mut other)
}

fn answer_case<R: Print>(rt: &R, case: Case<'_>) -> io::Result<()> {
    match case.kind {
        0 => read_case(rt, case),
        1 => write_case(rt, case),
        _ => convert_case(rt, case),
    }
}

fn main(rt: HostRuntime) -> io::Result<()> {
    let mut buffer = test_replay::buffer::<65536>();
    let n = first_bytes::read_full(&mut rt.stdin(), &mut buffer);
    test_replay::for_each_case(&buffer[..n], first_case, |case| answer_case(&rt, case))
}
