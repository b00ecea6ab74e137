// Reads cases from standard input and prints what the routines of `wave` answer and leave in each buffer.
// A case is six numbers of four bytes, the lowest first, and then bytes: 0 to read or 1 to write; how many
// bytes follow; the length of the buffer to fill; and for a file to write its rate, channels and bits.
#![tactic(auto)]

ghost use Rattle.std.specs.Prelude.{◌<◌, length, IfSome};

use std::io;

#[derive(Clone, Copy)]
struct Case<'a> {
    is_read: bool,
    bytes: &'a [u8],
    room: usize,
    rate: u32,
    channels: u32,
    bits: u32,
}

fn first_case(input: &[u8]) -> Option<(Case<'_>, &[u8])>
    ensures { IfSome result (λ p. length p.1.now < length input.now) }
{
    let ([kind, length, room, rate, channels, bits], rest) = test_replay::first_numbers::<6>(
        input,
    )?;
    let (bytes, rest) = rest.split_at_checked(length as usize)?;
    Some((
        Case {
            is_read: kind == 0,
            bytes,
            room: room as usize,
            rate,
            channels,
            bits,
        },
        rest,
    ))
}

fn answer_info<R: Print>(rt: &R, file: &[u8]) -> io::Result<()> {
    let mut rate = 1;
    let mut channels = 2;
    let mut bits = 3;
    let mut frames = 4;
    let number = wave::number_of(wave::info(
        file,
        &mut rate,
        &mut channels,
        &mut bits,
        &mut frames,
    ));
    print!(rt; "{number} {rate} {channels} {bits} {frames} ")
}

fn answer_read<R: Print>(rt: &R, file: &[u8], samples: &mut [f32]) -> io::Result<()> {
    let mut rate = 5;
    answer_info(rt, file)?;
    let number = wave::number_of(wave::read(file, samples, &mut rate));
    print!(rt; "{number} {rate} ")?;
    test_replay::print_samples(rt, samples)
}

// The buffer is cut here, where its contents are not written out.
fn read_into<R: Print>(rt: &R, case: Case<'_>, samples: &mut [f32]) -> io::Result<()> {
    let n = case.room.min(samples.len());
    answer_read(rt, case.bytes, &mut samples[0..n])
}

fn read_case<R: Print>(rt: &R, case: Case<'_>) -> io::Result<()> {
    let mut samples = [0.25f32; 4096];
    read_into(rt, case, &mut samples)
}

fn answer_write<R: Print>(
    rt: &R,
    case: Case<'_>,
    samples: &[f32],
    file: &mut [u8],
) -> io::Result<()> {
    let number = wave::number_of(wave::write(case.rate, case.channels, case.bits, samples, file));
    print!(rt; "{number} ")?;
    test_replay::print_bytes(rt, file)
}

fn write_into<R: Print>(
    rt: &R,
    case: Case<'_>,
    samples: &[f32],
    file: &mut [u8],
) -> io::Result<()> {
    let m = case.room.min(file.len());
    answer_write(rt, case, samples, &mut file[0..m])
}

fn write_case<R: Print>(rt: &R, case: Case<'_>) -> io::Result<()> {
    let mut samples = [0.0f32; 4096];
    let n = test_replay::samples_of(case.bytes, &mut samples);
    let mut file = [170u8; 16384];
    write_into(rt, case, &samples[..n], &mut file)
}

fn answer_case<R: Print>(rt: &R, case: Case<'_>) -> io::Result<()> {
    if case.is_read {
        read_case(rt, case)
    } else {
        write_case(rt, case)
    }
}

fn main(rt: HostRuntime) -> io::Result<()> {
    let mut buffer = test_replay::buffer::<65536>();
    let n = first_bytes::read_full(&mut rt.stdin(), &mut buffer);
    test_replay::for_each_case(&buffer[..n], first_case, |case| answer_case(&rt, case))
}
