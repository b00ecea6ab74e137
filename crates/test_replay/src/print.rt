// A line of numbers, with a space after each.
use std::io;

pub fn print_samples<R: Print>(rt: &R, samples: &[f32]) -> io::Result<()> {
    for &sample in samples {
        print!(rt; "{} ", float_bits::f32_bits(sample))?;
    }
    println!(rt; "")
}

pub fn print_bytes<R: Print>(rt: &R, bytes: &[u8]) -> io::Result<()> {
    for byte in bytes {
        print!(rt; "{byte} ")?;
    }
    println!(rt; "")
}
