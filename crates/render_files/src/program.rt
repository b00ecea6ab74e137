// The program: reads scene.txt, samples.raw and visitor.raw and prints the output or the refusal. What it prints is said in files.rt; what is
// read and written no contract can say.
ghost use Rattle.std.specs.Prelude.{◌≡◌, ◌≤◌, length, take};

use crate::files::{SAMPLE_BYTES, SCENE_BYTES, TEXT, render_read};
use std::io;
use std::rt::Files;

// The first bytes of a file, as many as the buffer takes. A file that does not open counts as empty.
fn read_file<R: Files>(rt: &R, path: &str, buffer: &mut [u8]) -> usize
    ensures { (result ≤ length buffer.new) × (result ≡ length (take result buffer.new)) }
{
    match first_bytes::read_file(rt, path, buffer) {
        Ok(n) => n,
        Err(_) => 0,
    }
}

pub fn run<R: Files + Print>(rt: &R) -> io::Result<()> {
    let mut scene = [0u8; SCENE_BYTES];
    let mut samples = [0u8; SAMPLE_BYTES];
    let mut visitor = [0u8; SAMPLE_BYTES];
    let mut text = [0u8; TEXT];
    let m = read_file(rt, "scene.txt", &mut scene);
    let n = read_file(rt, "samples.raw", &mut samples);
    let v = read_file(rt, "visitor.raw", &mut visitor);
    let length = render_read(&scene, m, &samples, n, &visitor, v, &mut text);
    rt.write_all(&text[..length])
}
