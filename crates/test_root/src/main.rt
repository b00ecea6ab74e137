// Runs the list of vectors of the crate `root` (docs/VECTORS.md), and says how many rows were checked
// and how many were wrong. A row that cannot be read is wrong.
#![tactic(auto)]

use std::io;

fn has_root(x: f32, bits: u32) -> bool {
    let mut place: f32 = -1.0;
    test_root_bench::room_desk_root(x, &mut place) == 0 && float_bits::is_f32(place, bits)
}

// A row `f32 f32`, in bits.
fn is_right(row: &[u8]) -> Option<bool> {
    if row.len() != 17 {
        return None;
    }
    let from = test_replay::hex32_at(row, 0, 8)?;
    let to = test_replay::hex32_at(row, 9, 8)?;
    Some(has_root(float_bits::f32_from_bits(from), to))
}

fn main(rt: HostRuntime) -> io::Result<()> {
    let mut buffer = test_replay::buffer::<204800>();
    test_replay::run_list(&rt, b"root", b"root.txt", &mut buffer, |row| {
        Some(is_right(row).unwrap_or(false))
    })
}
