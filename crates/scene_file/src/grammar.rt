// Question 2: the file's lines, tables and numbers.
ghost use Rattle.std.specs.Prelude.{◌≡◌, ◌≤◌, ◌+◌, length};
ghost use Rattle.scene_file.specs.Grammar.{line_feed};
ghost use Rattle.scene_file.specs.Readings.{tail_of, position_of, RowRead, RowsRead, SectionRead, LayoutRead, no_rows, no_layout};

use crate::numbers::{find, number_of, same};
use scene_tables::{TABLES, names_text, rule_of};

// The value lines of one table: how many, where the next line of the file and the next number
// stand, and whether an empty line ended them.
#[derive(Clone, Copy)]
pub struct TableRead {
    pub ok: bool,
    pub lines: usize,
    pub next: usize,
    pub at: usize,
    pub more: bool,
}

// Where each table's numbers begin, and how many lines it has.
#[derive(Clone, Copy)]
pub struct Layout {
    pub ok: bool,
    pub starts: [usize; TABLES],
    pub counts: [usize; TABLES],
}

// The numbers of one value line, written from `at` on. False where it is no line of that many
// numbers.
fn row(line: &[u8], width: usize, values: &mut [u32], at: usize) -> bool
    requires { at + at + length line.now + 1 ≤ length values.old + length values.old }
    ensures { RowRead line.now width at values.old result values.new }
{
    let mut j = 0;
    let mut from = 0;
    while from <= line.len() {
        let rest = &line[from..];
        let n = find(rest, b' ');
        let Some(z) = number_of(&rest[..n]) else {
            return false;
        };
        values[at + j] = z;
        j += 1;
        from = from + n + 1;
    }
    j == width
}

fn no_rows() -> TableRead
    ensures { result ≡ no_rows }
{
    TableRead {
        ok: false,
        lines: 0,
        next: 0,
        at: 0,
        more: false,
    }
}

// The value lines from a place on, up to an empty line or the end.
fn rows(file: &[u8], from: usize, width: usize, values: &mut [u32], at: usize) -> TableRead
    requires room_for_values { length file.now + 1 ≤ length values.old + length values.old }
    requires two_bytes_a_value { at + at ≤ from }
    requires from_in_file { from ≤ length file.now + 1 }
    ensures { RowsRead file.now from width at values.old result values.new }
{
    let mut next = from;
    let mut k = at;
    let mut n = 0;
    while next < file.len() {
        let rest = &file[next..];
        let e = find(rest, b'\n');
        if e == 0 {
            return TableRead {
                ok: true,
                lines: n,
                next: next + 1,
                at: k,
                more: true,
            };
        }
        if !row(&rest[..e], width, &mut *values, k) {
            return no_rows();
        }
        next = next + e + 1;
        k += width;
        n += 1;
    }
    TableRead {
        ok: true,
        lines: n,
        next,
        at: k,
        more: false,
    }
}

// One table: its names line, and its value lines.
fn table(
    file: &[u8],
    from: usize,
    names: &[u8],
    width: usize,
    values: &mut [u32],
    at: usize,
) -> TableRead
    requires room_for_values { length file.now + 1 ≤ length values.old + length values.old }
    requires two_bytes_a_value { at + at ≤ from }
    ensures { SectionRead file.now from names.now width at values.old result values.new }
{
    if file.len() <= from {
        return no_rows();
    }
    let rest = &file[from..];
    let e = find(rest, b'\n');
    if e == 0 {
        return no_rows();
    }
    if !same(&rest[..e], names) {
        return no_rows();
    }
    rows(file, from + e + 1, width, &mut *values, at)
}

// Where the names line that begins at a place ends.
fn name_end(names: &[u8], name: usize) -> usize
    requires { name ≤ length names.now }
    ensures { result ≡ name + position_of line_feed (tail_of names.now name) }
{
    let rest = &names[name..];
    name + find(rest, b'\n')
}

fn no_layout() -> Layout
    ensures { result ≡ no_layout }
{
    Layout {
        ok: false,
        starts: [0usize; TABLES],
        counts: [0usize; TABLES],
    }
}

// The numbers of the whole file, one after the other, with each table's place and lines.
pub fn read_tables(file: &[u8], values: &mut [u32]) -> Layout
    requires { length file.now + 1 ≤ length values.old + length values.old }
    ensures { LayoutRead file.now values.old result values.new }
{
    let names = names_text();
    let mut starts = [0usize; TABLES];
    let mut counts = [0usize; TABLES];
    let mut t = 0;
    let mut next = 0;
    let mut at = 0;
    let mut name = 0;
    let mut more = true;
    while t < TABLES {
        if !more {
            return no_layout();
        }
        let end = name_end(&names, name);
        let rule = rule_of(t);
        let read = table(file, next, &names[name..end], rule.fields, &mut *values, at);
        if !read.ok {
            return no_layout();
        }
        starts[t] = at;
        counts[t] = read.lines;
        name = end + 1;
        next = read.next;
        at = read.at;
        more = read.more;
        t += 1;
    }
    if more {
        return no_layout();
    }
    Layout {
        ok: true,
        starts,
        counts,
    }
}
