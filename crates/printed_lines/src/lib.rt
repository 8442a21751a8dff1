// The lines that are printed, made in a lent list of bytes: each function adds its text from a place on and says the place after it. The lines are
// public for what is printed as a whole. Of the bytes that a text may take, and of the room that it asks for, each function says the least that its
// arguments' types allow.
#![tactic(auto)]

ghost use Rattle.std.specs.Prelude.{◌+◌, ◌-◌, ◌*◌, ◌≤◌, length};
ghost use Rattle.printed_lines.specs.Text.{TextAdded, decimal, next, columns_text, counts_text, header_line, refused, not_a_size};
ghost use Rattle.printed_lines.specs.Text.{start, entry, EntryLine, header_most, entry_most, entry_room};
ghost use Rattle.printed_lines.specs.Listed.{Listable};

use regular::{Design, FACTORS};

// A text as it is.
fn add_text(text: &[u8], at: usize, out: &mut [u8]) -> usize
    requires { at + length text.now ≤ length out.old }
    ensures { TextAdded out.old out.new at text.now result }
{
    let end = at + text.len();
    out[at..end].copy_from_slice(text);
    end
}

// A number in decimal digits.
fn add_decimal(x: u64, at: usize, out: &mut [u8]) -> usize
    requires { at + 20 ≤ length out.old }
    ensures { TextAdded out.old out.new at (decimal x) result × (result ≤ at + 20) }
{
    let mut digits = [0u8; 20];
    let k = io::decimal(x, &mut digits);
    add_text(&digits[..k], at, out)
}

// A number after a space.
fn add_next(x: u64, at: usize, out: &mut [u8]) -> usize
    requires { at + 21 ≤ length out.old }
    ensures { TextAdded out.old out.new at (next x) result × (result ≤ at + 21) }
{
    let end = add_text(b" ", at, out);
    add_decimal(x, end, out)
}

// The columns of n factors, each after a space.
fn add_columns(n: usize, columns: [u8; FACTORS], at: usize, out: &mut [u8]) -> usize
    requires { (n ≤ 16) × (at + 4 * n + 17 ≤ length out.old) }
    ensures { TextAdded out.old out.new at (columns_text n columns) result × (result ≤ at + 4 * n) }
{
    let mut end = at;
    for f in 0..n {
        end = add_next(u64::from(columns[f]), end, out);
    }
    end
}

// The counts of the words of three letters to n, each after a space.
fn add_counts(n: usize, counts: [u16; FACTORS], at: usize, out: &mut [u8]) -> usize
    requires { (n ≤ 16) × (at + 6 * (n - 2) + 15 ≤ length out.old) }
    ensures { TextAdded out.old out.new at (counts_text n counts) result × (result ≤ at + 6 * (n - 2)) }
{
    let mut end = at;
    for l in 2..n {
        let count = u64::from(counts[l]);
        end = add_next(count, end, out);
    }
    end
}

// The start of an entry's line: its place, resolution and columns.
fn add_start(
    n: usize,
    place: usize,
    resolution: u8,
    columns: [u8; FACTORS],
    at: usize,
    out: &mut [u8],
) -> usize
    requires { (n ≤ 16) × (place ≤ 1024) × (at + entry_room ≤ length out.old) }
    ensures { TextAdded out.old out.new at (start n place resolution columns) result × (result ≤ at + 84) }
{
    let a = add_decimal(place as u64, at, out);
    let b = add_text(b" res", a, out);
    let c = add_next(u64::from(resolution), b, out);
    let d = add_text(b" columns", c, out);
    add_columns(n, columns, d, out)
}

// An entry's line, of its parts.
fn add_entry(
    n: usize,
    place: usize,
    resolution: u8,
    columns: [u8; FACTORS],
    counts: [u16; FACTORS],
    at: usize,
    out: &mut [u8],
) -> usize
    requires { (n ≤ 16) × (place ≤ 1024) × (at + entry_room ≤ length out.old) }
    ensures { TextAdded out.old out.new at (entry n place resolution columns counts) result × (result ≤ at + entry_most) }
{
    let a = add_start(n, place, resolution, columns, at, out);
    let b = add_text(b" pattern", a, out);
    let c = add_counts(n, counts, b, out);
    add_text(b"\n", c, out)
}

// The line of an entry: its place, resolution, columns and counts.
pub fn entry_line(n: usize, g: usize, place: usize, d: Design, at: usize, out: &mut [u8]) -> usize
    requires { Listable n g d × (place ≤ 1024) × (at + entry_room ≤ length out.old) }
    ensures { EntryLine n g place d out.old out.new at result × (result ≤ at + entry_most) }
{
    let resolution = measures::resolution_of(n, g, d).unwrap();
    let mut counts = [0u16; FACTORS];
    measures::pattern_of(n, g, d, &mut counts).unwrap();
    add_entry(n, place, resolution, d.columns, counts, at, out)
}

// The header: the size and the entry count.
pub fn header_line(n: usize, g: usize, r: usize, count: usize, out: &mut [u8]) -> usize
    requires { header_most ≤ length out.old }
    ensures { TextAdded out.old out.new 0 (header_line n g r count) result × (result ≤ header_most) }
{
    let a = add_text(b"catalogue", 0, out);
    let b = add_next(n as u64, a, out);
    let c = add_next(g as u64, b, out);
    let d = add_next(r as u64, c, out);
    let e = add_text(b" entries", d, out);
    let f = add_next(count as u64, e, out);
    add_text(b"\n", f, out)
}

// The line of a refusal.
pub fn refused_line(number: u8, out: &mut [u8]) -> usize
    requires { header_most ≤ length out.old }
    ensures { TextAdded out.old out.new 0 (refused number) result × (result ≤ header_most) }
{
    let a = add_text(b"refused", 0, out);
    let b = add_next(u64::from(number), a, out);
    add_text(b"\n", b, out)
}

// The line for what gives no size.
pub fn no_size_line(out: &mut [u8]) -> usize
    requires { header_most ≤ length out.old }
    ensures { TextAdded out.old out.new 0 not_a_size result × (result ≤ header_most) }
{
    add_text(b"not a size\n", 0, out)
}
