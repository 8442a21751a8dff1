// What the program `plans` prints for a line, all of it, in a lent list of bytes.
#![tactic(auto)]

ghost use Rattle.std.specs.Prelude.{◌≤◌, length, replicate};
ghost use Rattle.regular.specs.Catalogues.{ListsDesigns};
ghost use Rattle.printed_lines.specs.Text.{header_most, output_room};
ghost use Rattle.printing.specs.Output.{EntryLines, SizeOutput, Output, Printed, AllListable};

use plan_layout::blank_design;
use printed_lines::{entry_line, header_line, no_size_line, refused_line};
use regular::{CatalogueAnswer, Design};
use size_lines::parse;

// A catalogue: the answer, and the list that was lent for it.
#[derive(Clone, Copy)]
struct Filled {
    answer: CatalogueAnswer,
    list: [Design; 1024],
}

// The catalogue of a size, in a list of 1,024 records, each d at first.
fn fill(n: usize, g: usize, r: usize, d: Design) -> Filled
    ensures { ListsDesigns n g r (replicate 1024 d) result.list result.answer.number result.answer.count }
{
    let mut list = [d; 1024];
    let answer = catalogue::catalogue(n, g, r, &mut list);
    Filled { answer, list }
}

// The lines of the first count records of a list, from place at on. Says the place after them.
fn add_entries(
    n: usize,
    g: usize,
    count: usize,
    list: [Design; 1024],
    at: usize,
    out: &mut [u8],
) -> usize
    requires { (count ≤ 1024) × AllListable n g count list × (at ≤ header_most) × (output_room ≤ length out.old) }
    ensures { EntryLines n g count list out.old out.new at result × (result ≤ output_room) }
{
    let mut end = at;
    for i in 0..count {
        let d = list[i];
        end = entry_line(n, g, i + 1, d, end, out);
    }
    end
}

// What is printed for a size: its catalogue, or the number that it is refused by. Says how many bytes.
fn size_output(n: usize, g: usize, r: usize, out: &mut [u8]) -> usize
    requires { output_room ≤ length out.old }
    ensures { Printed (SizeOutput n g r) out.old out.new result }
{
    let d = blank_design();
    let filled = fill(n, g, r, d);
    let answer = filled.answer;
    let number = answer.number;
    if number != 0 {
        return refused_line(number, out);
    }
    let count = answer.count;
    let end = header_line(n, g, r, count, out);
    let list = filled.list;
    add_entries(n, g, count, list, end, out)
}

// What is printed for a line: all of it, at the start of out. Says how many bytes.
pub fn output(line: &[u8], out: &mut [u8]) -> usize
    requires { output_room ≤ length out.old }
    ensures { Printed (Output line.now) out.old out.new result }
{
    match parse(line) {
        Some(size) => size_output(size.n, size.g, size.r, out),
        None => no_size_line(out),
    }
}
