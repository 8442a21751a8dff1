// Makes the calls that C cannot: those on design records, and those that answer a record, a run table or a list. Each line of standard input is a
// call: which one, N, G, a number more, and the numbers of its lists, a space between. What it answers is printed in a line.
#![tactic(auto)]

ghost use Rattle.std.specs.Prelude.{◌≤◌, length, MatchOption};
ghost use Rattle.io.specs.Counts.{IsPrefixLen};
ghost use Rattle.regular.specs.Answers.{refusal_of};

use admission::{Bytes, RunList, Words};
use plan_layout::blank_design;
use regular::{Design, FACTORS, Load, RUNS, Refusal, UnplacedForm, Verdict};

// Standard input and standard output, as the system numbers them.
const STDIN: i32 = 0;

const STDOUT: i32 = 1;

// The numbers of a record: two counts, sixteen columns and a mask.
const RECORD: usize = 19;

// The places of a list of which some are lent.
const LENT: usize = 20;

// A number that was read, and the byte after it.
#[derive(Clone, Copy)]
struct Numeral {
    value: u16,
    end: u8,
}

// One byte of standard input, a line's end if there is none.
fn read_byte() -> u8 {
    let mut b = [b'\n'; 1];
    io::read_full(STDIN, &mut b);
    b[0]
}

// A number of up to five digits.
fn read_number() -> Numeral {
    let mut value: u32 = 0;
    for _ in 0..5 {
        let b = read_byte();
        if b < b'0' {
            return Numeral {
                value: (value % 65536) as u16,
                end: b,
            };
        }
        value = value % 10000 * 10 + u32::from(b - b'0');
    }
    Numeral {
        value: (value % 65536) as u16,
        end: read_byte(),
    }
}

// The numbers of a line go to the start of `line`, as many as fit. Says how many.
fn read_line(line: &mut [u16]) -> usize
    ensures { IsPrefixLen result line.new }
{
    for (i, place) in line.iter_mut().enumerate() {
        let number = read_number();
        *place = number.value;
        if number.end == b'\n' {
            return i + 1;
        }
    }
    line.len()
}

// The number at place p of a list, 0 past its end.
fn number_at(list: &[u16], p: usize) -> u16 {
    list.get(p).copied().unwrap_or(0)
}

// .. as a byte.
fn byte_at(list: &[u16], p: usize) -> u8 {
    (number_at(list, p) % 256) as u8
}

// The numbers from place p on as bytes.
fn copy_bytes(list: &[u16], p: usize, bytes: &mut [u8])
    requires { (p ≤ 512) × (length bytes.old ≤ 20) }
{
    for (i, byte) in bytes.iter_mut().enumerate() {
        *byte = byte_at(list, p + i);
    }
}

// The record in the nineteen numbers from place p on.
fn design_at(list: &[u16], p: usize) -> Design
    requires { p ≤ 500 }
{
    let mut columns = [0u8; FACTORS];
    copy_bytes(list, p + 2, &mut columns);
    Design {
        factors: byte_at(list, p),
        basics: byte_at(list, p + 1),
        columns,
        mask: number_at(list, p + RECORD - 1),
    }
}

// A number after a space.
fn print_next(x: u64) {
    io::write_all(STDOUT, b" ");
    io::print_decimal(STDOUT, x);
}

// A number after its name.
fn print_number<T: Copy + Into<u64>>(name: &[u8], x: T) {
    io::write_all(STDOUT, name);
    print_next(x.into());
}

// Numbers after their name.
fn print_numbers<T: Copy + Into<u64>>(name: &[u8], list: &[T]) {
    io::write_all(STDOUT, name);
    for x in list {
        print_next((*x).into());
    }
}

fn print_design(d: Design) {
    print_number(b" factors", d.factors);
    print_number(b" basics", d.basics);
    print_numbers(b" columns", &d.columns);
    print_number(b" mask", d.mask);
}

// The number of a refusal, 0 if there is none.
fn print_refusal<T: Copy>(answer: Result<T, Refusal>) {
    let number = match answer {
        Ok(_) => 0,
        Err(e) => e.number(),
    };
    print_number(b" number", number);
}

fn print_design_answer(answer: Result<Design, Refusal>) {
    print_refusal(answer);
    print_design(answer.unwrap_or(blank_design()));
}

fn print_runs(answer: Result<[u16; RUNS], Refusal>) {
    print_refusal(answer);
    print_numbers(b" runs", &answer.unwrap_or([0; RUNS]));
}

// A number after its name, `blank` if the call is refused.
fn print_value<T: Copy + Into<u64>>(name: &[u8], answer: Result<T, Refusal>, blank: T) {
    print_refusal(answer);
    print_number(name, answer.unwrap_or(blank));
}

fn print_resolution(answer: Result<u8, Refusal>) {
    print_value(b" resolution", answer, 0);
}

// The switches of the witness, and the smallest form, which is looked for in no list.
fn print_smallest(answer: Result<UnplacedForm, Refusal>) {
    print_refusal(answer);
    let form = answer.unwrap_or(UnplacedForm {
        mask: 0,
        design: blank_design(),
    });
    print_number(b" switches", form.mask);
    print_number(b" place", 0u8);
    print_design(form.design);
}

// The state for the next load, and the load.
fn print_load(seed: u32, answer: Result<Load, Refusal>) {
    print_refusal(answer);
    let load = answer.unwrap_or(Load {
        state: seed,
        design: blank_design(),
    });
    print_number(b" state", load.state);
    print_design(load.design);
}

fn print_compared(answer: Result<Verdict, Refusal>) {
    match answer {
        Ok(Verdict::Same(mask)) => print_number(b" same", mask),
        Ok(Verdict::Different(length)) => print_number(b" different", length),
        Err(e) => print_number(b" refused", e.number()),
    }
}

// The calls on a list of words with signs, or of runs.
fn call_on_list(call: usize, n: usize, g: usize, signs: u16, list: &[u16]) {
    let words = Words { list, signs };
    match call {
        1 => print_design_answer(forms::design_of(n, g, words)),
        2 => print_design_answer(forms::design_of(n, g, RunList(list))),
        3 => print_runs(forms::runs_of_words(n, g, words)),
        4 => print_resolution(measures::resolution_of(n, g, words)),
        _ => print_resolution(measures::resolution_of(n, g, RunList(list))),
    }
}

// .. or of the bytes of a plan.
fn resolution_of_columns(n: usize, g: usize, list: &[u16]) {
    let mut plan = [0u8; LENT];
    copy_bytes(list, 0, &mut plan);
    let count = list.len();
    if LENT < count {
        return;
    }
    print_resolution(measures::resolution_of(n, g, Bytes(&plan[..count])));
}

// Whether columns are an entry of the catalogue of n, g and r: 1 if so, else 0.
fn is_entry(n: usize, g: usize, r: usize, list: &[u16]) {
    let mut columns = [0u8; LENT];
    copy_bytes(list, 0, &mut columns);
    let count = list.len();
    if LENT < count {
        return;
    }
    let entry = entry_test::is_entry(n, g, r, &columns[..count]);
    print_number(b" entry", entry);
}

// The load of a seed, whose low and high 16 bits are the first two numbers of the list.
fn load(n: usize, g: usize, list: &[u16]) {
    let low = u32::from(number_at(list, 0));
    let high = u32::from(number_at(list, 1));
    let seed = (high << 16) | low;
    print_load(seed, loads::load(n, g, seed));
}

// Of two lists of words, the first of them the first k numbers.
fn less_aberration(n: usize, g: usize, k: usize, list: &[u16]) {
    if list.len() < k {
        return;
    }
    let better = aberration::less_aberration(n, g, &list[..k], &list[k..]);
    print_numbers(b" list", better);
}

// The calls on a record that fill a lent list: of words, whose signs are printed, or of counts.
fn fill_numbers(call: usize, n: usize, g: usize, d: Design, out: &mut [u16]) {
    if call == 9 {
        print_value(b" signs", forms::words_of(n, g, d, out), 0);
        return;
    }
    print_refusal(measures::distances_of(n, g, d, out));
}

// The same with k places lent; what it answers, and the whole list after it.
fn call_for_numbers(call: usize, n: usize, g: usize, k: usize, d: Design) {
    let mut out = [9999u16; LENT];
    if LENT < k {
        return;
    }
    fill_numbers(call, n, g, d, &mut out[..k]);
    print_numbers(b" list", &out);
}

// A call's refusal by its number, if it is one that the other arguments of a smallest form can have.
fn refusal_of(number: u8) -> Option<Result<(), Refusal>>
    ensures { MatchOption result (Unit {0}) (λ r. refusal_of r ≤ 8) }
{
    let refusal = match number {
        0 => return Some(Ok(())),
        1 => Refusal::Factors,
        2 => Refusal::Generators,
        3 => Refusal::Resolution,
        4 => Refusal::Count,
        5 => Refusal::Range,
        6 => Refusal::Rank,
        7 => Refusal::ShortWord,
        8 => Refusal::Places,
        _ => return None,
    };
    Some(Err(refusal))
}

// The calls on records that fill a lent list of names. The smallest form is asked for where the other arguments' number is 8 at most.
fn fill_names(call: usize, n: usize, g: usize, list: &[u16], names: &mut [u8]) {
    let d = design_at(list, 0);
    if call == 11 {
        print_compared(comparison::compare(n, g, d, design_at(list, RECORD), names));
        return;
    }
    if let Some(other) = refusal_of(byte_at(list, RECORD)) {
        print_smallest(smallest_of_plan::form_of(n, g, d, other, names));
    }
}

// The same with k places lent; what it answers, and the whole list after it.
fn call_for_names(call: usize, n: usize, g: usize, k: usize, list: &[u16]) {
    let mut names = [99u8; LENT];
    if LENT < k {
        return;
    }
    fill_names(call, n, g, list, &mut names[..k]);
    print_numbers(b" list", &names);
}

// The call of a line, and its answer in a line. Which call it is comes from the input.
fn answer(line: &[u16])
    requires { 4 ≤ length line.now }
{
    let call = usize::from(line[0]);
    let n = usize::from(line[1]);
    let g = usize::from(line[2]);
    let signs = line[3];
    let k = usize::from(signs);
    let list = &line[4..];
    io::print_decimal(STDOUT, u64::from(line[0]));
    match call {
        1..=5 => call_on_list(call, n, g, signs, list),
        6 => resolution_of_columns(n, g, list),
        7 => less_aberration(n, g, k, list),
        8 => print_runs(forms::runs_of_design(n, g, design_at(list, 0))),
        9..=10 => call_for_numbers(call, n, g, k, design_at(list, 0)),
        13 => is_entry(n, g, k, list),
        14 => load(n, g, list),
        _ => call_for_names(call, n, g, k, list),
    }
    io::write_all(STDOUT, b"\n");
}

fn main() {
    for _ in 0..u64::MAX {
        let mut line = [0u16; 512];
        let count = read_line(&mut line);
        if count < 4 {
            return;
        }
        answer(&line[..count]);
    }
}
