// Prints the catalogue of the size that the first line of standard input gives, and reads nothing past that line.
#![tactic(auto)]

ghost use Rattle.std.specs.Prelude.{◌≤◌, length};
ghost use Rattle.io.specs.Counts.{IsPrefixLen};
ghost use Rattle.printing.specs.Output.{Output, line_room};

// Standard input and standard output, as the system numbers them.
const STDIN: i32 = 0;

const STDOUT: i32 = 1;

// The bytes of a line that decide what is printed for it (`line_room`).
const LINE: usize = 9;

// The bytes that suffice for any output (`output_room`).
const OUTPUT: usize = 102 + 1024 * 177 + 15;

// One byte of standard input, none at its end. A read of one byte consumes no more than that.
fn read_byte() -> Option<u8> {
    let mut b = [0u8; 1];
    let got = io::read_full(STDIN, &mut b);
    if got == 1 { Some(b[0]) } else { None }
}

// Reads up to the line's end. A line of 2^64 bytes and more is read no further.
fn skip_line() {
    for _ in 0..u64::MAX {
        if let None | Some(b'\n') = read_byte() {
            return;
        }
    }
}

// The bytes up to the line's end go to the start of line, as many as fit; the others are read and dropped. Says how many. What fits has to decide
// what is printed.
fn read_line(line: &mut [u8]) -> usize
    requires { line_room ≤ length line.old }
    ensures { IsPrefixLen result line.new }
{
    for (n, place) in line.iter_mut().enumerate() {
        match read_byte() {
            None | Some(b'\n') => return n,
            Some(b) => *place = b,
        }
    }
    skip_line();
    line.len()
}

// Writes what is printed for a line: the one function that writes.
fn write_output(line: &[u8], out: &[u8])
    requires { Output line.now out.now }
{
    io::write_all(STDOUT, out);
}

fn main() {
    let mut line = [0u8; LINE];
    let n = read_line(&mut line);
    let mut out = [0u8; OUTPUT];
    let k = printing::output(&line[..n], &mut out);
    write_output(&line[..n], &out[..k]);
}
