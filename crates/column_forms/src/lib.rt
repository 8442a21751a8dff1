// From columns to their standard columns, their run table, the mask of a run, and whether one is 0 or stands twice.
#![tactic(auto)]

ghost use Rattle.std.specs.Prelude.{◌≡◌, true, false, ℕ, ◌^◌, ◌<◌, ◌≤◌, length, get_or, replicate, is_some};
ghost use Rattle.std.specs.Option.{unwrap_or};
ghost use Rattle.gf2.specs.Answers.{Tells};
ghost use Rattle.regular.specs.Columns.{plan_of, Below, Spans, RunTable, RunTableWith, run_of, Allowed};
ghost use Rattle.standard.specs.Form.{DistinctNonzero, Repeat};
ghost use Rattle.standard.specs.Finding.{StandardFound};
ghost use Rattle.signs.specs.Masks.{MaskOf};
ghost use Rattle.column_forms.specs.Tables.{SumsGrown};
ghost use Rattle.column_forms.specs.Walk.{WalkEnded};

use regular::{FACTORS, NUMBERS};

// Twice as many sums of columns, by the column c: place half + k holds the sum at place k with c, and places finds it again.
pub fn double(c: u8, half: usize, sums: &mut [u8; NUMBERS], places: &mut [u8; NUMBERS])
    requires { (half ≤ 64) × (c < 128) × (length sums.old ≡ 128) × (length places.old ≡ 128) × ((k : ℕ) → k < half → get_or sums.old k 0 < 128) }
    ensures { SumsGrown c half half sums.old places.old sums.new places.new }
{
    for k in 0..half {
        let v = sums[k] ^ c;
        sums[half + k] = v;
        let z = usize::from(v);
        places[z] = (half + k + 1) as u8;
    }
}

// How many numbers the columns reach, and their columns in standard form.
#[derive(Clone, Copy)]
struct Walked {
    half: usize,
    columns: [u8; FACTORS],
}

// The walk over the columns.
fn walk(n: usize, m: usize, cols: [u8; FACTORS]) -> Walked
    requires { (n ≤ 16) × (m ≤ 7) × Below n m cols }
    ensures { WalkEnded n m cols result.half result.columns }
{
    let mut columns = [0u8; FACTORS];
    let mut sums = [0u8; NUMBERS];
    let mut places = [0u8; NUMBERS];
    places[0] = 1;
    let mut half = 1;
    for f in 0..n {
        let c = cols[f];
        let p = places[usize::from(c)];
        if p != 0 {
            columns[f] = p - 1;
        } else {
            columns[f] = half as u8;
            double(c, half, &mut sums, &mut places);
            half += half;
        }
    }
    Walked { half, columns }
}

// The standard columns of the plan of the columns, found exactly if they have rank m.
pub fn standardize(n: usize, m: usize, cols: [u8; FACTORS]) -> Option<[u8; FACTORS]>
    requires { (n ≤ 16) × (m ≤ 7) × Below n m cols }
    ensures { StandardFound n m (Spans n m cols) (plan_of n m cols) (is_some result) (unwrap_or result (replicate 16 0)) }
{
    let w = walk(n, m, cols);
    if w.half != bits::power(m) {
        return None;
    }
    Some(w.columns)
}

// Whether no column is 0 and none stands twice.
pub fn distinct_nonzero(n: usize, cols: [u8; FACTORS]) -> bool
    requires { (n ≤ 16) × Below n 7 cols }
    ensures { (result ≡ true → DistinctNonzero n cols) × (result ≡ false → Repeat n cols) }
{
    let mut seen = [0u8; NUMBERS];
    seen[0] = 1;
    for f in 0..n {
        let z = usize::from(cols[f]);
        if seen[z] != 0 {
            return false;
        }
        seen[z] = 1;
    }
    true
}

// Run 2^d of the columns: bit d of column f at bit f.
pub fn unit_run(n: usize, d: usize, cols: [u8; FACTORS]) -> u16
    requires { (n ≤ 16) × (d < 16) }
    ensures { result ≡ run_of cols n (2 ^ d) }
{
    let mut w: u16 = 0;
    for f in 0..n {
        let x = bits::level(u16::from(cols[f]), d);
        w |= x << f;
    }
    w
}

// The run table of the columns: run j at place j, the unused places zero.
pub fn run_table(n: usize, m: usize, cols: [u8; FACTORS]) -> [u16; NUMBERS]
    requires { (n ≤ 16) × (m ≤ 7) }
    ensures { RunTable n m cols result }
{
    let mut t = [0u16; NUMBERS];
    let mut half = 1;
    for d in 0..m {
        let u = unit_run(n, d, cols);
        bits::double(u, half, &mut t);
        half += half;
    }
    t
}

// The run table of the columns and a mask: run j, switched, at place j, the unused places zero.
pub fn switched_table(n: usize, m: usize, cols: [u8; FACTORS], mask: u16) -> [u16; NUMBERS]
    requires { (n ≤ 16) × (m ≤ 7) }
    ensures { RunTableWith n m cols mask result }
{
    let mut t = run_table(n, m, cols);
    for j in 0..bits::power(m) {
        t[j] ^= mask;
    }
    t
}

// The mask of a plan with the run x and these columns: x and a run of the columns, so that every basic factor is high.
pub fn mask_of(n: usize, columns: [u8; FACTORS], x: u16) -> u16
    requires { n ≤ 16 }
    ensures { MaskOf n columns x result }
{
    let mut mask = x;
    let mut unit = 1;
    let mut d = 0;
    for f in 0..n {
        if usize::from(columns[f]) == unit {
            if bits::level(mask, f) == 1 {
                mask ^= unit_run(n, d, columns);
            }
            unit += unit;
            d += 1;
        }
    }
    mask
}

// Whether a mask is allowed with the columns, of whatever rank: it is zero past factor n and where a column is no sum of those before it.
pub fn allows(n: usize, m: usize, cols: [u8; FACTORS], mask: u16) -> bool
    requires { (n ≤ 16) × (m ≤ 7) × Below n m cols }
    ensures { Tells result (Allowed n (plan_of n m cols) mask) (Allowed n (plan_of n m cols) mask → ⊥) }
{
    if mask == 0 {
        return true;
    }
    if bits::power(n) <= usize::from(mask) {
        return false;
    }
    let columns = walk(n, m, cols).columns;
    mask_of(n, columns, mask) == mask
}
