// From a run table to its standard columns, deciding on the way whether its runs are different and regular.
// The walk goes over the factors from A. A factor whose levels hang on those of the basic factors so far takes the one column that can say
// how; any other is the next basic factor.
#![tactic(auto)]

ghost use Rattle.std.specs.Prelude.{◌≡◌, true, false, ℕ, ◌+◌, ◌*◌, ◌^◌, ◌<◌, ◌≤◌, length, get_or, replicate, is_some};
ghost use Rattle.std.specs.Option.{unwrap_or};
ghost use Rattle.gf2.specs.Members.{In};
ghost use Rattle.regular.specs.Runs.{Table, switched, runs_of};
ghost use Rattle.standard.specs.Finding.{StandardFound};
ghost use Rattle.table_forms.specs.Walk.{Latest, Candidate, FitsFrom, Fitting, LevelsExtended, TableWalk, ColumnGiven, BasicAdded, WalkReached, AllLast};

use regular::{FACTORS, RUNS};

// So many runs are looked at first. A factor that follows from none of the basic ones nearly always shows it there.
const FIRST_RUNS: usize = 16;

// Whether every run is below `end`.
pub fn all_below(t: &[u16], end: usize) -> bool
    ensures { (result ≡ true → ((x : ℕ) → In x t.now → x < end)) × (result ≡ false → ((x : ℕ) × (In x t.now × (end ≤ x)))) }
{
    t.iter().all(|&x| usize::from(x) < end)
}

// c with the level d above it, at the place of half.
fn with_level(d: u16, half: u16, c: u16) -> u16
    requires { (d < 2) × (half ≤ 128) × (c < half) }
    ensures { result ≡ d * half + c }
{
    if d == 0 { c } else { half + c }
}

// Place c holds the last of the first `count` runs whose basic levels are c; 0 if there is none.
fn places(count: usize, coords: &[u16; RUNS]) -> [usize; RUNS]
    requires { (0 < count) × (count ≤ 128) × ((i : ℕ) → i < count → get_or coords.now i 0 < 128) }
    ensures { Latest count count coords.now result }
{
    let mut v = [0usize; RUNS];
    for i in 0..count {
        v[usize::from(coords[i])] = i;
    }
    v
}

// 0 exactly if column k gives factor f its level in each run from `from` to before `end`, the first run switched to 0. No branch and no end of
// the loop depends on a run or on the column, so that several runs are taken at a time.
fn misfits(t: &[u16], coords: &[u16; RUNS], f: usize, k: u16, from: usize, end: usize) -> u16
    requires { (f < 16) × (from ≤ end) × (end ≤ length t.now) × (length t.now ≤ 128) }
    ensures { FitsFrom t.now coords.now f k from end result }
{
    let mut wrong: u16 = 0;
    for i in from..end {
        wrong |= bits::level(t[i] ^ t[0], f) ^ bits::parity(coords[i], k);
    }
    wrong
}

// Whether column k gives factor f its level in every run, the first run switched to 0. After the first runs as many again are looked at, and so on.
fn fits(t: &[u16], coords: &[u16; RUNS], f: usize, k: u16) -> bool
    requires { (f < 16) × (length t.now ≤ 128) }
    ensures { Fitting t.now coords.now f k result }
{
    let mut from = 0;
    let mut end = FIRST_RUNS;
    while end < t.len() {
        if misfits(t, coords, f, k, from, end) != 0 {
            return false;
        }
        from = end;
        end += end;
    }
    misfits(t, coords, f, k, from, t.len()) == 0
}

// The basic levels with factor f as one more basic factor.
fn extend(t: &[u16], coords: &mut [u16; RUNS], f: usize, half: u16)
    requires { (f < 16) × (length t.now ≤ 128) × (half ≤ 128) × ((i : ℕ) → i < length t.now → get_or coords.old i 0 < half) }
    ensures { LevelsExtended t.now coords.old coords.new f half (length t.now) }
{
    for i in 0..t.len() {
        coords[i] = with_level(bits::level(t[i] ^ t[0], f), half, coords[i]);
    }
}

// The walk: the columns of the factors passed, how many are basic, the next unit, each run's levels at the basic factors, and a run for
// each choice of these levels.
#[derive(Clone, Copy)]
struct Walked {
    columns: [u8; FACTORS],
    basics: usize,
    half: u16,
    coords: [u16; RUNS],
    place: [usize; RUNS],
}

impl Walked {
    // The walk before the first factor.
    fn start(t: &[u16]) -> Walked
        requires { (0 < length t.now) × (length t.now ≤ 128) }
        ensures { (m : ℕ) → TableWalk m t.now 0 result }
    {
        let coords = [0; RUNS];
        Walked {
            columns: [0; FACTORS],
            basics: 0,
            half: 1,
            coords,
            place: places(t.len(), &coords),
        }
    }

    // The only column that can give factor f its levels; none if some basic factor is low alone in no run.
    fn candidate(&self, t: &[u16], f: usize) -> Option<u16>
        requires { (f < 16) × (self.now.basics ≤ 7) × (length t.now ≤ 128) × ((c : ℕ) → get_or self.now.place c 0 < length t.now) }
        ensures { Candidate t.now self.now.coords self.now.place self.now.basics f (is_some result) (unwrap_or result 0) }
    {
        let mut k = 0;
        for i in 0..self.basics {
            let half: u16 = 1 << i;
            let x = self.place[usize::from(half)];
            if self.coords[x] != half {
                return None;
            }
            k = with_level(bits::level(t[x] ^ t[0], f), half, k);
        }
        Some(k)
    }

    // Factor f takes the column k of the basic factors so far.
    fn follow(&mut self, f: usize, k: u16)
        requires { (f < 16) × (k < 256) }
        ensures { ColumnGiven f k self.old self.new }
    {
        self.columns[f] = k as u8;
    }

    // Factor f is the next basic factor.
    fn grow(&mut self, t: &[u16], f: usize)
        requires f_bound { (f < 16) × (self.old.basics < 7) × (self.old.half ≤ 64) }
        requires t_nonzero { (0 < length t.now) × (length t.now ≤ 128) × ((i : ℕ) → i < length t.now → get_or self.old.coords i 0 < self.old.half) }
        ensures { BasicAdded t.now f self.old self.new }
    {
        let half = self.half;
        self.columns[f] = half as u8;
        self.basics += 1;
        self.half = half + half;
        extend(t, &mut self.coords, f, half);
        self.place = places(t.len(), &self.coords);
    }

    // The walk after factor f; false if the runs are not different and regular.
    fn step(&mut self, m: usize, t: &[u16], f: usize) -> bool
        requires { (f < 16) × (m ≤ 7) × (length t.now ≡ 2 ^ m) × TableWalk m t.now f self.old }
        ensures { WalkReached m t.now (f + 1) result self.new }
    {
        let Some(k) = self.candidate(t, f) else {
            return false;
        };
        if fits(t, &self.coords, f, k) {
            self.follow(f, k);
            return true;
        }
        if self.basics == m {
            return false;
        }
        self.grow(t, f);
        true
    }

    // The walk over all n factors; false if the runs are not different and regular.
    fn walk(&mut self, n: usize, m: usize, t: &[u16]) -> bool
        requires { (n ≤ 16) × (m ≤ 7) × (length t.now ≡ 2 ^ m) × TableWalk m t.now 0 self.old }
        ensures { WalkReached m t.now n result self.new }
    {
        for f in 0..n {
            if !self.step(m, t, f) {
                return false;
            }
        }
        true
    }

    // Whether each of the first `count` runs is the last with its basic levels.
    fn all_last(&self, count: usize) -> bool
        requires { (count ≤ 128) × ((i : ℕ) → i < count → get_or self.now.coords i 0 < 128) }
        ensures { AllLast count self.now.coords self.now.place result }
    {
        for i in 0..count {
            if self.place[usize::from(self.coords[i])] != i {
                return false;
            }
        }
        true
    }
}

// The standard columns of a run table, its first run switched to 0, found exactly if the runs are different and regular.
pub fn table_columns(n: usize, m: usize, t: &[u16]) -> Option<[u8; FACTORS]>
    requires { (n ≤ 16) × (m ≤ 7) × (length t.now ≡ 2 ^ m) × ((x : ℕ) → In x t.now → x < 2 ^ n) }
    ensures { StandardFound n m (Table n m t.now) (switched (get_or t.now 0 0) (runs_of t.now)) (is_some result) (unwrap_or result (replicate 16 0)) }
{
    let mut w = Walked::start(t);
    if !w.walk(n, m, t) {
        return None;
    }
    if !w.all_last(t.len()) {
        return None;
    }
    Some(w.columns)
}
