// Plans in any of their forms are admitted here: refused by the lowest number that applies, or brought into standard columns and the run that they start
// from.
#![tactic(auto)]

ghost use Rattle.std.specs.Prelude.{◌≡◌, true, false, ℕ, ◌≤◌, ◌<◌, length, get_or, IfOk, Ok};
ghost use Rattle.regular.specs.Sizes.{Size, Sized};
ghost use Rattle.regular.specs.Refusals.{SizeFault, size_faults, Lowest};
ghost use Rattle.regular.specs.Answers.{refusal_of, admitted_of};
ghost use Rattle.regular.specs.Given.{Given, of_words, of_runs, of_design, of_columns, of_bare};
ghost use Rattle.regular.specs.RefusalLaws.{Lower};
ghost use Rattle.admission.specs.Admission.{Admission, Columned};

use bits::power;
use plan_layout::{columns_at, mask_in, plan_bytes};
use regular::{AcceptedPlan, BASICS, Design, FACTORS, Refusal};

// Whether the sizes are in bounds.
pub fn check_size(n: usize, g: usize) -> Result<(), Refusal>
    ensures { Lowest (SizeFault n g) (refusal_of result) × (refusal_of result ≡ 0 → Size n g) }
{
    if n < 1 || FACTORS < n {
        return Err(Refusal::Factors);
    }
    if n <= g || BASICS < n - g {
        return Err(Refusal::Generators);
    }
    Ok(())
}

// Whether the sizes and the wanted resolution are in bounds.
pub fn check_bounds(n: usize, g: usize, r: usize) -> Result<(), Refusal>
    ensures { Lowest (size_faults n g r) (refusal_of result) × (refusal_of result ≡ 0 → Sized n g r) × (refusal_of result ≤ 3) }
{
    check_size(n, g)?;
    if r < 3 || FACTORS < r {
        return Err(Refusal::Resolution);
    }
    Ok(())
}

// Both values, or the lower of two refusals.
pub fn both<A: Copy, B: Copy>(
    a: Result<A, Refusal>,
    b: Result<B, Refusal>,
) -> Result<(A, B), Refusal>
    ensures lower { Lower (refusal_of a) (refusal_of b) (refusal_of result) }
    ensures values { IfOk result (λ p. (a ≡ Ok p.0) × (b ≡ Ok p.1)) }
{
    match (a, b) {
        (Ok(x), Ok(y)) => Ok((x, y)),
        (Ok(_), Err(f)) => Err(f),
        (Err(e), Ok(_)) => Err(e),
        (Err(e), Err(f)) => {
            if f.number() < e.number() {
                return Err(f);
            }
            Err(e)
        }
    }
}

// A plan of n factors and g generators, in whichever form.
pub trait Form: Copy {
    // The plan as the papers' definitions take it.
    ghost given: { Self → ℕ → ℕ → Given };

    // The run that the plan starts from and its standard columns.
    fn admit(self, n: usize, g: usize) -> Result<AcceptedPlan, Refusal>
        ensures { Admission n g (given self n g) (admitted_of result) };
}

// A list of generators and their signs.
#[derive(Clone, Copy)]
pub struct Words<'a> {
    pub list: &'a [u16],
    pub signs: u16,
}

// A run table.
#[derive(Clone, Copy)]
pub struct RunList<'a>(pub &'a [u16]);

// The bytes of a plan: its columns and its mask.
#[derive(Clone, Copy)]
pub struct Bytes<'a>(pub &'a [u8]);

// A list of columns alone.
#[derive(Clone, Copy)]
pub struct Bare<'a>(pub &'a [u8]);

impl Form for Words<'_> {
    ghost given = { λ w n g. of_words n g w.list.now w.signs };

    fn admit(self, n: usize, g: usize) -> Result<AcceptedPlan, Refusal> {
        check_size(n, g)?;
        let words = self.list;
        let signs = self.signs;
        if words.len() != g {
            return Err(Refusal::Count);
        }
        if !word_forms::letters_below(words, power(n)) {
            return Err(Refusal::Range);
        }
        if power(g) <= usize::from(signs) {
            return Err(Refusal::Range);
        }
        let Some(columns) = word_forms::words_columns(n, words) else {
            return Err(Refusal::Rank);
        };
        if !column_forms::distinct_nonzero(n, columns) {
            return Err(Refusal::ShortWord);
        }
        let run = sign_forms::mask_of_signs(n, words, signs);
        Ok(AcceptedPlan { run, columns })
    }
}

impl Form for RunList<'_> {
    ghost given = { λ t n g. of_runs n g t.0.now };

    fn admit(self, n: usize, g: usize) -> Result<AcceptedPlan, Refusal> {
        check_size(n, g)?;
        let m = n - g;
        let runs = self.0;
        if runs.len() != power(m) {
            return Err(Refusal::Count);
        }
        if !table_forms::all_below(runs, power(n)) {
            return Err(Refusal::Range);
        }
        let Some(columns) = table_forms::table_columns(n, m, runs) else {
            return Err(Refusal::Rank);
        };
        if !column_forms::distinct_nonzero(n, columns) {
            return Err(Refusal::ShortWord);
        }
        let run = runs[0];
        Ok(AcceptedPlan { run, columns })
    }
}

// Whether the first n columns are below `end`.
fn columns_below(n: usize, end: usize, columns: [u8; FACTORS]) -> bool
    requires { n ≤ 16 }
    ensures { (result ≡ true → ((f : ℕ) → f < n → get_or columns f 0 < end)) × (result ≡ false → ((f : ℕ) × ((f < n) × (end ≤ get_or columns f 0)))) }
{
    columns[..n].iter().all(|&c| usize::from(c) < end)
}

// Columns and a mask of sizes in bounds: the mask and the columns' standard columns.
fn admit_array(
    n: usize,
    m: usize,
    columns: [u8; FACTORS],
    mask: u16,
) -> Result<AcceptedPlan, Refusal>
    requires { (n ≤ 16) × (m ≤ 7) }
    ensures { Columned n m columns mask (admitted_of result) }
{
    if !columns_below(n, power(m), columns) {
        return Err(Refusal::Range);
    }
    if !column_forms::allows(n, m, columns, mask) {
        return Err(Refusal::Range);
    }
    let Some(standard) = column_forms::standardize(n, m, columns) else {
        return Err(Refusal::Rank);
    };
    if !column_forms::distinct_nonzero(n, standard) {
        return Err(Refusal::ShortWord);
    }
    Ok(AcceptedPlan {
        run: mask,
        columns: standard,
    })
}

// Whether the places from n on are 0.
fn unused_zero(n: usize, columns: [u8; FACTORS]) -> bool
    ensures { (result ≡ true → ((f : ℕ) → n ≤ f → f < 16 → get_or columns f 0 ≡ 0))
        × (result ≡ false → ((f : ℕ) × ((n ≤ f) × ((f < 16) × (get_or columns f 0 ≡ 0 → ⊥))))) }
{
    columns.iter().skip(n).all(|&c| c == 0)
}

impl Form for Design {
    ghost given = { λ d n g. of_design n g d };

    fn admit(self, n: usize, g: usize) -> Result<AcceptedPlan, Refusal> {
        check_size(n, g)?;
        let m = n - g;
        if usize::from(self.factors) != n {
            return Err(Refusal::Count);
        }
        if usize::from(self.basics) != m {
            return Err(Refusal::Count);
        }
        if !unused_zero(n, self.columns) {
            return Err(Refusal::Range);
        }
        admit_array(n, m, self.columns, self.mask)
    }
}

// The bytes of a list as an array, zeros after them.
pub fn array_of(list: &[u8]) -> [u8; FACTORS]
    requires { length list.now ≤ 16 }
    ensures { (f : ℕ) → get_or result f 0 ≡ get_or list.now f 0 }
{
    let mut columns = [0u8; FACTORS];
    columns[..list.len()].copy_from_slice(list);
    columns
}

impl Form for Bytes<'_> {
    ghost given = { λ b n g. of_columns n g b.0.now };

    fn admit(self, n: usize, g: usize) -> Result<AcceptedPlan, Refusal> {
        check_size(n, g)?;
        let plan = self.0;
        if plan.len() != plan_bytes(n) {
            return Err(Refusal::Count);
        }
        admit_array(n, n - g, columns_at(n, plan, 0), mask_in(n, plan))
    }
}

impl Form for Bare<'_> {
    ghost given = { λ b n g. of_bare n g b.0.now };

    fn admit(self, n: usize, g: usize) -> Result<AcceptedPlan, Refusal> {
        check_size(n, g)?;
        let list = self.0;
        if list.len() != n {
            return Err(Refusal::Count);
        }
        admit_array(n, n - g, array_of(list), 0)
    }
}
