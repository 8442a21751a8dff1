// Pattern, resolution and distance counts of a plan in any of its forms.
#![tactic(auto)]

ghost use Rattle.std.specs.Prelude.{◌≡◌, ℕ, ◌-◌, ◌≤◌, get_or};
ghost use Rattle.std.specs.Result.{result_unwrap_or};
ghost use Rattle.regular.specs.Answers.{refusal_of};
ghost use Rattle.regular.specs.Columns.{plan_of};
ghost use Rattle.regular.specs.Pattern.{Pattern, Distances, Resolution};
ghost use Rattle.regular.specs.Measures.{PatternInto, ResolutionOf, ResolutionInto, DistancesInto};
ghost use Rattle.admission.specs.Admission.{Ready};

use admission::Form;
use bits::power;
use regular::{FACTORS, Refusal};

// The pattern of standard columns: the count of length l at place l - 1.
pub fn pattern(n: usize, g: usize, columns: [u8; FACTORS]) -> [u16; FACTORS]
    requires { Ready n g columns }
    ensures { Pattern n (plan_of n (n - g) columns) result × ((i : ℕ) → n ≤ i → get_or result i 0 ≡ 0) }
{
    let words = generators::generators(n, columns);
    patterns::pattern_of(n, g, words)
}

// The distance counts of standard columns from their first run: of distance i at place i.
fn distances(n: usize, g: usize, columns: [u8; FACTORS]) -> [u16; 17]
    requires { Ready n g columns }
    ensures { Distances n (plan_of n (n - g) columns) 0 result }
{
    let m = n - g;
    let runs = column_forms::run_table(n, m, columns);
    patterns::distances_of(power(m), runs)
}

// The resolution of standard columns.
fn resolution(n: usize, g: usize, columns: [u8; FACTORS]) -> u8
    requires { Ready n g columns }
    ensures { Resolution n (plan_of n (n - g) columns) result }
{
    patterns::resolution_of(n, pattern(n, g, columns))
}

// The pattern of a plan in any form, in a lent list: the count of length l at place l - 1.
pub fn pattern_of<P: Form>(n: usize, g: usize, plan: P, out: &mut [u16]) -> Result<(), Refusal>
    ensures { PatternInto n (P.given plan n g) out.old out.new (refusal_of result) }
{
    let counts = pattern(n, g, plan.admit(n, g)?.columns);
    lent::lend_numbers(&counts[..n], out)
}

// Its resolution.
pub fn resolution_of<P: Form>(n: usize, g: usize, plan: P) -> Result<u8, Refusal>
    ensures { ResolutionOf n (P.given plan n g) (refusal_of result) (result_unwrap_or result 0) }
{
    Ok(resolution(n, g, plan.admit(n, g)?.columns))
}

// Its resolution, in a lent list of one place.
pub fn list_resolution_of<P: Form>(
    n: usize,
    g: usize,
    plan: P,
    out: &mut [u8],
) -> Result<(), Refusal>
    ensures { ResolutionInto n (P.given plan n g) out.old out.new (refusal_of result) }
{
    let admitted = plan.admit(n, g)?;
    if out.is_empty() {
        return Err(Refusal::Places);
    }
    out[0] = resolution(n, g, admitted.columns);
    Ok(())
}

// Its distance counts from the run that it starts from, in a lent list: of distance i at place i. Each run of a plan has the same.
pub fn distances_of<P: Form>(n: usize, g: usize, plan: P, out: &mut [u16]) -> Result<(), Refusal>
    ensures { DistancesInto n (P.given plan n g) out.old out.new (refusal_of result) }
{
    let counts = distances(n, g, plan.admit(n, g)?.columns);
    let end = n + 1;
    lent::lend_numbers(&counts[..end], out)
}
