// The check of a claimed witness between two run tables.
#![tactic(auto)]

ghost use Rattle.std.specs.Prelude.{◌≤◌};
ghost use Rattle.gf2.specs.Answers.{Tells};
ghost use Rattle.regular.specs.Answers.{checked_of};
ghost use Rattle.regular.specs.Comparisons.{ChecksWitness};
ghost use Rattle.regular.specs.Given.{of_runs};
ghost use Rattle.witness_check.specs.Names.{AllNamed};
ghost use Rattle.witness_check.specs.Partners.{Partnered, NoPartner};

use admission::{Form, RunList, array_of, both};
use bits::{level, power};
use regular::Refusal;
use renaming::renamed;

// Whether there are n names, each of the n factors being used once.
fn each_once(n: usize, names: &[u8]) -> bool
    requires { n ≤ 16 }
    ensures { Tells result (AllNamed n names.now) (AllNamed n names.now → ⊥) }
{
    if names.len() != n {
        return false;
    }
    let mut seen: u16 = 0;
    for &name in names {
        let factor = usize::from(name);
        if n <= factor {
            return false;
        }
        if level(seen, factor) == 1 {
            return false;
        }
        seen ^= 1 << factor;
    }
    true
}

// Whether every run of the first table, renamed and switched, is a run of the second.
fn partnered(n: usize, first: &[u16], second: &[u16], names: &[u8], mask: u16) -> bool
    requires { (n ≤ 16) × AllNamed n names.now }
    ensures { Tells result (Partnered n first.now second.now names.now mask)
        (NoPartner n first.now second.now names.now mask) }
{
    let all = array_of(names);
    first
        .iter()
        .all(|&x| second.contains(&(renamed(n, all, x) ^ mask)))
}

// Whether renaming by the names and then switching by the mask turns the first table's set of runs into the second's.
pub fn check_witness(
    n: usize,
    g: usize,
    first: &[u16],
    second: &[u16],
    names: &[u8],
    mask: u16,
) -> Result<bool, Refusal>
    ensures { ChecksWitness n (of_runs n g first.now) (of_runs n g second.now) names.now mask (checked_of result) }
{
    let a = RunList(first).admit(n, g);
    let b = RunList(second).admit(n, g);
    both(a, b)?;
    Ok(
        each_once(n, names)
            && usize::from(mask) < power(n)
            && partnered(n, first, second, names, mask),
    )
}
