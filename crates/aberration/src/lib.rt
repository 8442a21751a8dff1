// The one of two lists of words, taken without signs, whose plan has less aberration.
#![tactic(auto)]

ghost use Rattle.std.specs.Prelude.{◌-◌, IfOk, Ok};
ghost use Rattle.gf2.specs.Answers.{Tells};
ghost use Rattle.regular.specs.Answers.{refusal_of, admitted_of, chosen_of};
ghost use Rattle.regular.specs.Columns.{plan_of};
ghost use Rattle.regular.specs.Pattern.{LessAberration};
ghost use Rattle.regular.specs.Refusals.{either, Lowest};
ghost use Rattle.regular.specs.Given.{of_words};
ghost use Rattle.regular.specs.Measures.{ChoosesLess, HandsBackLess};
ghost use Rattle.admission.specs.Admission.{Admission, Ready};

use admission::{Form, Words, both};
use regular::{AcceptedPlan, Choice, FACTORS, Refusal};

// Whether the plan of the second standard columns has less aberration than that of the first.
fn second_less(n: usize, g: usize, first: [u8; FACTORS], second: [u8; FACTORS]) -> bool
    requires { Ready n g first × Ready n g second }
    ensures { Tells result (LessAberration n (n - g) (plan_of n (n - g) second) (plan_of n (n - g) first))
        (LessAberration n (n - g) (plan_of n (n - g) second) (plan_of n (n - g) first) → ⊥) }
{
    let p = measures::pattern(n, g, first);
    let q = measures::pattern(n, g, second);
    patterns::better(n, q, p)
}

// The plans of both lists without signs, admitted, or the lower refusal.
fn admit_both(
    n: usize,
    g: usize,
    first: &[u16],
    second: &[u16],
) -> Result<(AcceptedPlan, AcceptedPlan), Refusal>
    ensures lowest { Lowest (either (of_words n g first.now 0).faults (of_words n g second.now 0).faults) (refusal_of result) }
    ensures plans { IfOk result (λ p. Admission n g (of_words n g first.now 0) (admitted_of (Ok p.0))
        × Admission n g (of_words n g second.now 0) (admitted_of (Ok p.1))) }
{
    let one = Words {
        list: first,
        signs: 0,
    };
    let two = Words {
        list: second,
        signs: 0,
    };
    both(one.admit(n, g), two.admit(n, g))
}

// Whether both lists are accepted, or else the refusal.
pub fn aberration_refusal(n: usize, g: usize, first: &[u16], second: &[u16]) -> Result<(), Refusal>
    ensures { Lowest (either (of_words n g first.now 0).faults (of_words n g second.now 0).faults) (refusal_of result) }
{
    admit_both(n, g, first, second)?;
    Ok(())
}

// Which list's plan has less aberration: the first, also if neither has.
pub fn choice(n: usize, g: usize, first: &[u16], second: &[u16]) -> Result<Choice, Refusal>
    ensures lowest { Lowest (either (of_words n g first.now 0).faults (of_words n g second.now 0).faults) (refusal_of result) }
    ensures less { ChoosesLess n (n - g) (of_words n g first.now 0) (of_words n g second.now 0) (chosen_of result) }
{
    let (one, two) = admit_both(n, g, first, second)?;
    if second_less(n, g, one.columns, two.columns) {
        return Ok(Choice::Second);
    }
    Ok(Choice::First)
}

// The list whose plan has less aberration, the first if neither has; the empty start of the first if one is refused.
pub fn less_aberration<'a>(n: usize, g: usize, first: &'a [u16], second: &'a [u16]) -> &'a [u16]
    ensures { HandsBackLess n (n - g) (of_words n g first.now 0) (of_words n g second.now 0) first.entry second.entry result }
{
    match choice(n, g, first, second) {
        Ok(Choice::First) => first,
        Ok(Choice::Second) => second,
        Err(_) => &first[..0],
    }
}
