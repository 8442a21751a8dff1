// Lists of plans, as design records or as bytes: the lowest number that the sizes or any plan of the list is refused by, a resolution r being
// wanted, and plans bare of switches or not. Where no resolution is wanted, r is 3, which adds nothing (`three_records`, `three_plans`).
#![tactic(auto)]

ghost use Rattle.std.specs.Prelude.{◌≡◌, ◌-◌, length};
ghost use Rattle.regular.specs.Answers.{refusal_of};
ghost use Rattle.regular.specs.Columns.{plan_of};
ghost use Rattle.regular.specs.Refusals.{WantedFault, SwitchFault, either, Lowest, size_faults};
ghost use Rattle.regular.specs.RefusalLaws.{Lower};
ghost use Rattle.regular.specs.PlanBytes.{plan_bytes, plan_count};
ghost use Rattle.regular.specs.PlanLists.{wanted_records_faults, wanted_plans_faults};
ghost use Rattle.admission.specs.Admission.{Ready};
ghost use Rattle.plan_lists.specs.Judged.{wanted, bare_wanted, design_wanted, columns_wanted, AllJudged};

use admission::{Bare, Bytes, Form, both, check_bounds};
use plan_layout::{mask_in, plan_at, plan_count, whole_plans};
use regular::{AcceptedPlan, Design, Refusal};

// An admitted plan where the resolution r is wanted: no word may be shorter than r. An admitted plan has none shorter than 3.
fn check_resolution(n: usize, g: usize, r: usize, plan: AcceptedPlan) -> Result<(), Refusal>
    requires { Ready n g plan.columns }
    ensures { Lowest (WantedFault n r (plan_of n (n - g) plan.columns)) (refusal_of result) }
{
    if r <= 3 {
        return Ok(());
    }
    let counts = measures::pattern(n, g, plan.columns);
    if patterns::word_below(n, r, counts) {
        return Err(Refusal::ShortWord);
    }
    Ok(())
}

// A plan where the resolution r is wanted.
fn check_wanted<P: Form>(n: usize, g: usize, r: usize, plan: P) -> Result<(), Refusal>
    ensures { Lowest (wanted n r (P.given plan n g)) (refusal_of result) }
{
    let admitted = plan.admit(n, g)?;
    check_resolution(n, g, r, admitted)
}

// A mask must be 0 where plans must be bare of switches.
fn check_switches(bare: bool, mask: u16) -> Result<(), Refusal>
    ensures { Lowest (SwitchFault bare mask) (refusal_of result) }
{
    if bare && mask != 0 {
        return Err(Refusal::Range);
    }
    Ok(())
}

// The lower of two refusals.
fn lower(a: Result<(), Refusal>, b: Result<(), Refusal>) -> Result<(), Refusal>
    ensures { Lower (refusal_of a) (refusal_of b) (refusal_of result) }
{
    both(a, b)?;
    Ok(())
}

// A plan and its mask.
fn check_plan<P: Form>(
    n: usize,
    g: usize,
    r: usize,
    bare: bool,
    plan: P,
    mask: u16,
) -> Result<(), Refusal>
    ensures { Lowest (either (wanted n r (P.given plan n g)) (SwitchFault bare mask)) (refusal_of result) }
{
    lower(check_wanted(n, g, r, plan), check_switches(bare, mask))
}

// A design record.
fn check_record(n: usize, g: usize, r: usize, bare: bool, design: Design) -> Result<(), Refusal>
    ensures { Lowest (design_wanted n g r bare design) (refusal_of result) }
{
    check_plan(n, g, r, bare, design, design.mask)
}

// The bytes of a plan, of which there are as many as a plan takes.
fn check_bytes(n: usize, g: usize, r: usize, bare: bool, plan: &[u8]) -> Result<(), Refusal>
    requires { length plan.now ≡ plan_bytes n }
    ensures { Lowest (columns_wanted n g r bare plan.now) (refusal_of result) }
{
    check_plan(n, g, r, bare, Bytes(plan), mask_in(n, plan))
}

// A list of columns alone.
pub fn check_bare(n: usize, g: usize, r: usize, list: &[u8]) -> Result<(), Refusal>
    ensures { Lowest (bare_wanted n g r list.now) (refusal_of result) }
{
    check_wanted(n, g, r, Bare(list))
}

// The sizes and every record of a list.
pub fn check_records(
    n: usize,
    g: usize,
    r: usize,
    bare: bool,
    list: &[Design],
) -> Result<(), Refusal>
    ensures { Lowest (wanted_records_faults n g r bare list.now) (refusal_of result) }
{
    let mut lowest = check_bounds(n, g, r);
    for design in list {
        let of_record = check_record(n, g, r, bare, *design);
        lowest = lower(lowest, of_record);
    }
    lowest
}

// Every plan of a list of bytes, the sizes being in bounds.
fn check_each(n: usize, g: usize, r: usize, bare: bool, plans: &[u8]) -> Result<(), Refusal>
    requires { Lowest (size_faults n g r) 0 }
    ensures { AllJudged n g r bare plans.now (plan_count n (length plans.now)) (refusal_of result) }
{
    let mut lowest = Ok(());
    for i in 0..plan_count(n, plans.len()) {
        let plan = plan_at(n, plans, i);
        let of_plan = check_bytes(n, g, r, bare, plan);
        lowest = lower(lowest, of_plan);
    }
    lowest
}

// The sizes, the length of a list of bytes and every plan of it.
pub fn check_plans(n: usize, g: usize, r: usize, bare: bool, plans: &[u8]) -> Result<(), Refusal>
    ensures { Lowest (wanted_plans_faults n g r bare plans.now) (refusal_of result) }
{
    check_bounds(n, g, r)?;
    if !whole_plans(n, plans.len()) {
        return Err(Refusal::Count);
    }
    check_each(n, g, r, bare, plans)
}
