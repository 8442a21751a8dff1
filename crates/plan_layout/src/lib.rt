// A plan in bytes and as a record: where plan i of several stands, how it is read, put and compared; how a record is made and compared. How many bytes
// a plan takes, where its mask stands and which fields a record has is known here, and in no other crate that takes plans one after another.
#![tactic(auto)]

ghost use Rattle.std.specs.Prelude.{◌≡◌, ℕ, ◌≤◌, ◌<◌, ◌^◌, length, get_or, IfOk, Ok};
ghost use Rattle.gf2.specs.Answers.{Tells};
ghost use Rattle.regular.specs.Answers.{refusal_of};
ghost use Rattle.regular.specs.Designs.{design_with, design_of, blank};
ghost use Rattle.regular.specs.PlanBytes.{plan_bytes, plan_start, plan_at, HasPlan, plan_count, mask_in};
ghost use Rattle.regular.specs.Smallest.{Equal};
ghost use Rattle.lent.specs.Lending.{Lending};
ghost use Rattle.lent.specs.Lends.{Lends};
ghost use Rattle.plan_layout.specs.Put.{MaskPut, PlanPut};

use regular::{Design, FACTORS, Refusal};

// How many bytes a plan takes.
pub fn plan_bytes(n: usize) -> usize
    requires { plan_bytes n < 2 ^ 64 }
    ensures { result ≡ plan_bytes n }
{
    n + 2
}

// The place where plan i starts.
pub fn plan_start(n: usize, i: usize) -> usize
    requires { (plan_bytes n < 2 ^ 64) × (plan_start n i < 2 ^ 64) }
    ensures { result ≡ plan_start n i }
{
    i * plan_bytes(n)
}

// How many plans so many bytes hold.
pub fn plan_count(n: usize, len: usize) -> usize
    ensures { result ≡ plan_count n len }
{
    if len <= n {
        return 0;
    }
    if len - n < 2 {
        return 0;
    }
    len / plan_bytes(n)
}

// Whether so many bytes are whole plans.
pub fn whole_plans(n: usize, len: usize) -> bool
    ensures { Tells result (len ≡ plan_start n (plan_count n len)) ((count : ℕ) → len ≡ plan_start n count → ⊥) }
{
    let count = plan_count(n, len);
    if count == 0 {
        return len == 0;
    }
    plan_start(n, count) == len
}

// Plan i of the bytes.
pub fn plan_at(n: usize, plans: &[u8], i: usize) -> &[u8]
    requires { HasPlan n plans.now i }
    ensures { result.now ≡ plan_at n plans.now i }
{
    let start = plan_start(n, i);
    let end = start + plan_bytes(n);
    &plans[start..end]
}

// The columns of plan i of the bytes, zeros after them.
pub fn columns_at(n: usize, plans: &[u8], i: usize) -> [u8; FACTORS]
    requires { (n ≤ 16) × HasPlan n plans.now i }
    ensures { Equal n result (plan_at n plans.now i) × ((f : ℕ) → n ≤ f → get_or result f 0 ≡ 0) }
{
    let start = plan_start(n, i);
    let mut columns = [0u8; FACTORS];
    columns[..n].copy_from_slice(&plans[start..start + n]);
    columns
}

// The switch mask of a plan, after its columns, low byte first.
pub fn mask_in(n: usize, plan: &[u8]) -> u16
    requires { length plan.now ≡ plan_bytes n }
    ensures { result ≡ mask_in n plan.now }
{
    u16::from_le_bytes([plan[n], plan[n + 1]])
}

// Whether plan i of the bytes has the columns c and no switches.
pub fn has_columns(n: usize, plans: &[u8], i: usize, c: [u8; FACTORS]) -> bool
    requires { (n ≤ 16) × HasPlan n plans.now i }
    ensures { Tells result (Equal n (plan_at n plans.now i) c × (mask_in n (plan_at n plans.now i) ≡ 0))
        (Equal n (plan_at n plans.now i) c × (mask_in n (plan_at n plans.now i) ≡ 0) → ⊥) }
{
    let plan = plan_at(n, plans, i);
    plan[..n] == c[..n] && mask_in(n, plan) == 0
}

// The switch mask of a plan, after its columns.
pub fn put_mask(n: usize, mask: u16, plan: &mut [u8])
    requires { length plan.old ≡ plan_bytes n }
    ensures { MaskPut n mask plan.old plan.new }
{
    let [low, high] = mask.to_le_bytes();
    plan[n] = low;
    plan[n + 1] = high;
}

// The plan of the columns and the mask, as plan i of the bytes.
pub fn put_plan(n: usize, columns: [u8; FACTORS], mask: u16, i: usize, plans: &mut [u8])
    requires { (n ≤ 16) × HasPlan n plans.old i }
    ensures { PlanPut n columns mask i plans.old plans.new }
{
    let start = plan_start(n, i);
    lent::put_first(n, columns, start, plans);
    let [low, high] = mask.to_le_bytes();
    plans[start + n] = low;
    plans[start + n + 1] = high;
}

// The plan of the columns and the mask as a result, in `out`.
pub fn lend_plan(n: usize, columns: [u8; FACTORS], mask: u16, out: &mut [u8]) -> Result<(), Refusal>
    requires { n ≤ 16 }
    ensures { Lends 0 (plan_bytes n) (λ zs. Equal n zs columns × (mask_in n zs ≡ mask)) out.old out.new (refusal_of result) }
{
    if out.len() < plan_bytes(n) {
        return Err(Refusal::Places);
    }
    put_plan(n, columns, mask, 0, out);
    Ok(())
}

// The value or the refusal of a call's other arguments, or else the refusal of a lent list that has no room for a plan.
pub fn lending_plan<T: Copy>(
    other: Result<T, Refusal>,
    n: usize,
    places: usize,
) -> Result<T, Refusal>
    requires { refusal_of other ≡ 0 → n ≤ 16 }
    ensures number { Lending (refusal_of other) (plan_bytes n) places (refusal_of result) }
    ensures value { IfOk result (λ x. other ≡ Ok x) }
{
    let value = other?;
    lent::lending(Ok(value), plan_bytes(n), places)
}

// The record of n factors, m basics, sixteen columns and a mask.
pub fn design_with(n: usize, m: usize, columns: [u8; FACTORS], mask: u16) -> Design
    requires { (n < 256) × (m < 256) }
    ensures { result ≡ design_with n m columns mask }
{
    Design {
        factors: n as u8,
        basics: m as u8,
        columns,
        mask,
    }
}

// The same without switches.
pub fn design(n: usize, m: usize, columns: [u8; FACTORS]) -> Design
    requires { (n < 256) × (m < 256) }
    ensures { result ≡ design_of n m columns }
{
    design_with(n, m, columns, 0)
}

// The record of a refused call.
pub fn blank_design() -> Design
    ensures { result ≡ blank }
{
    design(0, 0, [0u8; FACTORS])
}

// Whether two records are equal.
pub fn same_design(c: Design, d: Design) -> bool
    ensures { Tells result (c ≡ d) (c ≡ d → ⊥) }
{
    c == d
}
