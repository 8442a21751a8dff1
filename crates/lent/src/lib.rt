// Results go into lent lists: a list of too few places is refused, else the first places are filled and the places past them are untouched.
#![tactic(auto)]

ghost use Rattle.std.specs.Prelude.{◌≡◌, ◌+◌, ◌++◌, ◌≤◌, ◌<◌, length, drop, IfOk, Ok};
ghost use Rattle.std.proofs.Math.Seq.{paste};
ghost use Rattle.regular.specs.Answers.{refusal_of};
ghost use Rattle.regular.specs.Smallest.{Equal};
ghost use Rattle.lent.specs.Copied.{Starts};
ghost use Rattle.lent.specs.Lending.{Lending};
ghost use Rattle.lent.specs.Lends.{Lends};

use regular::{FACTORS, Refusal};

// The items of `items`, at the first places of `out`, if it has so many.
fn lend<T: Copy>(items: &[T], out: &mut [T]) -> Result<(), Refusal>
    ensures short { length out.old < length items.now → (refusal_of result ≡ 8) × (out.new ≡ out.old) }
    ensures filled { length items.now ≤ length out.old
        → (refusal_of result ≡ 0) × (out.new ≡ items.now ++ drop (length items.now) out.old) }
{
    if out.len() < items.len() {
        return Err(Refusal::Places);
    }
    out[..items.len()].copy_from_slice(items);
    Ok(())
}

// The numbers of `numbers` as a result, in `out`.
pub fn lend_numbers(numbers: &[u16], out: &mut [u16]) -> Result<(), Refusal>
    ensures { Lends 0 (length numbers.now) (Starts numbers.now) out.old out.new (refusal_of result) }
{
    lend(numbers, out)
}

// The first n bytes of an array as a result, in `out`.
pub fn lend_first(n: usize, bytes: [u8; FACTORS], out: &mut [u8]) -> Result<(), Refusal>
    requires { n ≤ 16 }
    ensures { Lends 0 n (λ zs. Equal n zs bytes) out.old out.new (refusal_of result) }
{
    lend(&bytes[..n], out)
}

// The first n bytes of an array, at the places of `out` from `at` on, where there is room.
pub fn put_first(n: usize, bytes: [u8; FACTORS], at: usize, out: &mut [u8])
    requires { (n ≤ 16) × (at + n ≤ length out.old) }
    ensures { out.new ≡ paste out.old at bytes n }
{
    out[at..at + n].copy_from_slice(&bytes[..n]);
}

// The value or the refusal of a call's other arguments, or else the refusal of a lent list of fewer than n places, for the calls that judge it before they
// fill it.
pub fn lending<T: Copy>(other: Result<T, Refusal>, n: usize, places: usize) -> Result<T, Refusal>
    ensures number { Lending (refusal_of other) n places (refusal_of result) }
    ensures value { IfOk result (λ x. other ≡ Ok x) }
{
    let value = other?;
    if places < n {
        return Err(Refusal::Places);
    }
    Ok(value)
}
