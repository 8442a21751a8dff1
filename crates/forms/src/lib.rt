// Words, columns and run tables turned into each other.
#![tactic(auto)]

ghost use Rattle.std.specs.Prelude.{◌≡◌, ◌-◌, ◌^◌, replicate};
ghost use Rattle.std.specs.Result.{result_unwrap_or};
ghost use Rattle.regular.specs.Answers.{refusal_of, signs_answer};
ghost use Rattle.regular.specs.Sizes.{Size};
ghost use Rattle.regular.specs.Columns.{ListedWith, RunTableWith, RunsOfPlan};
ghost use Rattle.regular.specs.Designs.{blank, design_with};
ghost use Rattle.regular.specs.PlanBytes.{mask_in};
ghost use Rattle.regular.specs.Given.{of_words, of_design, of_columns, GivesFor, FillsFor};
ghost use Rattle.regular.specs.Forms.{StandardDesign, StandardInto, WordsInto};
ghost use Rattle.signs.specs.Masks.{MaskOf};
ghost use Rattle.lent.specs.Lends.{Lends};

use admission::{Bytes, Form, Words};
use bits::power;
use regular::{AcceptedPlan, Design, FACTORS, RUNS, Refusal};

// The design record of an admitted plan, with its standard columns and its mask.
fn record_of(n: usize, g: usize, plan: AcceptedPlan) -> Design
    requires { Size n g }
    ensures mask { MaskOf n plan.columns plan.run result.mask }
    ensures record { result ≡ design_with n (n - g) plan.columns result.mask }
{
    let mask = column_forms::mask_of(n, plan.columns, plan.run);
    plan_layout::design_with(n, n - g, plan.columns, mask)
}

// To columns: the design record of a plan in any form.
pub fn design_of<P: Form>(n: usize, g: usize, plan: P) -> Result<Design, Refusal>
    ensures { StandardDesign n g (P.given plan n g) (refusal_of result) (result_unwrap_or result blank) }
{
    Ok(record_of(n, g, plan.admit(n, g)?))
}

// The same, the columns and the mask going into a lent list.
pub fn columns_of<P: Form>(n: usize, g: usize, plan: P, out: &mut [u8]) -> Result<(), Refusal>
    ensures { StandardInto n g (P.given plan n g) out.old out.new (refusal_of result) }
{
    let design = record_of(n, g, plan.admit(n, g)?);
    plan_layout::lend_plan(n, design.columns, design.mask, out)
}

// To words: the reduced words of a plan, in a lent list, and their signs.
pub fn words_of<P: Form>(n: usize, g: usize, plan: P, out: &mut [u16]) -> Result<u16, Refusal>
    ensures { WordsInto n g (P.given plan n g) out.old out.new (signs_answer result) }
{
    let admitted = plan.admit(n, g)?;
    let words = generators::generators(n, admitted.columns);
    lent::lend_numbers(&words[..g], out)?;
    Ok(sign_forms::signs_of(g, words, admitted.run))
}

// To run table: run j of a design record at place j.
pub fn runs_of_design(n: usize, g: usize, design: Design) -> Result<[u16; RUNS], Refusal>
    ensures { GivesFor (of_design n g design) (λ _. RunTableWith n (n - g) design.columns design.mask) (replicate 128 0)
        (refusal_of result) (result_unwrap_or result (replicate 128 0)) }
{
    design.admit(n, g)?;
    Ok(column_forms::switched_table(n, n - g, design.columns, design.mask))
}

// Words and signs to run table: that of their standard columns and their mask.
pub fn runs_of_words(n: usize, g: usize, words: Words<'_>) -> Result<[u16; RUNS], Refusal>
    ensures { GivesFor (of_words n g words.entry.list.now words.entry.signs) (RunsOfPlan n (n - g) RunTableWith) (replicate 128 0)
        (refusal_of result) (result_unwrap_or result (replicate 128 0)) }
{
    let standard = words.admit(n, g)?;
    Ok(column_forms::switched_table(n, n - g, standard.columns, standard.run))
}

// The runs of columns and a mask, in a lent list.
fn lend_runs(
    n: usize,
    g: usize,
    columns: [u8; FACTORS],
    mask: u16,
    out: &mut [u16],
) -> Result<(), Refusal>
    requires { Size n g }
    ensures { Lends 0 (2 ^ (n - g)) (ListedWith n (n - g) columns mask) out.old out.new (refusal_of result) }
{
    let m = n - g;
    let runs = column_forms::switched_table(n, m, columns, mask);
    let end = power(m);
    lent::lend_numbers(&runs[..end], out)
}

// The runs of a plan in bytes, in a lent list.
pub fn list_runs_of_columns(n: usize, g: usize, plan: &[u8], out: &mut [u16]) -> Result<(), Refusal>
    ensures { FillsFor (of_columns n g plan.now) (2 ^ (n - g))
        (λ _. ListedWith n (n - g) plan.now (mask_in n plan.now)) out.old out.new (refusal_of result) }
{
    let admitted = Bytes(plan).admit(n, g)?;
    let columns = plan_layout::columns_at(n, plan, 0);
    lend_runs(n, g, columns, admitted.run, out)
}

// The runs of words and signs, in a lent list: those of their standard columns and their mask.
pub fn list_runs_of_words(
    n: usize,
    g: usize,
    words: Words<'_>,
    out: &mut [u16],
) -> Result<(), Refusal>
    ensures { FillsFor (of_words n g words.entry.list.now words.entry.signs) (2 ^ (n - g)) (RunsOfPlan n (n - g) ListedWith)
        out.old out.new (refusal_of result) }
{
    let admitted = words.admit(n, g)?;
    lend_runs(n, g, admitted.columns, admitted.run, out)
}
