//! The notes of a plan that is read and not run.
ghost use Rattle.std.specs.Prelude.{◌≡◌, ◌≢◌, ◌≤◌, ◌+◌, ℕ, List, false, length, IfOk, IfErr, IfSome};
ghost use Rattle.std.specs.Io.KnownBytes.{Consumes, Appends};
ghost use Rattle.ext_plan_reading.specs.Plans.{plan_view};
ghost use Rattle.ext_plan_reading.specs.ReadPlans.{IsRunnablePlan};
ghost use Rattle.ext_run.specs.Checks.{RefusedUnrun};
ghost use Rattle.ext_run.specs.Lints.{IsNotesOf, TellsNotes};
ghost use Rattle.ext_run.specs.Reports.{input_limit, plan_of_bytes, plan_of_input};

use crate::checks::printed;
use crate::fault::RunFault;
use crate::input::read_input;
use crate::list_form::ListForm;
use crate::options::Summary;
use crate::reading::plan_of;
use crate::runs::write_whole;
use ext_lint::{PlanNotes, lint};
use ext_model::Size;
use ext_plan_reading::Plan;
use std::alloc::{AllocError, Global};
use std::io::{Read, Write};

/// Reads a plan of at most this size and writes what of it is most likely a mistake, without running
/// it (`ext_lint::lint`). Each of the first 20 notes has a line, and `and more` follows if there are
/// others. `nothing to note` stands alone if there are none. As JSON one object tells the same. In the
/// summary, `failed` tells whether there is one.
///
/// It reads like `run`, and is refused like `check`.
///
/// Takes memory for the input, the plan, its steps and the lines, and gives all of it back. It waits
/// only for the reader and the writer.
#[tactic(auto, unfolding(crate::specs::Reports::plan_of_input))]
pub fn check_lint<I: Read, W: Write>(
    alloc: Global,
    reader: &mut I,
    writer: &mut W,
    size: Size,
    form: ListForm,
) -> Result<Summary, RunFault>
    ensures written { IfOk result (λ summary. IfSome (I.remaining reader.old) (λ input. (text : List ℕ)
        × IsNotesOf form (plan_of_input size input) text summary.failed
        × Appends (W.contents writer.old) (W.contents writer.new) text)) }
    ensures unrun { IfOk result (λ summary. summary.lacked ≡ false) }
    ensures refused { IfErr result (λ fault. IfSome (I.remaining reader.old)
        (λ input. RefusedUnrun fault (plan_of_input size input))) }
    ensures unwritten { IfErr result (λ fault. fault ≢ RunFault.Write → writer.new ≡ writer.old) }
    ensures taken { (bytes : List ℕ) × (length bytes ≤ input_limit size + 1)
        × Consumes (I.remaining reader.old) (I.remaining reader.new) bytes }
{
    let input = read_input(alloc, reader, size)?;
    let (text, failed) = notes_of(alloc, input.as_slice(), size, form)?;
    write_whole(writer, text.as_slice())?;
    Ok(Summary {
        failed,
        lacked: false,
    })
}

/// The text of the notes of the plan in these bytes, and whether there is one.
fn notes_of(
    alloc: Global,
    input: &[u8],
    size: Size,
    form: ListForm,
) -> Result<(Vec<u8>, bool), RunFault>
    ensures notes { IfOk result (λ notes. IsNotesOf form (plan_of_bytes size input.now) notes.0.items notes.1) }
    ensures refused { IfErr result (λ fault. RefusedUnrun fault (plan_of_bytes size input.now)) }
    ensures unwritten { IfErr result (λ fault. fault ≢ RunFault.Write) }
{
    let plan = match plan_of(alloc, input, size) {
        Ok(plan) => plan,
        Err(fault) => return Err(RunFault::Plan(fault)),
    };
    Ok(notes_in(alloc, &plan, form)?)
}

/// The text of a plan's notes, and whether there is one.
fn notes_in(alloc: Global, plan: &Plan, form: ListForm) -> Result<(Vec<u8>, bool), AllocError>
    requires { IsRunnablePlan (plan_view plan.now) }
    ensures { IfOk result (λ notes. TellsNotes form (plan_view plan.now) notes.0.items notes.1) }
{
    let PlanNotes { text, json, found } = lint(alloc, plan)?;
    match form {
        ListForm::Lines => Ok((text.into_bytes(), found)),
        ListForm::Json => Ok((printed(alloc, json)?, found)),
    }
}
