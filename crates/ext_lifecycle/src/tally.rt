//! The combined outcomes of a node's calls.
ghost use Rattle.std.specs.Prelude.{◌≡◌, ◌||◌, ◌++◌, ◌∷◌, ◌+◌, ◌<◌, ◌^◌, ℕ, [], List, Option};
ghost use Rattle.ext_model.specs.declared.look.Fault.{Fault};
ghost use Rattle.ext_lifecycle.specs.declared.outcome.Outcome.{Outcome};
ghost use Rattle.ext_lifecycle.specs.Endings.{aborted, all_successful, failed};
ghost use Rattle.ext_lifecycle.specs.Lifecycle.{IsRoomy, computed_in, endings_of, found_in, tally_of};
ghost use Rattle.ext_lifecycle.specs.InnerTotals.{total_in, with_ending};
ghost use Rattle.ext_lifecycle.specs.Results.{result_of, as_result};
ghost use Rattle.ext_model.specs.Closed.{closed_of};
ghost use Rattle.ext_model.specs.Lacks.{fault_tells_lack};

use crate::{NodeResult, Outcome, Status, Verdict};
use ext_model::{Closed, ContextNo, Fault};

/// The combined outcomes of a node's calls.
#[derive(Debug, Drop, PartialEq, Eq)]
pub struct Tally {
    /// Failed if a call failed, else aborted if one aborted, else successful.
    pub status: Status,
    /// The first fault of a failed node, the first abort of an aborted one.
    pub fault: Option<Fault>,
    /// How many faults and aborts came besides `fault`.
    pub more: u64,
    /// How many values the calls computed.
    pub computed: u64,
    /// How many values the calls found instead of computing one.
    pub found: u64,
    /// Whether a fault or abort tells of a lack (`Fault::tells_lack` of ext_model).
    pub lacked: bool,
}

impl Tally {
    /// The tally before the first call.
    pub fn new() -> Tally
        ensures tally { result ≡ tally_of [] }
        ensures room { (n : ℕ) → n < 2 ^ 32 → IsRoomy n result }
    {
        Tally {
            status: Status::Successful,
            fault: None,
            more: 0,
            computed: 0,
            found: 0,
            lacked: false,
        }
    }

    /// Tests whether all calls so far were successful.
    pub fn is_successful(&self) -> bool
        ensures { (outcomes : List Outcome) → self.now ≡ tally_of outcomes → result ≡ all_successful (endings_of outcomes) }
    {
        match self.status {
            Status::Successful => true,
            Status::Aborted => false,
            Status::Failed => false,
            Status::Skipped => false,
        }
    }

    /// Adds the outcome of a further call.
    pub fn add(&mut self, outcome: Outcome)
        requires room { IsRoomy 1 self.old }
        ensures tally { (outcomes : List Outcome) → self.old ≡ tally_of outcomes → self.new ≡ tally_of (outcomes ++ outcome ∷ []) }
        ensures room { (n : ℕ) → IsRoomy (n + 1) self.old → IsRoomy n self.new }
    {
        let Outcome {
            verdict,
            computed,
            found,
        } = outcome;
        self.computed += u64::from(computed);
        self.found += u64::from(found);
        match verdict {
            Verdict::Successful => {}
            Verdict::Aborted(fault) => self.add_abort(fault),
            Verdict::Failed(fault) => self.add_fault(fault),
        }
    }

    /// The result of the node, from the outcomes of its calls and then the closes of its context.
    pub fn result(self, node: ContextNo, is_test: bool, closes: Closed) -> NodeResult
        requires room { IsRoomy 1 self }
        ensures { (outcomes : List Outcome) (closed : List (Option Fault)) → self ≡ tally_of outcomes → closes ≡ closed_of closed
            → as_result result ≡ result_of node is_test (endings_of outcomes) (computed_in outcomes) (found_in outcomes) closed }
    {
        let Closed {
            closed,
            first_fault,
            more_faults,
            lacked,
        } = closes;
        let mut tally = self;
        let lacked = tally.lacked | lacked;
        let mut close_faults = 0;
        if let Some(fault) = first_fault {
            close_faults = 1 + u64::from(more_faults);
            tally.add_fault(fault);
            tally.more += u64::from(more_faults);
        }
        NodeResult {
            node,
            is_test,
            status: tally.status,
            fault: tally.fault,
            more: tally.more,
            computed: tally.computed,
            found: tally.found,
            closed: u64::from(closed),
            close_faults,
            lacked,
        }
    }

    fn add_abort(&mut self, fault: Fault)
        requires { self.old.more < 18446744073709551615 }
        ensures total { total_in self.new ≡ with_ending (total_in self.old) (aborted fault) }
        ensures computed { self.new.computed ≡ self.old.computed }
        ensures found { self.new.found ≡ self.old.found }
        ensures lacked { self.new.lacked ≡ (self.old.lacked || fault_tells_lack fault) }
    {
        self.lacked |= fault.tells_lack();
        match self.status {
            Status::Successful => {
                self.status = Status::Aborted;
                self.fault = Some(fault);
            }
            Status::Aborted | Status::Failed | Status::Skipped => self.more += 1,
        }
    }

    fn add_fault(&mut self, fault: Fault)
        requires { self.old.more < 18446744073709551615 }
        ensures total { total_in self.new ≡ with_ending (total_in self.old) (failed fault) }
        ensures computed { self.new.computed ≡ self.old.computed }
        ensures found { self.new.found ≡ self.old.found }
        ensures lacked { self.new.lacked ≡ (self.old.lacked || fault_tells_lack fault) }
    {
        self.lacked |= fault.tells_lack();
        match self.status {
            Status::Successful => {
                self.status = Status::Failed;
                self.fault = Some(fault);
            }
            Status::Aborted => {
                self.status = Status::Failed;
                self.fault = Some(fault);
                self.more += 1;
            }
            Status::Failed | Status::Skipped => self.more += 1,
        }
    }
}
