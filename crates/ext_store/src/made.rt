//! What an author makes of a compute's answer: the value, or the fault by which a test fails.
ghost use Rattle.std.specs.Prelude.{◌≡◌, IfErr, IfOk};
ghost use Rattle.ext_store.specs.FaultTexts.{IsCopyOf, IsToldBy};
ghost use Rattle.ext_store.specs.FoundOrMade.{IsFaultOf, IsKeptFault, IsMadeOf, IsShown, IsUnshown};
ghost use Rattle.ext_store.specs.LaneCalls.{Grows};
ghost use Rattle.ext_store.specs.Stores.{IsLaneOf};

use crate::{Compute, Lane, Store, StoreValue};
use ext_model::Fault;
use std::alloc::Global;
use std::fmt::Display;

/// A value that a compute has found or made.
#[derive(Drop)]
pub struct Made<'s, V> {
    /// The value's number.
    pub number: u32,
    /// Whether the compute made the value. Otherwise it found it.
    pub is_new: bool,
    /// The value, which stays in the store.
    pub value: &'s V,
}

impl<V: StoreValue + Drop> Store<V> {
    /// Answers the value that a compute of this lane found or made, as `show` gives it, and the
    /// lane knows it from then on. Otherwise the fault by which a test may fail:
    ///
    /// - the factory's fault for `Failed` and `FaultUnkept`, as it came
    /// - the kept fault for `FaultKept` and `FaultStands`, copied, as `show_fault` gives it, and
    ///   the lane knows it from then on
    /// - the text of the cause for `Unkept`, and of the refusal for `Refused`
    /// - "the value is not shown", or "the kept fault is not shown", where this thread finds none
    ///   under the number; never for a compute that this lane has just made
    ///
    /// `Fault::Memory` stands in place of a text or a copy where there is no memory for it. It
    /// makes no step on the cells. A value that was not kept, and an unused factory, are dropped.
    /// Takes memory for the text of a fault alone.
    ///
    /// JUnit's `getOrComputeIfAbsent` answers the value itself, or throws: Javadoc
    /// `ExtensionContext.Store`. The numbers and the texts are own rules.
    #[tactic(auto, unfolding(crate::specs::LaneCalls::Frame))]
    pub fn found_or_made<'s, F: Drop>(
        &'s self,
        answer: Compute<V, F>,
        lane: &mut Lane<V>,
    ) -> Result<Made<'s, V>, Fault>
        requires lane { IsLaneOf self.now.id lane.old }
        ensures value { IfOk result (λ made. IsMadeOf lane.old lane.new answer made.number made.is_new made.value.now) }
        ensures fault { IfErr result (IsFaultOf lane.old lane.new answer) }
        ensures still { (lane.new.cells ≡ lane.old.cells) × (lane.new.keys ≡ lane.old.keys) }
        ensures grows { Grows self.now.id lane.old lane.new }
    {
        match answer {
            Compute::Computed { number } => self.shown(lane, number, true),
            Compute::Found { number, .. } => self.shown(lane, number, false),
            Compute::Failed(fault) => Err(fault),
            Compute::FaultKept { number } => Err(self.shown_fault(lane, number)),
            Compute::FaultUnkept { fault, .. } => Err(fault),
            Compute::FaultStands { number, .. } => Err(self.shown_fault(lane, number)),
            Compute::Unkept { value: _, cause } => Err(fault_of(self.alloc, cause)),
            Compute::Refused { refusal, unused: _ } => Err(fault_of(self.alloc, refusal)),
        }
    }

    // The number's value, or why there is none.
    #[tactic(auto, unfolding(crate::specs::LaneCalls::Frame))]
    fn shown<'s>(
        &'s self,
        lane: &mut Lane<V>,
        number: u32,
        is_new: bool,
    ) -> Result<Made<'s, V>, Fault>
        requires lane { IsLaneOf self.now.id lane.old }
        ensures value { IfOk result (λ made. IsShown lane.old lane.new number is_new made.number made.is_new made.value.now) }
        ensures fault { IfErr result (IsUnshown lane.old lane.new number) }
        ensures still { (lane.new.cells ≡ lane.old.cells) × (lane.new.keys ≡ lane.old.keys) }
        ensures grows { Grows self.now.id lane.old lane.new }
    {
        match self.show(lane, number) {
            Some(value) => Ok(Made {
                number,
                is_new,
                value,
            }),
            None => Err(fault_of(self.alloc, "the value is not shown")),
        }
    }

    // A copy of the number's kept fault, or why there is none.
    #[tactic(auto, unfolding(crate::specs::LaneCalls::Frame))]
    fn shown_fault(&self, lane: &mut Lane<V>, number: u32) -> Fault
        requires lane { IsLaneOf self.now.id lane.old }
        ensures fault { IsKeptFault lane.old lane.new number result }
        ensures still { (lane.new.cells ≡ lane.old.cells) × (lane.new.keys ≡ lane.old.keys) }
        ensures grows { Grows self.now.id lane.old lane.new }
    {
        match self.show_fault(lane, number) {
            Some(kept) => copy_of(kept),
            None => fault_of(self.alloc, "the kept fault is not shown"),
        }
    }
}

/// The fault that has what is printed as its text, or `Fault::Memory` where there is no memory for
/// the text.
pub fn fault_of<D: Display + Drop>(alloc: Global, why: D) -> Fault
    ensures { IsToldBy (D.output why) result }
{
    match String::format(alloc, why) {
        Ok(text) => Fault::Text(text),
        Err(_) => Fault::Memory,
    }
}

// A copy of the fault, or `Fault::Memory` where there is no memory for its text.
fn copy_of(fault: &Fault) -> Fault
    ensures { IsCopyOf fault.now result }
{
    match fault {
        Fault::Text(text) => match text.clone() {
            Ok(copy) => Fault::Text(copy),
            Err(_) => Fault::Memory,
        },
        Fault::Memory => Fault::Memory,
    }
}
