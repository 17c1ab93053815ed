//! The failures and aborts of a run, repeated at its end.
ghost use Rattle.std.specs.Prelude.{◌≡◌, ◌++◌, [], false, string_bytes, IfOk, OnOk, OnErr};
ghost use Rattle.ext_lifecycle.specs.FaultTexts.{fault_text};
ghost use Rattle.ext_plan_reading.specs.Plans.{plan_view};
ghost use Rattle.ext_report.specs.Groups.{shown};
ghost use Rattle.ext_run.specs.FailureForms.{line_in, lost_as, lost_line, reported_as};
ghost use Rattle.ext_run.specs.Failures.{IsAdded, NotesFault, call_text, callback_of, failure_line, failures_of, origin_text};
ghost use Rattle.ext_run.specs.InnerFailures.{lines_of, nodes_of};
ghost use Rattle.ext_tree.specs.Trees.{id_at};
ghost use Rattle.ext_ids.specs.Grammar.{id_text};

use crate::failure_json::write_object;
use crate::list_form::ListForm;
use ext_ids::UniqueId;
use ext_lifecycle::{Call, FaultOrigin, Kind, NodeResult, RunListener};
use ext_model::{ContextNo, Fault};
use ext_plan_reading::Plan;
use ext_report::grouped;
use ext_tree::Tree;
use std::alloc::{AllocError, Global};
use std::sync::{Mutex, Wait};

/// A fault of a node that was reported to a listener.
#[derive(Debug, Drop)]
pub struct NodeFault {
    /// The index of the node in the plan.
    pub node: ContextNo,
    /// Where in the node it came.
    pub origin: FaultOrigin,
    /// The fault's text, `no memory` for `Fault::Memory`.
    pub text: String,
}

/// The faults that were reported so far, in that order.
#[derive(Debug, Drop)]
pub struct ReportedFaults {
    /// The faults for which there was memory.
    pub faults: Vec<NodeFault>,
    /// Whether a fault was lost for want of memory.
    pub lost: bool,
}

impl ReportedFaults {
    /// Makes an empty list of faults, with none lost.
    pub fn new(alloc: Global) -> ReportedFaults
        ensures none { result.faults.items ≡ [] }
        ensures lost { result.lost ≡ false }
    {
        ReportedFaults {
            faults: Vec::new(alloc),
            lost: false,
        }
    }

    /// Adds a fault of a node after the others. Takes memory for its text. If that is refused, the
    /// fault is lost and `lost` is set.
    pub fn note(&mut self, alloc: Global, node: ContextNo, origin: FaultOrigin, fault: &Fault)
        ensures { NotesFault self.old self.new node origin (fault_text fault.now) }
    {
        if self.push(alloc, node, origin, fault).is_err() {
            self.lost = true;
        }
    }

    /// Adds a fault of a node after the others, if there is memory.
    fn push(
        &mut self,
        alloc: Global,
        node: ContextNo,
        origin: FaultOrigin,
        fault: &Fault,
    ) -> Result<(), AllocError>
        ensures lost { self.new.lost ≡ self.old.lost }
        ensures added { OnOk result (IsAdded self.old.faults.items self.new.faults.items node origin (fault_text fault.now)) }
        ensures kept { OnErr result (self.new.faults.items ≡ self.old.faults.items) }
    {
        let text = text_of(alloc, fault)?;
        self.faults.push(NodeFault { node, origin, text })?;
        Ok(())
    }
}

fn text_of(alloc: Global, fault: &Fault) -> Result<String, AllocError>
    ensures { IfOk result (λ text. string_bytes text ≡ fault_text fault.now) }
{
    match fault {
        Fault::Text(text) => String::from_str(alloc, text.as_str()),
        Fault::Memory => String::from_str(alloc, "no memory"),
    }
}

/// A listener that keeps the faults of all nodes of a run. Tests show this and no contract does: a
/// contract cannot say what a lock guards.
///
/// Its lock is held only while a fault is added, and nothing is waited for meanwhile.
#[derive(Drop)]
pub struct Failures<'a, R> {
    rt: &'a R,
    alloc: Global,
    reported: Mutex<ReportedFaults>,
}

impl<'a, R: Wait> Failures<'a, R> {
    /// Makes a listener that has kept no fault.
    pub fn new(rt: &'a R, alloc: Global) -> Failures<'a, R> {
        Failures {
            rt,
            alloc,
            reported: Mutex::new(ReportedFaults::new(alloc)),
        }
    }

    /// Returns the faults that were reported to it.
    pub fn into_reported(self) -> ReportedFaults {
        self.reported.into_inner()
    }
}

impl<R: Wait> RunListener for Failures<'_, R> {
    /// Keeps the fault. It may wait for other threads that add one.
    fn faulted(&self, node: ContextNo, origin: FaultOrigin, fault: &Fault) {
        self.reported
            .lock(self.rt)
            .note(self.alloc, node, origin, fault);
    }

    /// Does nothing and returns at once.
    fn ended(&self, _ran: &NodeResult, _nodes: usize) {}
}

/// Returns the faults that were reported of a plan's nodes, each on a line. The nodes are in the
/// order of the plan, and the faults of each node in the order in which they were reported. A last
/// line says that faults were lost, if some were (`lost_line`).
///
/// A line is `ID: FAULT (ORIGIN)`. The origin is for instance `test, step 1` or `before_each 0 of
/// [engine:x], step 1`, or `close` for a value that could not be closed. As JSON it is an object
/// with the members `id`, `fault`, `call`, `index`, `of` and `step`, in this order. `call` is the
/// field of a callback, `test` or `close`. `index` is the callback's number among those of its
/// field, and `of` the id of the node that registered it: both are null if it is none. `step` is
/// null for `close`.
///
/// Takes memory for a list of each node's faults and for the text; fails with `AllocError` only if
/// that is refused.
pub fn failures_text(
    alloc: Global,
    plan: &Plan,
    reported: &ReportedFaults,
    form: ListForm,
) -> Result<String, AllocError>
    ensures { IfOk result (λ text. string_bytes text ≡ reported_as form reported.now (plan_view plan.now)) }
{
    let mut text = failures_of_tree(alloc, plan.tree(), reported.faults.as_slice(), form)?;
    write_lost(&mut text, reported.lost, form)?;
    Ok(text)
}

/// Writes the line that faults were lost at the end of a text, if some were.
fn write_lost(text: &mut String, lost: bool, form: ListForm) -> Result<(), AllocError>
    ensures { OnOk result (string_bytes text.new ≡ string_bytes text.old ++ lost_as form lost) }
{
    if !lost {
        return Ok(());
    }
    text.push_str(lost_line(form))?;
    text.push_str("\n")
}

/// Returns the line that faults were lost for want of memory, with no line feed.
pub fn lost_line(form: ListForm) -> &'static str
    ensures { result.now ≡ lost_line form }
{
    match form {
        ListForm::Lines => "further faults were lost: no memory",
        ListForm::Json => "{\"lost\":true}",
    }
}

/// The faults of the nodes of a tree in this form.
fn failures_of_tree(
    alloc: Global,
    tree: &Tree,
    faults: &[NodeFault],
    form: ListForm,
) -> Result<String, AllocError>
    ensures { IfOk result (λ text. string_bytes text ≡ failures_of (line_in form tree.now) tree.now faults.now) }
{
    let nodes = nodes_of(alloc, faults)?;
    let groups = grouped(alloc, faults, nodes.as_slice(), tree.len())?;
    let mut text = String::new(alloc);
    for node in 0..tree.len() {
        write_failures(
            &mut text,
            alloc,
            tree,
            tree.id(node),
            groups[node].as_slice(),
            form,
        )?;
    }
    Ok(text)
}

/// The node of each fault. Takes memory for the list.
fn nodes_of(alloc: Global, faults: &[NodeFault]) -> Result<Vec<ContextNo>, AllocError>
    ensures { IfOk result (λ nodes. nodes.items ≡ nodes_of faults.now) }
{
    let mut nodes = Vec::new(alloc);
    for fault in faults {
        nodes.push(fault.node)?;
    }
    Ok(nodes)
}

/// Writes the faults of a node at the end of a text.
fn write_failures(
    text: &mut String,
    alloc: Global,
    tree: &Tree,
    id: &UniqueId,
    faults: &[&NodeFault],
    form: ListForm,
) -> Result<(), AllocError>
    ensures { OnOk result (string_bytes text.new ≡ string_bytes text.old ++ lines_of (line_in form tree.now) id.now (shown faults.now)) }
{
    for fault in faults {
        write_in_form(text, alloc, tree, id, fault, form)?;
    }
    Ok(())
}

/// Writes a fault of the node with this id at the end of a text, in this form.
fn write_in_form(
    text: &mut String,
    alloc: Global,
    tree: &Tree,
    id: &UniqueId,
    fault: &NodeFault,
    form: ListForm,
) -> Result<(), AllocError>
    ensures { OnOk result (string_bytes text.new ≡ string_bytes text.old ++ line_in form tree.now id.now fault.now) }
{
    match form {
        ListForm::Lines => write_failure(text, tree, id, fault),
        ListForm::Json => write_object(text, alloc, tree, id, fault),
    }
}

/// Writes the line of a fault of the node with this id at the end of a text.
fn write_failure(
    text: &mut String,
    tree: &Tree,
    id: &UniqueId,
    fault: &NodeFault,
) -> Result<(), AllocError>
    ensures { OnOk result (string_bytes text.new ≡ string_bytes text.old ++ failure_line tree.now id.now fault.now) }
{
    id.write_to(text)?;
    text.push_str(": ")?;
    text.push_str(fault.text.as_str())?;
    text.push_str(" (")?;
    write_origin(text, tree, fault.origin)?;
    text.push_str(")\n")
}

/// Writes the origin of a fault at the end of a text.
fn write_origin(text: &mut String, tree: &Tree, origin: FaultOrigin) -> Result<(), AllocError>
    ensures { OnOk result (string_bytes text.new ≡ string_bytes text.old ++ origin_text tree.now origin) }
{
    match origin {
        FaultOrigin::Step { call, step } => {
            write_call(text, tree, call)?;
            write!(text, ", step {step}")
        }
        FaultOrigin::Close => text.push_str("close"),
    }
}

/// Writes which of a node's calls it is at the end of a text.
#[tactic(auto, unfolding(crate::specs::Failures::call_text))]
fn write_call(text: &mut String, tree: &Tree, call: Call) -> Result<(), AllocError>
    ensures { OnOk result (string_bytes text.new ≡ string_bytes text.old ++ call_text tree.now call.kind call.from call.index) }
{
    let Call { kind, from, index } = call;
    match kind {
        Kind::BeforeAll => write!(text, "before_all {index}"),
        Kind::BeforeEach => write_callback(text, tree, "before_each", index, from),
        Kind::Test => text.push_str("test"),
        Kind::AfterEach => write_callback(text, tree, "after_each", index, from),
        Kind::AfterAll => write!(text, "after_all {index}"),
    }
}

/// Writes a callback round each test, and the node that registered it, at the end of a text.
fn write_callback(
    text: &mut String,
    tree: &Tree,
    name: &str,
    index: usize,
    from: ContextNo,
) -> Result<(), AllocError>
    ensures { OnOk result (string_bytes text.new ≡ string_bytes text.old ++ callback_of tree.now name.now index from) }
{
    text.push_str(name)?;
    write!(text, " {index} of ")?;
    write_id(text, tree, from)
}

/// Writes the id of a node at the end of a text, if the tree has it.
pub(crate) fn write_id(text: &mut String, tree: &Tree, node: ContextNo) -> Result<(), AllocError>
    ensures { OnOk result (string_bytes text.new ≡ string_bytes text.old ++ id_text (id_at tree.now node)) }
{
    if node < tree.len() {
        return tree.id(node).write_to(text);
    }
    Ok(())
}
