//! The results of a run as they are reported: with all that failed, and without what did not come.
ghost use Rattle.std.specs.Prelude.{◌≡◌, ◌<◌, ◌++◌, All, IfOk, OnOk, filter, length, map, option_map, string_bytes};
ghost use Rattle.ext_lifecycle.specs.FaultTexts.{fault_text, result_view, results_view};
ghost use Rattle.ext_runner.specs.InnerTelling.{extra_of, has_come, indented, indented_character, is_reported, with_indented_fault, without_faults};

use crate::node_log::{NodeLog, ReportedFault};
use crate::run_log::{Listed, State};
use crate::skipped::why_skipped;
use ext_report::{Extra, NodeResult, Status};
use ext_table::{ContextNo, Fault, FaultOrigin, Kind, LeftOut};
use ext_tree::Tree;
use std::alloc::{AllocError, Global};

/// The results as they are reported, and what is known beside them.
#[derive(Drop)]
pub(crate) struct ReportedResults {
    pub(crate) results: Vec<NodeResult>,
    pub(crate) extras: Vec<Extra>,
}

/// What is reported of these results. The fault of a node has all its faults, on lines of their own,
/// also those of its earlier attempts, and that of a skipped one says why. Nodes in reserve that did not come are left out.
pub(crate) fn reported_results(
    alloc: Global,
    tree: &Tree,
    results: Vec<NodeResult>,
    listed: &[Listed],
    state: &State,
) -> Result<ReportedResults, AllocError>
    ensures within { IfOk result (λ reported. All (λ r. r.node < length tree.now) reported.results.items) }
    ensures same { IfOk result (λ reported. map without_faults reported.results.items ≡ map without_faults (filter (is_reported (length tree.now) state.now.nodes.items) results.items)) }
    ensures extras { IfOk result (λ reported. reported.extras.items ≡ map extra_of state.now.nodes.items) }
{
    let logs = state.nodes.as_slice();
    Ok(ReportedResults {
        results: results_with_faults(alloc, tree.len(), results, listed, logs)?,
        extras: extras_of(alloc, logs)?,
    })
}

/// The results that are reported, each with all faults of its node, in a tree of so many nodes.
fn results_with_faults(
    alloc: Global,
    count: usize,
    results: Vec<NodeResult>,
    listed: &[Listed],
    logs: &[NodeLog],
) -> Result<Vec<NodeResult>, AllocError>
    ensures within { IfOk result (λ reported. All (λ r. r.node < count) reported.items) }
    ensures same { IfOk result (λ reported. map without_faults reported.items ≡ map without_faults (filter (is_reported count logs.now) results.items)) }
{
    let mut reported = Vec::new(alloc);
    for ran in results {
        if is_reported(count, logs, &ran) {
            reported.push(with_all_faults(alloc, listed, ran, logs)?)?;
        }
    }
    Ok(reported)
}

/// Whether what came of a node is reported: not of one in reserve that did not come.
fn is_reported(count: usize, logs: &[NodeLog], ran: &NodeResult) -> bool
    ensures { result ≡ is_reported count logs.now ran.now }
{
    ran.node < count && has_come(logs.get(ran.node))
}

/// Whether a node came that has this log.
fn has_come(log: Option<&NodeLog>) -> bool
    ensures { result ≡ has_come (option_map (λ log. log.now) log.entry) }
{
    match log {
        Some(log) => !matches!(log.left_out, Some(LeftOut::DidNotCome)),
        None => false,
    }
}

/// What is known of each node beside its result.
fn extras_of(alloc: Global, logs: &[NodeLog]) -> Result<Vec<Extra>, AllocError>
    ensures { IfOk result (λ extras. extras.items ≡ map extra_of logs.now) }
{
    logs.iter().map(extra_of).collect(alloc)
}

/// What is known of a node beside its result.
fn extra_of(log: &NodeLog) -> Extra
    ensures { result ≡ extra_of log.now }
{
    Extra::new(log.took, log.attempt)
}

/// The result, whose fault is all that is said of the node.
fn with_all_faults(
    alloc: Global,
    listed: &[Listed],
    ran: NodeResult,
    logs: &[NodeLog],
) -> Result<NodeResult, AllocError>
    ensures { IfOk result (λ reported. without_faults reported ≡ without_faults ran) }
{
    let text = text_of(alloc, listed, ran.node, ran.status, logs)?;
    if text.is_empty() {
        return Ok(ran);
    }
    Ok(with_text(ran, text))
}

/// All that is said of a node: its faults, or why it was skipped.
fn text_of(
    alloc: Global,
    listed: &[Listed],
    node: ContextNo,
    status: Status,
    logs: &[NodeLog],
) -> Result<String, AllocError> {
    match logs.get(node) {
        None => Ok(String::new(alloc)),
        Some(_) if matches!(status, Status::Skipped) => {
            String::from_str(alloc, why_skipped(listed, logs, node))
        }
        Some(log) => text_of_all(alloc, listed, node, log),
    }
}

/// The result with this text for its fault.
fn with_text(ran: NodeResult, text: String) -> NodeResult
    ensures { without_faults result ≡ without_faults ran }
{
    let NodeResult {
        node,
        is_test,
        status,
        fault: _,
        more: _,
        computed,
        found,
        closed,
        close_faults,
        lacked,
    } = ran;
    NodeResult {
        node,
        is_test,
        status,
        fault: Some(Fault::Text(text)),
        more: 0,
        computed,
        found,
        closed,
        close_faults,
        lacked,
    }
}

/// The texts of all faults of a node, each on lines of its own: those of attempts before the last
/// first.
fn text_of_all(
    alloc: Global,
    listed: &[Listed],
    node: ContextNo,
    log: &NodeLog,
) -> Result<String, AllocError> {
    let mut text = earlier_attempts(alloc, log.earlier.as_slice())?;
    if !text.is_empty() && !log.faults.is_empty() {
        let attempt = log.attempt;
        write!(&mut text, "\nattempt {attempt}: ")?;
    }
    write_faults(&mut text, listed, node, log.faults.as_slice())?;
    Ok(text)
}

/// What the attempts before the last said, each on lines of its own.
pub(crate) fn earlier_attempts(alloc: Global, earlier: &[String]) -> Result<String, AllocError> {
    let mut text = String::new(alloc);
    for (at, fault) in earlier.iter().enumerate() {
        if at > 0 {
            text.push('\n')?;
        }
        let attempt = at.saturating_add(1);
        write!(&mut text, "attempt {attempt}: ")?;
        text.push_str(fault.as_str())?;
    }
    Ok(text)
}

/// Writes these faults, with line feeds between them.
fn write_faults(
    text: &mut String,
    listed: &[Listed],
    node: ContextNo,
    faults: &[ReportedFault],
) -> Result<(), AllocError> {
    for (at, fault) in faults.iter().enumerate() {
        if at > 0 {
            text.push('\n')?;
        }
        write_origin(text, listed, node, fault.origin)?;
        text.push_str(fault.text.as_str())?;
    }
    Ok(())
}

/// Where in this node a fault came. Takes memory.
pub(crate) fn place_text(
    alloc: Global,
    listed: &[Listed],
    node: ContextNo,
    origin: FaultOrigin,
) -> Result<String, AllocError> {
    let mut text = String::new(alloc);
    match origin {
        FaultOrigin::Close => text.push_str("close")?,
        FaultOrigin::Step { call, .. } => {
            text.push_str(word_of(call.kind))?;
            write_owner(&mut text, listed, node, call.from)?;
        }
    }
    Ok(text)
}

/// Writes where in this node a fault came, unless it came in the test itself.
fn write_origin(
    text: &mut String,
    listed: &[Listed],
    node: ContextNo,
    origin: FaultOrigin,
) -> Result<(), AllocError> {
    match origin {
        FaultOrigin::Close => text.push_str("close: "),
        FaultOrigin::Step { call, .. } => match call.kind {
            Kind::Test => Ok(()),
            kind => {
                text.push_str(word_of(kind))?;
                write_owner(text, listed, node, call.from)?;
                text.push_str(": ")
            }
        },
    }
}

/// Writes which node registered a callback, unless it is the node itself.
fn write_owner(
    text: &mut String,
    listed: &[Listed],
    node: ContextNo,
    from: ContextNo,
) -> Result<(), AllocError> {
    match listed.get(from) {
        Some(owner) if from != node => {
            text.push_str(" of ")?;
            text.push_str(owner.id.as_str())
        }
        _ => Ok(()),
    }
}

fn word_of(kind: Kind) -> &'static str {
    match kind {
        Kind::BeforeAll => "before all",
        Kind::BeforeEach => "before each",
        Kind::Test => "test",
        Kind::AfterEach => "after each",
        Kind::AfterAll => "after all",
    }
}

/// The results, whose faults of several lines are indented behind the first.
pub(crate) fn indented(alloc: Global, results: &[NodeResult]) -> Result<Vec<NodeResult>, AllocError>
    ensures views { IfOk result (λ reported. results_view reported.items ≡ map with_indented_fault (results_view results.now)) }
    ensures nodes { IfOk result (λ reported. map (λ r. r.node) reported.items ≡ map (λ r. r.node) results.now) }
{
    let mut reported = Vec::new(alloc);
    for ran in results {
        reported.push(with_indented_fault(alloc, ran)?)?;
    }
    Ok(reported)
}

/// A copy of the result, whose fault is indented.
fn with_indented_fault(alloc: Global, ran: &NodeResult) -> Result<NodeResult, AllocError>
    ensures view { IfOk result (λ reported. result_view reported ≡ with_indented_fault (result_view ran.now)) }
    ensures node { IfOk result (λ reported. reported.node ≡ ran.now.node) }
{
    let fault = indented_fault(alloc, &ran.fault)?;
    Ok(NodeResult {
        node: ran.node,
        is_test: ran.is_test,
        status: ran.status,
        fault,
        more: ran.more,
        computed: ran.computed,
        found: ran.found,
        closed: ran.closed,
        close_faults: ran.close_faults,
        lacked: ran.lacked,
    })
}

#[tactic(auto, using(crate::proofs::Indenting::no_memory_stays))]
fn indented_fault(alloc: Global, fault: &Option<Fault>) -> Result<Option<Fault>, AllocError>
    ensures { IfOk result (λ reported. option_map fault_text reported ≡ option_map indented (option_map fault_text fault.now)) }
{
    match fault {
        Some(Fault::Text(text)) => Ok(Some(Fault::Text(indented_text(alloc, text.as_str())?))),
        Some(Fault::Memory) => Ok(Some(Fault::Memory)),
        None => Ok(None),
    }
}

/// The text, whose lines behind the first are indented.
fn indented_text(alloc: Global, text: &str) -> Result<String, AllocError>
    ensures { IfOk result (λ reported. string_bytes reported ≡ indented text.now) }
{
    let mut reported = String::new(alloc);
    for c in text.chars() {
        write_indented(&mut reported, c)?;
    }
    Ok(reported)
}

/// Writes a character of a text, and behind a line feed four spaces.
fn write_indented(text: &mut String, c: char) -> Result<(), AllocError>
    ensures { OnOk result (string_bytes text.new ≡ string_bytes text.old ++ indented_character c) }
{
    text.push(c)?;
    if c == '\n' {
        text.push_str("    ")?;
    }
    Ok(())
}
