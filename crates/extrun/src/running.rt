//! The nodes that are running, and the line that names them.
ghost use Rattle.std.specs.Prelude.{◌≡◌, ◌++◌, string_bytes, IfOk, OnOk};
ghost use Rattle.std.specs.List.{flat_map};
ghost use Rattle.extrun.specs.Lines.{named_part, next_node_text, node_text, node_view, nodes_view, others_part, progress_line};

use std::alloc::{AllocError, Global};

/// How many running nodes a line names at most.
const NAMED: usize = 4;

#[derive(Clone, Copy, Debug, PartialEq, Eq)]
pub(crate) struct RunningNode<'a> {
    pub(crate) id: &'a str,
    /// The number of the lane that runs it.
    pub(crate) lane: usize,
}

/// The progress of a run: which of its nodes have started, and which have ended.
#[derive(Drop)]
pub(crate) struct Running {
    /// The ids of the nodes, in the order of the plan.
    ids: Vec<String>,
    /// The lane of each node that has started and has not ended.
    lanes: Vec<Option<usize>>,
    /// How many nodes have ended.
    ended: usize,
}

impl Running {
    /// The progress of a run that has not begun, whose nodes have these ids. Takes memory.
    pub(crate) fn new(alloc: Global, ids: Vec<String>) -> Result<Running, AllocError> {
        let mut lanes = Vec::new(alloc);
        for _ in ids.as_slice() {
            lanes.push(None)?;
        }
        Ok(Running {
            ids,
            lanes,
            ended: 0,
        })
    }

    /// Records that a node starts on this lane.
    pub(crate) fn start(&mut self, node: usize, lane: usize) {
        self.set(node, Some(lane));
    }

    /// Records that a node has ended.
    pub(crate) fn end(&mut self, node: usize) {
        self.set(node, None);
        self.ended = self.ended.saturating_add(1);
    }

    /// Records the lane of a node, or none if it does not run.
    fn set(&mut self, node: usize, lane: Option<usize>) {
        if let Some(of_node) = self.lanes.get_mut(node) {
            *of_node = lane;
        }
    }

    /// Tests whether a node runs.
    pub(crate) fn is_any(&self) -> bool {
        self.lanes.iter().any(|lane| lane.is_some())
    }

    /// The line of this progress. Takes memory.
    pub(crate) fn line(&self, alloc: Global) -> Result<String, AllocError> {
        let running = self.innermost(alloc)?;
        line_of(alloc, self.ended, self.ids.len(), running.as_slice())
    }

    /// The nodes that run, in the order of the plan, except those below which another one runs.
    fn innermost(&self, alloc: Global) -> Result<Vec<RunningNode<'_>>, AllocError> {
        let mut running = Vec::new(alloc);
        for (id, lane) in self.ids.iter().zip(self.lanes.iter()) {
            let id = id.as_str();
            if let Some(lane) = lane
                && !self.runs_below(id)
            {
                running.push(RunningNode { id, lane: *lane })?;
            }
        }
        Ok(running)
    }

    /// Tests whether a node below the one with this id runs.
    fn runs_below(&self, above: &str) -> bool {
        for (id, lane) in self.ids.iter().zip(self.lanes.iter()) {
            if lane.is_some() && is_below(id.as_str(), above) {
                return true;
            }
        }
        false
    }
}

/// Tests whether `id` is that of a node below the one with the id `above`.
fn is_below(id: &str, above: &str) -> bool {
    match id.strip_prefix(above) {
        Some(rest) => rest.starts_with('/'),
        None => false,
    }
}

/// The line of a run of `nodes` nodes, of which `ended` have ended and `running` run. Takes memory.
pub(crate) fn line_of(
    alloc: Global,
    ended: usize,
    nodes: usize,
    running: &[RunningNode<'_>],
) -> Result<String, AllocError>
    ensures { IfOk result (λ line. string_bytes line ≡ progress_line ended nodes (nodes_view running.now)) }
{
    let mut line = format!(in alloc; "{ended} of {nodes} nodes")?;
    let named = running.len().min(NAMED);
    write_named(&mut line, &running[..named])?;
    write_others(&mut line, running.len() - named)?;
    Ok(line)
}

/// Writes the nodes at the end of a line.
fn write_named(line: &mut String, nodes: &[RunningNode<'_>]) -> Result<(), AllocError>
    ensures { OnOk result (string_bytes line.new ≡ string_bytes line.old ++ named_part (nodes_view nodes.now)) }
{
    let Some((first, others)) = nodes.split_first() else {
        return Ok(());
    };
    line.push_str(", running: ")?;
    write_node(line, first)?;
    write_next(line, others)
}

/// Writes the nodes after another one.
fn write_next(line: &mut String, nodes: &[RunningNode<'_>]) -> Result<(), AllocError>
    ensures { OnOk result (string_bytes line.new ≡ string_bytes line.old ++ flat_map next_node_text (nodes_view nodes.now)) }
{
    for node in nodes {
        line.push_str("; ")?;
        write_node(line, node)?;
    }
    Ok(())
}

/// Writes a node with its lane.
fn write_node(line: &mut String, node: &RunningNode<'_>) -> Result<(), AllocError>
    ensures { OnOk result (string_bytes line.new ≡ string_bytes line.old ++ node_text (node_view node.now)) }
{
    line.push_str(node.id)?;
    let lane = node.lane;
    write!(line, " on lane {lane}")
}

/// Writes how many nodes run besides those that are named.
fn write_others(line: &mut String, others: usize) -> Result<(), AllocError>
    ensures { OnOk result (string_bytes line.new ≡ string_bytes line.old ++ others_part others) }
{
    if others != 0 {
        write!(line, " and {others} more")?;
    }
    Ok(())
}
