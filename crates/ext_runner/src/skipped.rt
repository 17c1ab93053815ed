//! Why nodes were skipped.
use crate::node_log::NodeLog;
use crate::run_log::Listed;
use ext_table::{ContextNo, LeftOut};

/// Why a node was left out, or the nearest that it stands in, if one was. Of one that was skipped for
/// another reason, what it stands in did not pass before.
pub(crate) fn left_out(listed: &[Listed], logs: &[NodeLog], node: ContextNo) -> Option<LeftOut> {
    let mut at = node;
    for _ in listed {
        let why = logs.get(at)?.left_out;
        if why.is_some() {
            return why;
        }
        let above = listed.get(at)?.above;
        if above >= at {
            return None;
        }
        at = above;
    }
    None
}

/// Why a node was skipped.
pub(crate) fn why_skipped(listed: &[Listed], logs: &[NodeLog], node: ContextNo) -> &'static str {
    match left_out(listed, logs, node) {
        Some(LeftOut::Stopped) => "so many had failed that no more were begun",
        Some(LeftOut::DidNotCome) => "what it stands in did not come",
        None => "what it stands in did not pass before",
    }
}
