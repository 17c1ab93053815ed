//! The callbacks of a plan's nodes.
ghost use Rattle.std.specs.Prelude.{◌≡◌, [], map, None, option_map};
ghost use Rattle.toml.specs.View.{table_view};
ghost use Rattle.ext_plan.specs.Plans.{callbacks_view};
ghost use Rattle.ext_plan_reading.specs.CallbackReading.{are_of_container, callback_texts_at, callbacks_after, callbacks_at, node_callbacks_at};
ghost use Rattle.ext_plan_reading.specs.Faults.{Gives};
ghost use Rattle.ext_plan_reading.specs.InnerSketches.{callback_steps_view, callback_texts_view, lists_view, words_view};

use crate::fault::{PlanFault, PlanPart};
use crate::fields::text_lists_at;
use crate::labels::Labels;
use crate::steps::steps_of;
use ext_plan::Step;
use std::alloc::Global;
use toml::Table;

/// How many callbacks of a kind a node has at most. A text with more has over 3 MB.
const CALLBACK_LIMIT: usize = 1_048_576;

/// The callbacks of a node after the first pass: for each kind whose field is given, the texts of
/// the steps of each callback.
#[derive(Drop)]
pub(crate) struct CallbackSketch<'a> {
    before_all: Option<Vec<Vec<&'a str>>>,
    after_all: Option<Vec<Vec<&'a str>>>,
    before_each: Option<Vec<Vec<&'a str>>>,
    after_each: Option<Vec<Vec<&'a str>>>,
}

/// The callbacks of a node, each with its steps, in the order of the plan.
#[derive(Drop)]
pub(crate) struct NodeCallbacks {
    pub before_all: Vec<Vec<Step>>,
    pub after_all: Vec<Vec<Step>>,
    pub before_each: Vec<Vec<Step>>,
    pub after_each: Vec<Vec<Step>>,
}

impl<'a> CallbackSketch<'a> {
    /// The callbacks in the table of a node. `node` is the node's index in the plan.
    #[tactic(auto, unfolding(crate::specs::CallbackReading::callback_texts_at))]
    pub fn of(alloc: Global, node: usize, table: &'a Table) -> Result<CallbackSketch<'a>, PlanFault>
        ensures { Gives callback_texts_view result (callback_texts_at node (table_view table.now)) }
    {
        let fault = PlanFault::BadField(PlanPart::Node(node));
        let before_all = text_lists_at(alloc, table, "before_all", fault)?;
        let after_all = text_lists_at(alloc, table, "after_all", fault)?;
        let before_each = text_lists_at(alloc, table, "before_each", fault)?;
        let after_each = text_lists_at(alloc, table, "after_each", fault)?;
        Ok(CallbackSketch {
            before_all,
            after_all,
            before_each,
            after_each,
        })
    }

    /// No callbacks.
    pub fn none() -> CallbackSketch<'a>
        ensures { callback_texts_view result ≡ record { before_all = None; after_all = None; before_each = None; after_each = None } }
    {
        CallbackSketch {
            before_all: None,
            after_all: None,
            before_each: None,
            after_each: None,
        }
    }

    /// For each kind, in reading order: its field, the `depth` with which its steps are read, and
    /// the texts of the steps of each callback. The depths are those of `read`.
    pub fn in_order(
        &self,
        own: usize,
        least: usize,
    ) -> [(&'static str, usize, &[Vec<&'a str>]); 4] {
        [
            ("before_all", own, texts_in(&self.before_all)),
            ("after_all", own, texts_in(&self.after_all)),
            ("before_each", least, texts_in(&self.before_each)),
            ("after_each", least, texts_in(&self.after_each)),
        ]
    }

    /// Tests whether callbacks before or after all children are given, even if the array is empty.
    pub fn are_of_container(&self) -> bool
        ensures { result ≡ are_of_container (callback_texts_view self.now) }
    {
        self.before_all.is_some() || self.after_all.is_some()
    }

    /// Reads the steps of the callbacks. `own` is the number of segments of the node's id, `least`
    /// the least number of segments of a test's id at or below the node, and `node` the node's
    /// index in the plan.
    #[tactic(auto, unfolding(crate::specs::CallbackReading::node_callbacks_at))]
    pub fn read(
        &self,
        alloc: Global,
        labels: &Labels<'_>,
        own: usize,
        least: usize,
        node: usize,
    ) -> Result<NodeCallbacks, PlanFault>
        ensures { Gives callback_steps_view result (node_callbacks_at labels.now own least node (callback_texts_view self.now)) }
    {
        let before_all = callbacks_of(alloc, labels, own, node, &self.before_all)?;
        let after_all = callbacks_of(alloc, labels, own, node, &self.after_all)?;
        let before_each = callbacks_of(alloc, labels, least, node, &self.before_each)?;
        let after_each = callbacks_of(alloc, labels, least, node, &self.after_each)?;
        Ok(NodeCallbacks {
            before_all,
            after_all,
            before_each,
            after_each,
        })
    }
}

/// The texts of a field; empty if it is left out.
fn texts_in<'b, 'a>(lists: &'b Option<Vec<Vec<&'a str>>>) -> &'b [Vec<&'a str>] {
    match lists {
        None => &[],
        Some(lists) => lists.as_slice(),
    }
}

/// The callbacks of a field, if there are not too many. `depth` is the length of the shortest path
/// on which one of them runs.
#[tactic(auto, unfolding(crate::specs::CallbackReading::callbacks_at))]
fn callbacks_of(
    alloc: Global,
    labels: &Labels<'_>,
    depth: usize,
    node: usize,
    lists: &Option<Vec<Vec<&str>>>,
) -> Result<Vec<Vec<Step>>, PlanFault>
    ensures { Gives callbacks_view result (callbacks_at labels.now depth node (option_map lists_view lists.now)) }
{
    let Some(lists) = lists else {
        return Ok(Vec::new(alloc));
    };
    if lists.len() > CALLBACK_LIMIT {
        return Err(PlanFault::BadStep(node));
    }
    callbacks_in_order(alloc, labels, depth, node, lists.as_slice())
}

/// The callbacks of a field, in order, without the limit.
fn callbacks_in_order(
    alloc: Global,
    labels: &Labels<'_>,
    depth: usize,
    node: usize,
    lists: &[Vec<&str>],
) -> Result<Vec<Vec<Step>>, PlanFault>
    ensures { Gives callbacks_view result (callbacks_after labels.now depth node [] (map words_view lists.now)) }
{
    let mut callbacks = Vec::new(alloc);
    for texts in lists {
        let steps = steps_of(alloc, labels, depth, node, texts.as_slice())?;
        callbacks.push(steps)?;
    }
    Ok(callbacks)
}
