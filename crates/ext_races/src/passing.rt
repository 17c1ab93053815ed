//! What passes each container, so that only touches that may race are compared with others.
ghost use Rattle.std.specs.Prelude.{◌≡◌, ◌<◌, true, All, IfOk, length, map, vec_len};
ghost use Rattle.ext_plan.specs.Plans.{plan_view};
ghost use Rattle.ext_plan.specs.PlanCalls.{concurrent_of};
ghost use Rattle.ext_plan.specs.ReadPlans.{ids_of_nodes};
ghost use Rattle.ext_races.specs.InnerPassing.{AreNoted, HasNoted, HasNotedIf, IsNoted, Keeps, KeepsIf, KeepsOne, changing, may_meet, meets, passed_at, path_meets};
ghost use Rattle.ext_races.specs.Touches.{touch_view};

use crate::made::path_in;
use crate::touch::Touch;
use ext_model::ContextNo;
use ext_plan::Plan;
use ext_tree::Tree;
use std::alloc::{AllocError, Global};

/// The touches that pass a container by its concurrent children: the first, and how others differ.
#[derive(Clone, Copy, Debug)]
pub(crate) struct Passed<'p> {
    /// The child by which the first touch passes.
    pub(crate) child: ContextNo,
    pub(crate) touch: Touch<'p>,
    /// Whether touches pass by other children.
    pub(crate) several: bool,
    /// Whether touches pass that are not alike to the first.
    pub(crate) differ: bool,
}

impl<'p> Passed<'p> {
    fn first(child: ContextNo, touch: &Touch<'p>) -> Passed<'p>
        ensures { HasNoted result child (touch_view touch.now) }
    {
        Passed {
            child,
            touch: *touch,
            several: false,
            differ: !touch.is_like(touch),
        }
    }

    /// The same with one touch more.
    fn with(self, child: ContextNo, touch: &Touch<'p>) -> Passed<'p>
        ensures here { HasNoted result child (touch_view touch.now) }
        ensures kept { KeepsOne self.entry result }
    {
        Passed {
            child: self.child,
            touch: self.touch,
            several: self.several || self.child != child,
            differ: self.differ || !self.touch.is_like(touch),
        }
    }
}

/// Nothing noted, for each of `count` contexts. Takes memory for it.
pub(crate) fn none_passed<'p>(
    alloc: Global,
    count: usize,
) -> Result<Vec<Option<Passed<'p>>>, AllocError>
    ensures { IfOk result (λ passed. vec_len passed ≡ count) }
{
    let mut passed = Vec::new(alloc);
    for _ in 0..count {
        passed.push(None)?;
    }
    Ok(passed)
}

/// Notes the touches of a group, in place of all that was noted on their paths.
pub(crate) fn note_group<'p>(plan: &Plan, group: &[Touch<'p>], passed: &mut [Option<Passed<'p>>])
    requires { length passed.old ≡ length (ids_of_nodes (plan_view plan.now).nodes) }
    ensures { AreNoted (plan_view plan.now) passed.new (map touch_view group.now) }
{
    forget_paths(plan.tree(), group, passed);
    for touch in group {
        note_touch(plan, touch, passed);
    }
}

/// The same of those touches that may change their place.
pub(crate) fn note_changing<'p>(plan: &Plan, group: &[Touch<'p>], passed: &mut [Option<Passed<'p>>])
    requires { length passed.old ≡ length (ids_of_nodes (plan_view plan.now).nodes) }
    ensures { AreNoted (plan_view plan.now) passed.new (changing (map touch_view group.now)) }
{
    forget_paths(plan.tree(), group, passed);
    for touch in group {
        if touch.changes {
            note_touch(plan, touch, passed);
        }
    }
}

/// Forgets what was noted on the paths of these touches.
fn forget_paths(tree: &Tree, group: &[Touch<'_>], passed: &mut [Option<Passed<'_>>])
    requires { length passed.old ≡ length tree.now }
{
    for touch in group {
        forget_path(path_in(tree, touch.node), passed);
    }
}

fn forget_path(path: &[ContextNo], passed: &mut [Option<Passed<'_>>])
    requires { All (λ c. c < length passed.old) path.now }
{
    for context in path {
        passed[*context] = None;
    }
}

/// Notes a touch at each container that it passes by a concurrent child.
fn note_touch<'p>(plan: &Plan, touch: &Touch<'p>, passed: &mut [Option<Passed<'p>>])
    requires { length passed.old ≡ length (ids_of_nodes (plan_view plan.now).nodes) }
    ensures kept { Keeps passed.old passed.new }
    ensures noted { touch.now.node < length (plan_view plan.now).nodes → IsNoted (plan_view plan.now) passed.new (touch_view touch.now) }
{
    let path = path_in(plan.tree(), touch.node);
    for at in 1..path.len() {
        note_turn(plan, path[at - 1], path[at], touch, passed);
    }
}

/// Notes a touch that passes the container by this child, if that is concurrent.
fn note_turn<'p>(
    plan: &Plan,
    child: ContextNo,
    container: ContextNo,
    touch: &Touch<'p>,
    passed: &mut [Option<Passed<'p>>],
)
    requires { container < length passed.old }
    ensures kept { Keeps passed.old passed.new }
    ensures noted { concurrent_of (plan_view plan.now) child ≡ true → HasNotedIf (passed_at passed.new container) child (touch_view touch.now) }
{
    if plan.mode(child).is_concurrent() {
        let now = with_touch(passed[container], child, touch);
        passed[container] = Some(now);
    }
}

/// What is noted of a container, with one touch more.
fn with_touch<'p>(before: Option<Passed<'p>>, child: ContextNo, touch: &Touch<'p>) -> Passed<'p>
    ensures noted { HasNoted result child (touch_view touch.now) }
    ensures kept { KeepsIf before.entry result }
{
    match before {
        Some(before) => before.with(child, touch),
        None => Passed::first(child, touch),
    }
}

/// Tests whether touches of the node may meet others that are noted, of nodes that may run beside
/// it; if `differing`, only where not all touches are alike, so that they may race.
pub(crate) fn may_meet(
    plan: &Plan,
    passed: &[Option<Passed<'_>>],
    node: ContextNo,
    differing: bool,
) -> bool
    ensures { result ≡ may_meet (plan_view plan.now) passed.now differing node }
{
    if node >= plan.nodes.len() {
        return false;
    }
    path_meets(plan, passed, path_in(plan.tree(), node), differing)
}

/// Tests whether a path passes a container by a concurrent child where touches may meet.
fn path_meets(
    plan: &Plan,
    passed: &[Option<Passed<'_>>],
    path: &[ContextNo],
    differing: bool,
) -> bool
    ensures { result ≡ path_meets (plan_view plan.now) passed.now differing path.now }
{
    path.iter().zip(path.iter().skip(1)).any(|(child, container)| {
        plan.mode(*child).is_concurrent() && meets(passed, *container, differing)
    })
}

/// Tests whether touches pass the container by several children, and, if `differing`, are not all
/// alike.
fn meets(passed: &[Option<Passed<'_>>], container: ContextNo, differing: bool) -> bool
    ensures { result ≡ meets differing (passed_at passed.now container) }
{
    if container >= passed.len() {
        return false;
    }
    several_meet(&passed[container], differing)
}

fn several_meet(passed: &Option<Passed<'_>>, differing: bool) -> bool
    ensures { result ≡ meets differing passed.now }
{
    match passed {
        Some(passed) => passed.several && (passed.differ || !differing),
        None => false,
    }
}
