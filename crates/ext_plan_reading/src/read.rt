//! Reading a plan from its text.
ghost use Rattle.std.specs.Prelude.{◌≡◌, ◌≢◌, ◌≤◌, Err, map, IfOk};
ghost use Rattle.toml.specs.View.{table_view};
ghost use Rattle.ext_model.specs.declared.size.Size.TheVariants as sizes;
ghost use Rattle.ext_plan.specs.Plans.{plan_view};
ghost use Rattle.ext_plan.specs.ReadPlans.{IsReadPlan};
ghost use Rattle.ext_plan_reading.specs.Faults.{Gives};
ghost use Rattle.ext_plan_reading.specs.Reading.{plan_of, plan_of_tables, plan_of_text};

use crate::top::top_of;
use crate::{PlanFault, keys_of, locks_are_few, nodes_of_tables};
use ext_model::Size;
use ext_plan::{Plan, keys_are_few};
use std::alloc::Global;
use toml::Table;

/// Reads the plan of usual size, at most 256 nodes, in the text of a TOML document.
///
/// The plan has the keys, nodes, callbacks and steps of the text, in its order. The document may
/// have `keep_faults`, true or by default false, and two arrays of tables, `key` and `node`. It may
/// have `keys`, the number of different keys that steps can name, 1 to 1,024 and by default 64,
/// rounded up to a multiple of 32.
///
/// Each `key` has a `label`. It may have a `name`, which replaces the label, and a `namespace`, an
/// array of texts with at least one. No more keys are different than steps can name.
///
/// Each `node` has an `id` and, if it is a test, `test`, an array of steps. It may have `repeat`, as
/// below; `mode`, which is `concurrent` or by default `same_thread`; `isolated`, true or by default false;
/// `locks`, an array of texts `READ NAME` or `READ_WRITE NAME`, with at most 63 different names in
/// the plan; and `before_all`, `after_all`, `before_each` and `after_each`, each an array of at
/// most 1,048,576 callbacks, which are arrays of steps. The ids form a tree
/// (`ext_tree::Tree::build`): the first has one segment, and each other one comes after its parent.
/// A test has no children, and neither `before_all` nor `after_all`, even as an empty array.
///
/// A test may have `repeat`, a number N from 1 to 65,535. Then it is read as a container that has all
/// of its table but the steps, and behind it as N tests with these steps and its mode. Their ids are
/// its own with `[test-template-invocation:#1]` and so on behind it, as those of JUnit's
/// `@RepeatedTest`.
///
/// A step is one of
///
/// ```text
/// none KEY      put KEY TEXT      want KEY TEXT       computefail KEY TEXT      fail TEXT
/// remove KEY    put! KEY TEXT     compute KEY TEXT    compute! KEY TEXT         abort TEXT
/// ```
///
/// with one space between two words, where KEY and TEXT are words. A KEY is a label of the plan, or
/// else the name of a key in the global namespace, which needs no declaration. All steps but `fail`
/// and `abort` may end with ` up N`, where N is from 1 to 15 and less than the number of segments
/// of the node's id. In `before_each` and `after_each`, N is less than that of the id of each test
/// at or below the node, since these callbacks run round those tests. A test and a callback have at
/// most 2^32 - 1 steps.
///
/// Everything else is refused with its first fault. In order: `NotToml`; `UnknownField`, then
/// `BadField`, of the top fields; for each key `UnknownField`, `BadField`, `BadLabel`; for each
/// node `UnknownField`, `BadField`, `BadId`; `BadTree`; for each node `BadTest`, `BadLock`,
/// `BadStep`; `TooMany`. `Memory` takes the place of any of these if memory was refused. `NotUtf8`
/// is never answered, since a `&str` is UTF-8.
///
/// Takes memory for the document, the lists of its tables and texts, the set of labels, the tree of
/// the ids, the different keys and the plan, all in proportion to the text with each repetition
/// written out. All but the plan's is given back.
pub fn read_plan(alloc: Global, text: &str) -> Result<Plan, PlanFault>
    ensures exact { Gives plan_view result (plan_of_text sizes.Usual text.now) }
    ensures utf8 { result ≢ Err PlanFault.NotUtf8 }

    // This holds of every plan, whatever the text was.
    ensures plan { IfOk result (λ p. IsReadPlan (plan_view p)) }
{
    read_plan_within(alloc, text, Size::Usual)
}

/// Reads a plan like `read_plan`, which may be as large as `size` says: it has at most
/// `size.contexts()` nodes, and a run of it draws at most `size.numbers()` numbers.
#[tactic(auto, unfolding(crate::specs::Reading::plan_of_text))]
pub fn read_plan_within(alloc: Global, text: &str, size: Size) -> Result<Plan, PlanFault>
    ensures exact { Gives plan_view result (plan_of_text size text.now) }
    ensures utf8 { result ≢ Err PlanFault.NotUtf8 }

    // This holds of every plan, whatever the text was.
    ensures plan { IfOk result (λ p. IsReadPlan (plan_view p)) }
{
    match toml::table_from_str(alloc, text) {
        Ok(top) => plan_of(alloc, &top, size),
        Err(fault) if fault.is_memory() => Err(PlanFault::Memory),
        Err(_) => Err(PlanFault::NotToml),
    }
}

fn plan_of(alloc: Global, top: &Table, size: Size) -> Result<Plan, PlanFault>
    ensures { Gives plan_view result (plan_of size (table_view top.now)) }
{
    let fields = top_of(alloc, top)?;
    plan_of_tables(
        alloc,
        size,
        fields.keep_faults,
        fields.key_places,
        fields.key_tables.as_slice(),
        fields.node_tables.as_slice(),
    )
}

/// The plan of this size with the keys and nodes in these tables, with places for at most 1,024
/// keys.
#[tactic(auto, unfolding(crate::specs::Reading::plan_of_tables))]
pub(crate) fn plan_of_tables(
    alloc: Global,
    size: Size,
    keep_faults: bool,
    key_places: usize,
    key_tables: &[&Table],
    node_tables: &[&Table],
) -> Result<Plan, PlanFault>
    requires { key_places ≤ 1024 }
    ensures { Gives plan_view result (plan_of_tables size keep_faults key_places (map (λ t. table_view t.now) key_tables.now) (map (λ t. table_view t.now) node_tables.now)) }
{
    let keys = keys_of(alloc, key_tables)?;
    let (nodes, tree) = nodes_of_tables(alloc, size, &keys.labels, node_tables)?;
    if !keys_are_few(alloc, keys.keys.as_slice(), key_places)? {
        return Err(PlanFault::TooMany);
    }
    if !locks_are_few(alloc, nodes.as_slice())? {
        return Err(PlanFault::TooMany);
    }
    Ok(Plan {
        keep_faults,
        key_places,
        size,
        keys: keys.keys,
        nodes,
        tree,
    })
}
