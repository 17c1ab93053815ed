//! The data of a plan.
ghost use Rattle.std.specs.Prelude.{◌≡◌, map};

use crate::{KeyedStep, StepParts, Word};
use ext_ids::UniqueId;
use ext_lifecycle::{Call, Kind, Mode};
use ext_model::{ContextNo, Size};
use ext_tree::Tree;

/// The number of a label: the index of its key in `Plan::keys`. Two labels may name the same key of
/// the store.
pub type LabelNo = usize;

/// What a run does: the declared keys, the nodes with their callbacks and tests, how many keys the
/// store has places for, how large it may be, and whether it keeps the faults of factories.
#[derive(Drop)]
pub struct Plan {
    /// Whether the store keeps the fault of a factory that fails.
    pub keep_faults: bool,
    /// How many different keys steps can name: 32 to 1,024, a multiple of 32.
    pub key_places: usize,
    /// How large the plan and the store are: there are at most `size.contexts()` nodes, and a run
    /// draws at most `size.numbers()` numbers.
    pub size: Size,
    /// The declared keys with their labels, in the order of the plan. At most `key_places` of them
    /// are different.
    pub keys: Vec<PlanKey>,
    /// The nodes, in the order of the plan, at least one. The first is the root, and each other one
    /// is a child of one before it.
    pub nodes: Vec<PlanNode>,
    /// The tree of the nodes' contexts, numbered in the order of the plan.
    pub tree: Tree,
    pub ghost contexts: { tree ≡ map (λ n. n.id) nodes.items },
}

impl Plan {
    ghost use Rattle.std.specs.Prelude.{is_some};
    ghost use Rattle.ext_lifecycle.specs.Modes.{is_concurrent};
    ghost use Rattle.ext_plan.specs.Plans.{lock_view, plan_view, step_view};
    ghost use Rattle.ext_plan.specs.PlanCalls.{concurrent_of, isolated_of, locks_of, registered, steps_of_call, test_of};
    ghost use Rattle.ext_plan.specs.ReadPlans.{ids_of_nodes};

    /// Returns the tree of the nodes' contexts, numbered in the order of the plan.
    pub fn tree(&self) -> &Tree
        ensures { result.now ≡ ids_of_nodes (plan_view self.now).nodes }
    {
        &self.tree
    }

    /// Tests whether the node at this index is a test; `false` if the plan has no such node.
    /// Source: Javadoc type `TestDescriptor`, `isTest`.
    pub fn is_test(&self, node: ContextNo) -> bool
        ensures { result ≡ is_some (test_of (plan_view self.now) node) }
    {
        match self.nodes.get(node) {
            Some(node) => node.test.is_some(),
            None => false,
        }
    }

    /// Returns the execution mode of the node; `SameThread` if the plan has no such node. Source:
    /// JUnit 5 User Guide, section "Parallel Execution".
    pub fn mode(&self, node: ContextNo) -> Mode
        ensures { is_concurrent result ≡ concurrent_of (plan_view self.now) node }
    {
        match self.nodes.get(node) {
            Some(node) => node.mode,
            None => Mode::SameThread,
        }
    }

    /// Tests whether each test at or below the node runs alone; `false` if the plan has no such
    /// node. Source: JUnit 5 User Guide, section "Synchronization", and Javadoc type `Isolated`.
    pub fn is_isolated(&self, node: ContextNo) -> bool
        ensures { result ≡ isolated_of (plan_view self.now) node }
    {
        match self.nodes.get(node) {
            Some(node) => node.isolated,
            None => false,
        }
    }

    /// Returns the locks that the node names, in the order of the plan; none if the plan has no
    /// such node. Source: JUnit 5 User Guide, section "Synchronization", and Javadoc type
    /// `ResourceLock`.
    pub fn locks_of(&self, node: ContextNo) -> &[PlanLock]
        ensures { map lock_view result.now ≡ locks_of (plan_view self.now) node }
    {
        match self.nodes.get(node) {
            Some(node) => node.locks.as_slice(),
            None => &[],
        }
    }

    /// Counts the callbacks of a kind that the node registers; 0 if the plan has no such node. A
    /// test is no callback: the count is 0 for `Kind::Test`.
    pub fn callback_count(&self, kind: Kind, node: ContextNo) -> usize
        ensures { result ≡ registered (plan_view self.now) kind node }
    {
        match self.nodes.get(node) {
            Some(node) => node.callbacks(kind).len(),
            None => 0,
        }
    }

    /// Returns the steps of a call, in order: those of its node's test, or of the callback with the
    /// call's kind and index. There are none if the plan has no such node, callback or test.
    pub fn steps_of(&self, call: &Call) -> &[Step]
        ensures { map step_view result.now ≡ steps_of_call (plan_view self.now) call.now }
    {
        match self.nodes.get(call.from) {
            Some(node) => node.steps_called(call.kind, call.index),
            None => &[],
        }
    }
}

/// A declared key of the store (`ExtensionContext.Store`), with the word that names it in steps.
#[derive(Debug, Drop)]
pub struct PlanKey {
    /// The word that names the key in steps: not empty, without a space, and unique in the plan.
    pub label: String,
    /// The key's name, which is the label if the plan gives none.
    pub name: String,
    /// The parts of the created namespace (`ExtensionContext.Namespace`, `create`), at least one;
    /// `None` is the global namespace.
    pub namespace: Option<Vec<String>>,
}

/// A node of the tree: a container or a test, with a context of its own (`ExtensionContext`).
#[derive(Debug, Drop)]
pub struct PlanNode {
    /// The unique id (JUnit 5 `UniqueId`): 1 to 16 segments.
    pub id: UniqueId,
    /// Whether the node may run concurrently with its siblings (`@Execution`). It has no effect on
    /// the root.
    pub mode: Mode,
    /// Whether each test at or below the node runs alone (`@Isolated`).
    pub isolated: bool,
    /// The resource locks that the node names (`@ResourceLock`), in the order of the plan.
    pub locks: Vec<PlanLock>,
    /// The callbacks before all children, each with its steps, in the order of registration
    /// (`BeforeAllCallback`). A test has none. There are at most 1,048,576, as of each other kind.
    pub before_all: Vec<Vec<Step>>,
    /// The callbacks after all children, each with its steps, in the order of registration
    /// (`AfterAllCallback`). A test has none.
    pub after_all: Vec<Vec<Step>>,
    /// The callbacks before each test at or below the node, each with its steps, in the order of
    /// registration (`BeforeEachCallback`).
    pub before_each: Vec<Vec<Step>>,
    /// The callbacks after each test at or below the node, each with its steps, in the order of
    /// registration (`AfterEachCallback`).
    pub after_each: Vec<Vec<Step>>,
    /// The steps of a test, in order, perhaps none. A container has `None`, and so has each node
    /// with children.
    pub test: Option<Vec<Step>>,
}

impl PlanNode {
    ghost use Rattle.std.specs.Prelude.{Some};
    ghost use Rattle.ext_plan.specs.Plans.{callbacks_of, node_view, step_view, steps_view};
    ghost use Rattle.ext_plan.specs.PlanCalls.{steps_called};

    /// Returns the callbacks of a kind that the node registers, each with its steps, in the order
    /// of registration. There are none of `Kind::Test`: a test is no callback.
    pub fn callbacks(&self, kind: Kind) -> &[Vec<Step>]
        ensures { map steps_view result.now ≡ callbacks_of kind (node_view self.now) }
    {
        match kind {
            Kind::BeforeAll => self.before_all.as_slice(),
            Kind::BeforeEach => self.before_each.as_slice(),
            Kind::Test => &[],
            Kind::AfterEach => self.after_each.as_slice(),
            Kind::AfterAll => self.after_all.as_slice(),
        }
    }

    /// The steps of the node's test, or of its callback of this kind and index.
    fn steps_called(&self, kind: Kind, index: usize) -> &[Step]
        ensures { map step_view result.now ≡ steps_called kind index (Some (node_view self.now)) }
    {
        match kind {
            Kind::Test => match &self.test {
                Some(steps) => steps.as_slice(),
                None => &[],
            },
            Kind::BeforeAll | Kind::BeforeEach | Kind::AfterEach | Kind::AfterAll => {
                match self.callbacks(kind).get(index) {
                    Some(steps) => steps.as_slice(),
                    None => &[],
                }
            }
        }
    }
}

/// A resource lock that a node names by one word (`@ResourceLock`). Source: JUnit 5 User Guide,
/// section "Synchronization".
#[derive(Debug, Drop)]
pub enum PlanLock {
    /// `READ NAME`: for reading (`ResourceAccessMode.READ`).
    Read(String),
    /// `READ_WRITE NAME`: for reading and writing (`ResourceAccessMode.READ_WRITE`).
    ReadWrite(String),
}

impl PlanLock {
    ghost use Rattle.ext_plan.specs.LockNames.{lock_name};
    ghost use Rattle.ext_plan.specs.Plans.{lock_view};

    /// Returns the name of the lock.
    pub fn name(&self) -> &str
        ensures { result.now ≡ lock_name (lock_view self.now) }
    {
        match self {
            PlanLock::Read(name) => name.as_str(),
            PlanLock::ReadWrite(name) => name.as_str(),
        }
    }
}

/// The key of the store that a step names, by a label of the plan or by the key's own name.
#[derive(Debug, Drop)]
pub enum StepKey {
    /// The declared key with this label, which a plan that was read has.
    Label(LabelNo),
    /// The key of this name in the global namespace. If it equals a declared key, both are the same
    /// key of the store. In a plan that was read, the name is one word and no label of the plan.
    Named(String),
}

/// A step of a test or of a callback. In a plan that was read, `text` is one word, not empty and
/// without a space, and each context in which the step runs has an `up`-th ancestor.
///
/// A step acts on the context in which its test or callback runs, or on the `up`-th ancestor of it;
/// the ancestor 0 is the context itself. A test, and callbacks before and after all, run in the
/// context of their own node. Callbacks before and after each run in the context of each test at or
/// below their node. The steps call `ExtensionContext.Store`.
#[derive(Debug, Drop)]
pub enum Step {
    /// `put KEY TEXT`: stores a value with this text that is not closeable (`put`).
    Put {
        key: StepKey,
        text: String,
        up: usize,
    },
    /// `put! KEY TEXT`: stores a closeable value with this text (`put`).
    PutCloseable {
        key: StepKey,
        text: String,
        up: usize,
    },
    /// `want KEY TEXT`: looks up (`get`); passes if the value found has this text.
    Want {
        key: StepKey,
        text: String,
        up: usize,
    },
    /// `none KEY`: looks up (`get`); passes if nothing is found.
    None {
        key: StepKey,
        up: usize,
    },
    /// `remove KEY`: removes (`remove`); passes whether or not a value was there.
    Remove {
        key: StepKey,
        up: usize,
    },
    /// `compute KEY TEXT`: computes (`getOrComputeIfAbsent`) by a factory that gives a value with
    /// this text that is not closeable; passes if it was computed or another value was found.
    Compute {
        key: StepKey,
        text: String,
        up: usize,
    },
    /// `compute! KEY TEXT`: does the same with a closeable value.
    ComputeCloseable {
        key: StepKey,
        text: String,
        up: usize,
    },
    /// `computefail KEY TEXT`: computes by a factory that fails with this text; passes if that
    /// fault comes back.
    ComputeFail {
        key: StepKey,
        text: String,
        up: usize,
    },
    /// `fail TEXT`: the test or callback fails with this text.
    Fail {
        text: String,
    },
    /// `abort TEXT`: the test or callback aborts with this text.
    Abort {
        text: String,
    },
}

impl Step {
    ghost use Rattle.std.specs.Prelude.{option_map};
    ghost use Rattle.ext_plan.specs.Plans.{parts_view, step_key_view, step_view};
    ghost use Rattle.ext_plan.specs.Steps.{height, step_key};

    /// Takes the step apart. A step `none` or `remove` has the empty text.
    pub fn parts(&self) -> StepParts<'_>
        ensures { parts_view result ≡ step_view self.now }
    {
        let (word, key, text, up) = match self {
            Step::Put { key, text, up } => (Word::Put, key, text.as_str(), *up),
            Step::PutCloseable { key, text, up } => (Word::PutCloseable, key, text.as_str(), *up),
            Step::Want { key, text, up } => (Word::Want, key, text.as_str(), *up),
            Step::None { key, up } => (Word::None, key, "", *up),
            Step::Remove { key, up } => (Word::Remove, key, "", *up),
            Step::Compute { key, text, up } => (Word::Compute, key, text.as_str(), *up),
            Step::ComputeCloseable { key, text, up } => {
                (Word::ComputeCloseable, key, text.as_str(), *up)
            }
            Step::ComputeFail { key, text, up } => (Word::ComputeFail, key, text.as_str(), *up),
            Step::Fail { text } => return StepParts::Fail(text.as_str()),
            Step::Abort { text } => return StepParts::Abort(text.as_str()),
        };
        StepParts::Keyed(KeyedStep {
            word,
            key,
            text,
            up,
        })
    }

    /// Returns the key that the step names; `None` for `fail` and `abort`, which name none.
    pub fn key(&self) -> Option<&StepKey>
        ensures { option_map (λ k. step_key_view k.now) result ≡ step_key (step_view self.now) }
    {
        match self.parts() {
            StepParts::Keyed(step) => Some(step.key),
            StepParts::Fail(_) | StepParts::Abort(_) => None,
        }
    }

    /// Returns how many contexts up the step acts; 0 for `fail` and `abort`.
    pub fn height(&self) -> usize
        ensures { result ≡ height (step_view self.now) }
    {
        match self.parts() {
            StepParts::Keyed(step) => step.up,
            StepParts::Fail(_) | StepParts::Abort(_) => 0,
        }
    }
}
