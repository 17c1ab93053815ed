//! What the steps of a plan say, step by step.
ghost use Rattle.std.specs.Prelude.{◌≡◌};
ghost use Rattle.ext_plan.specs.Plans.{keys_view, step_key_view};
ghost use Rattle.ext_plan.specs.StepCalls.{keys_in, label_of};

use crate::keys::key_number;
use crate::node_step::NodeStep;
use crate::said::{Said, stores};
use ext_plan::{PlanKey, Step, StepKey, StepKeys, StepParts};
use ext_tree::Directory;
use std::alloc::{AllocError, Global};

/// The declared keys of a plan, and the numbers of those that its steps name.
#[derive(Clone, Copy)]
pub(crate) struct Speech<'p> {
    declared: &'p [PlanKey],
    keys: StepKeys<'p>,
    directory: &'p Directory,
    ghost same: { keys_in keys ≡ keys_view declared.now },
}

impl<'p> Speech<'p> {
    ghost use Rattle.std.specs.Prelude.{map, option_map, IfOk};
    ghost use Rattle.ext_plan.specs.Plans.{step_view};
    ghost use Rattle.ext_lint.specs.InnerLists.{declared_in, said_view};
    ghost use Rattle.ext_lint.specs.NodeSteps.{node_step_view};
    ghost use Rattle.ext_lint.specs.Said.{said_by, said_of, stores};

    /// Joins the declared keys, the keys of the store that they name, and the numbers of keys.
    pub(crate) fn of(
        declared: &'p [PlanKey],
        keys: StepKeys<'p>,
        directory: &'p Directory,
    ) -> Speech<'p>
        requires { keys_in keys ≡ keys_view declared.now }
        ensures declared { declared_in result ≡ keys_view declared.now }
        ensures directory { result.directory.now ≡ directory.now }
    {
        Speech {
            declared,
            keys,
            directory,
        }
    }

    /// What the step says; `None` for `fail` and `abort`.
    pub(crate) fn said_of(
        &self,
        alloc: Global,
        step: &'p Step,
    ) -> Result<Option<Said<'p>>, AllocError>
        ensures { IfOk result (λ said. option_map said_view said ≡ said_of (declared_in self.now) self.now.directory.now (step_view step.now)) }
    {
        match step.parts() {
            StepParts::Fail(_) | StepParts::Abort(_) => Ok(None),
            StepParts::Keyed(step) => Ok(Some(Said {
                word: step.word,
                key: key_number(alloc, &self.keys, self.directory, step.key)?,
                name: name_of(self.declared, step.key),
                text: step.text,
            })),
        }
    }

    /// What those of the steps say that store their text. Takes memory for the list.
    pub(crate) fn stored(
        &self,
        alloc: Global,
        node_steps: &[NodeStep<'p>],
    ) -> Result<Vec<Said<'p>>, AllocError>
        ensures { IfOk result (λ v. map said_view v.items ≡ said_by (declared_in self.now) self.now.directory.now stores (map node_step_view node_steps.now)) }
    {
        let mut stored = Vec::new(alloc);
        for node_step in node_steps {
            if let Some(said) = self.said_of(alloc, node_step.step)?
                && stores(said.word)
            {
                stored.push(said)?;
            }
        }
        Ok(stored)
    }
}

/// The word by which a step names its key.
fn name_of<'p>(declared: &'p [PlanKey], key: &'p StepKey) -> &'p str
    ensures { result.now ≡ label_of (keys_view declared.now) (step_key_view key.now) }
{
    match key {
        StepKey::Label(label) => match declared.get(*label) {
            Some(key) => key.label.as_str(),
            None => "",
        },
        StepKey::Named(name) => name.as_str(),
    }
}
