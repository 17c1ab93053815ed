//! Suites of leaves that leave no value.
use crate::outside::{LetGo, Page};
use ext_engine::{LeafSuite, Outcome};
use ext_ids::UniqueId;
use ext_model::{ContextNo, Fault};
use ext_store::{Lane, Store};
use std::alloc::Global;
use std::sync::Wait;
use std::test::Fail;

/// Each test fails.
#[derive(Drop)]
pub(super) struct FailingLeaves;

impl LeafSuite<Page> for FailingLeaves {
    type Action = LetGo;

    fn action(&self, _node: ContextNo) -> LetGo {
        LetGo
    }

    fn run<R: Wait>(
        &self,
        _rt: &R,
        _store: &Store<Page>,
        _node: ContextNo,
        _lane: &mut Lane<Page>,
    ) -> Result<Outcome, Fault> {
        Err(Fault::Memory)
    }
}

/// Adds the id that this text spells.
fn add(alloc: Global, ids: &mut Vec<UniqueId>, text: &str) -> Result<(), Fail> {
    ids.push(UniqueId::parse(alloc, text)?)?;
    Ok(())
}

/// An engine with so many tests.
pub(super) fn flat(alloc: Global, count: usize) -> Result<Vec<UniqueId>, Fail> {
    let mut ids = Vec::new(alloc);
    add(alloc, &mut ids, "[engine:x]")?;
    for test in 0..count {
        let text = format!(in alloc; "[engine:x]/[method:m{test}()]")?;
        add(alloc, &mut ids, text.as_str())?;
    }
    Ok(ids)
}
