//! The keys of the store that a plan's labels name.
ghost use Rattle.std.specs.Prelude.{◌≡◌, ◌≤◌, ◌<◌, ◌⊎◌, All, Err, IfErr, IfOk, OnOk, length, map, nat_le, string_bytes};
ghost use Rattle.ext_tree.specs.declared.fault.TreeFault.TheVariants as fault;
ghost use Rattle.ext_plan.specs.Plans.{key_view, keys_view, plan_view};
ghost use Rattle.ext_plan.specs.StoreKeys.{named_key, with_key, different_keys, HasParts};
ghost use Rattle.ext_plan.specs.ReadPlans.{NamespacesHaveParts};

use crate::plan::{Plan, PlanKey};
use ext_model::KeyNo;
use ext_tree::{Directory, Key, Namespace, TreeFault};
use std::alloc::{AllocError, Global};

impl PlanKey {
    ghost use Rattle.ext_plan.specs.StoreKeys.{named_key, HasParts};
    ghost use Rattle.ext_plan.specs.Plans.{key_view};

    /// Makes the key of the store that the label names, from the namespace and the name in the
    /// plan. A created namespace has to have a part. Takes memory for both, and fails only as
    /// `Memory`. Source: Javadoc types `ExtensionContext.Store` and `ExtensionContext.Namespace`,
    /// `create`.
    pub fn store_key(&self, alloc: Global) -> Result<Key, TreeFault>
        requires { HasParts (key_view self.now) }
        ensures value { IfOk result (λ k. k ≡ named_key (key_view self.now)) }
        ensures memory { IfErr result (λ e. e ≡ fault.Memory) }
    {
        let namespace = match &self.namespace {
            None => Namespace::global(),
            Some(parts) => {
                let parts = texts_of(alloc, parts.as_slice())?;
                Namespace::create(alloc, parts.as_slice())?
            }
        };
        Key::new(alloc, namespace, self.name.as_str())
    }
}

impl Plan {
    /// Makes the key of the store for each label, in the order of the plan. Each created namespace
    /// has to have a part, as in each plan that was read.
    ///
    /// Takes memory for the keys and for their list, and fails with `AllocError` only if that is
    /// refused. Source: Javadoc type `ExtensionContext.Store`.
    pub fn store_keys(&self, alloc: Global) -> Result<Vec<Key>, AllocError>
        requires { NamespacesHaveParts (plan_view self.now) }
        ensures { IfOk result (λ v. v.items ≡ map named_key (plan_view self.now).keys) }
    {
        store_keys_of(alloc, self.keys.as_slice())
    }
}

/// The key of the store for each label, in order.
fn store_keys_of(alloc: Global, keys: &[PlanKey]) -> Result<Vec<Key>, AllocError>
    requires { All HasParts (keys_view keys.now) }
    ensures { IfOk result (λ v. v.items ≡ map named_key (keys_view keys.now)) }
{
    let mut list = Vec::new(alloc);
    for key in keys {
        match key.store_key(alloc) {
            Ok(key) => list.push(key)?,
            Err(_) => return Err(AllocError),
        }
    }
    Ok(list)
}

/// Tests whether the labels of these keys name at most `most` different keys. Each created
/// namespace has to have a part, and `most` is at most 1,024.
///
/// Takes memory for up to `most` of the keys, and gives it back. Fails with `AllocError` only if
/// that is refused.
pub fn keys_are_few(alloc: Global, keys: &[PlanKey], most: usize) -> Result<bool, AllocError>
    requires parts { All HasParts (keys_view keys.now) }
    requires most { most ≤ 1024 }
    ensures { IfOk result (λ few. few ≡ nat_le (length (different_keys (keys_view keys.now))) most) }
{
    let mut directory = Directory::new(alloc);
    for key in keys {
        match declare(alloc, &mut directory, key, most) {
            Ok(_) => {}
            Err(TreeFault::TooMany) => return Ok(false),
            Err(_) => return Err(AllocError),
        }
    }
    Ok(true)
}

/// The number of the key that a label names, which it is given if it has none.
fn declare(
    alloc: Global,
    directory: &mut Directory,
    key: &PlanKey,
    most: usize,
) -> Result<KeyNo, TreeFault>
    requires parts { HasParts (key_view key.now) }
    requires most { most ≤ 1024 }
    requires few { length directory.old ≤ most }
    ensures keys { OnOk result (directory.new ≡ with_key directory.old (named_key (key_view key.now))) }
    ensures few { OnOk result (length directory.new ≤ most) }
    ensures full { result ≡ Err fault.TooMany → most < length (with_key directory.old (named_key (key_view key.now))) }
    ensures refusal { IfErr result (λ e. (e ≡ fault.TooMany) ⊎ (e ≡ fault.Memory)) }
{
    let key = key.store_key(alloc)?;
    directory.declare(key, most)
}

/// Borrows each text, in order.
fn texts_of<'a>(alloc: Global, texts: &'a [String]) -> Result<Vec<&'a str>, AllocError>
    ensures { IfOk result (λ v. map (λ t. t.now) v.items ≡ map string_bytes texts.now) }
{
    let mut list = Vec::new(alloc);
    for text in texts {
        list.push(text.as_str())?;
    }
    Ok(list)
}
