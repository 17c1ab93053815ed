//! The namespace of a key.
ghost use Rattle.std.specs.Prelude.{◌≡◌, ◌<◌, ◌++◌, ◌↔◌, true, false, [], IsTrue, IfOk, IfErr, map, length};
ghost use Rattle.std.specs.Cmp.{partial_equiv_from_equiv};
ghost use Rattle.std.specs.Cmp.Lexicographic.{pointwise};
ghost use Rattle.std.specs.Str.{bytes_eq};
ghost use Rattle.ext_tree.specs.Keys.{global_namespace, created_namespace, appended, texts_of};
ghost use Rattle.ext_tree.specs.InnerIndexing.{last_part};
ghost use Rattle.ext_tree.specs.Traits.{namespace_eq, namespace_eq_equiv, namespace_input, namespaces_Alike};
ghost use Rattle.ext_tree.specs.declared.fault.TreeFault.TheVariants.{Memory};

use crate::TreeFault;
use crate::text::Text;
use std::alloc::{AllocError, Global};
use std::hash::{Hash, Hasher};
use std::marker::Model;

/// A namespace: the global one or a created one, and the parts that were given to it, in order.
///
/// JUnit 5 User Guide, section "Keeping State in Extensions", and Javadoc type
/// `ExtensionContext.Namespace`. Parts are texts (own rule).
#[derive(Debug, Drop)]
pub struct Namespace {
    created: bool,
    // None while no part was given, which needs no allocator.
    parts: Option<Vec<Text>>,
}

impl Model for Namespace {
    ghost use Rattle.ext_tree.specs.Keys.{NamespaceValue, given};

    ghost Value = { NamespaceValue };

    ghost view = { λ n. record { created = n.created; parts = given n.parts } };
}

impl Namespace {
    /// The global namespace, without parts. `ExtensionContext.Namespace.GLOBAL`.
    pub fn global() -> Namespace
        ensures { result ≡ global_namespace }
    {
        Namespace {
            created: false,
            parts: None,
        }
    }

    /// The created namespace with these parts, at least one. Takes memory.
    ///
    /// `Memory` is its only fault. `ExtensionContext.Namespace.create`.
    pub fn create(alloc: Global, parts: &[&str]) -> Result<Namespace, TreeFault>
        requires { 0 < length parts.now }
        ensures value { IfOk result (λ n. n ≡ created_namespace (texts_of parts.now)) }
        ensures memory { IfErr result (λ e. e ≡ Memory) }
    {
        let mut own = Vec::new(alloc);
        push_all(alloc, &mut own, parts)?;
        Ok(Namespace {
            created: true,
            parts: Some(own),
        })
    }

    /// This namespace with further parts after its own; with no further parts, an equal one. Takes
    /// memory.
    ///
    /// `Memory` is its only fault, and this namespace stays as it is. The global namespace with
    /// parts equals no created one (own rule). `ExtensionContext.Namespace.append`.
    pub fn append(&self, alloc: Global, parts: &[&str]) -> Result<Namespace, TreeFault>
        ensures value { IfOk result (λ n. n ≡ appended self.now (texts_of parts.now)) }
        ensures memory { IfErr result (λ e. e ≡ Memory) }
    {
        let mut own = Vec::new(alloc);
        own.extend_with_clones(self.parts())?;
        push_all(alloc, &mut own, parts)?;
        Ok(Namespace {
            created: self.created,
            parts: Some(own),
        })
    }

    // The last part. Empty where there is none.
    pub(crate) fn last_part(&self) -> &[u8]
        ensures { result.now ≡ last_part self.now }
    {
        match self.parts().last() {
            None => &[],
            Some(part) => part.as_bytes(),
        }
    }

    fn parts(&self) -> &[Text]
        ensures { result.now ≡ self.now.parts }
    {
        match &self.parts {
            None => &[],
            Some(parts) => parts.as_slice(),
        }
    }
}

impl Clone for Namespace {
    ghost is_clone = { λ namespace copy. copy ≡ namespace };

    /// An equal namespace. Takes memory, except for the global namespace without parts.
    fn clone(&self) -> Result<Namespace, AllocError> {
        let parts = match &self.parts {
            None => None,
            Some(parts) => Some(parts.clone()?),
        };
        Ok(Namespace {
            created: self.created,
            parts,
        })
    }
}

impl PartialEq for Namespace {
    ghost eq = { namespace_eq };

    ghost laws = { partial_equiv_from_equiv namespace_eq_equiv };

    /// Tests whether both are global or both created, with equal parts in order.
    fn eq(&self, other: &Namespace) -> bool
        ensures exact { result ≡ namespace_eq self.now other.now }
        ensures same { IsTrue result ↔ (self.now ≡ other.now) }
    {
        self.created == other.created && same_parts(self.parts(), other.parts())
    }
}

impl Eq for Namespace {
    ghost laws = { namespace_eq_equiv };
}

impl Hash for Namespace {
    ghost hash_input = { namespace_input };

    ghost respects_eq = { namespaces_Alike.fed };

    fn hash<H: Hasher>(&self, state: &mut H) {
        self.created.hash(state);
        self.parts().hash(state);
    }
}

/// Appends a copy of each part to a list. Takes memory.
fn push_all(alloc: Global, list: &mut Vec<Text>, parts: &[&str]) -> Result<(), AllocError>
    ensures { IfOk result (λ _. list.new.items ≡ list.old.items ++ texts_of parts.now) }
{
    for part in parts {
        list.push(Text::copied(alloc, part)?)?;
    }
    Ok(())
}

// Whether these are the same parts, in order. Usually there are none or one, for which an index is
// faster than an iterator, and a call costs more than the test.
#[inline(always)]
fn same_parts(parts: &[Text], others: &[Text]) -> bool
    ensures { result ≡ pointwise bytes_eq parts.now others.now }
{
    if parts.len() != others.len() {
        return false;
    }
    for i in 0..parts.len() {
        if parts[i] != others[i] {
            return false;
        }
    }
    true
}
