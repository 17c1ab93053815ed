//! A key of the store.
ghost use Rattle.std.specs.Prelude.{◌≡◌, ◌<◌, ◌↔◌, IsTrue, IfOk, IfErr};
ghost use Rattle.std.specs.Cmp.{partial_equiv_from_equiv};
ghost use Rattle.ext_tree.specs.Keys.{key_of};
ghost use Rattle.ext_tree.specs.InnerIndexing.{short_hash};
ghost use Rattle.ext_tree.specs.Traits.{key_eq, key_eq_equiv, key_input, keys_Alike};
ghost use Rattle.ext_tree.specs.declared.fault.TreeFault.TheVariants.{Memory};

use crate::text::Text;
use crate::{Namespace, TreeFault};
use std::alloc::{AllocError, Global};
use std::hash::{FoldHasher, Hash, Hasher};
use std::marker::Model;

/// A key of the store: a namespace and a name.
///
/// JUnit 5 User Guide, section "Keeping State in Extensions". Names are texts (own rule).
#[derive(Debug, Drop)]
pub struct Key {
    namespace: Namespace,
    name: Text,
    // By which the notes of a lane find the key, taken when it was made.
    hash: u16,
}

impl Model for Key {
    ghost use Rattle.std.specs.Prelude.{◌≡◌};
    ghost use Rattle.ext_tree.specs.Keys.{KeyValue, key_of};
    ghost use Rattle.ext_tree.specs.InnerIndexing.{short_hash};

    ghost Value = { KeyValue };

    ghost view = { λ k. record { namespace = k.namespace; name = k.name } };

    ghost invariant = { λ k. k.hash ≡ short_hash (key_of k.namespace k.name) };
}

impl Key {
    /// The key of a namespace and a name, which may be empty. Takes memory.
    ///
    /// `Memory` is its only fault; the namespace is then dropped.
    pub fn new(alloc: Global, namespace: Namespace, name: &str) -> Result<Key, TreeFault>
        ensures value { IfOk result (λ k. k ≡ key_of namespace name.now) }
        ensures memory { IfErr result (λ e. e ≡ Memory) }
    {
        let name = Text::copied(alloc, name)?;
        let hash = hash_of(&namespace, &name);
        Ok(Key {
            namespace,
            name,
            hash,
        })
    }

    // A hash of the name and of the last part of the namespace, which other keys may share.
    pub(crate) fn short_hash(&self) -> usize
        ensures value { result ≡ short_hash self.now }
        ensures small { result < 65536 }
    {
        usize::from(self.hash)
    }
}

impl Clone for Key {
    ghost is_clone = { λ key copy. copy ≡ key };

    /// An equal key. Takes memory for the name, and for the parts of the namespace.
    fn clone(&self) -> Result<Key, AllocError> {
        let namespace = self.namespace.clone()?;
        let name = self.name.clone()?;
        Ok(Key {
            namespace,
            name,
            hash: self.hash,
        })
    }
}

impl PartialEq for Key {
    ghost eq = { key_eq };

    ghost laws = { partial_equiv_from_equiv key_eq_equiv };

    /// Tests whether both the namespaces and the names are equal.
    // Each look-up by a key makes one such test.
    #[inline(always)]
    fn eq(&self, other: &Key) -> bool
        ensures exact { result ≡ key_eq self.now other.now }
        ensures same { IsTrue result ↔ (self.now ≡ other.now) }
    {
        self.namespace == other.namespace && self.name == other.name
    }
}

impl Eq for Key {
    ghost laws = { key_eq_equiv };
}

impl Hash for Key {
    ghost hash_input = { key_input };

    ghost respects_eq = { keys_Alike.fed };

    fn hash<H: Hasher>(&self, state: &mut H) {
        self.namespace.hash(state);
        self.name.hash(state);
    }
}

// The hash of the key of a namespace and a name.
fn hash_of(namespace: &Namespace, name: &Text) -> u16
    ensures { result ≡ short_hash (key_of namespace.now name.now) }
{
    let mut hasher = FoldHasher::default();
    hasher.write(name.as_bytes());
    hasher.write(namespace.last_part());
    (hasher.finish() % 65_536) as u16
}
