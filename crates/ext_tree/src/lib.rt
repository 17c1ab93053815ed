//! Contexts in a tree by their unique ids, and keys with numbers by their namespaces and names.
//!
//! Contracts see a `Tree` as the list of its contexts' ids, and a `Key` as its namespace and name.
//!
//! Two types give each of up to 1,024 keys a number. A `Directory` has one owner, which declares
//! one key after another; contracts see the list of its keys. `KeyPlaces` are shared by several
//! lanes, each of which may number a key at any time, without a lock; contracts see the list of the
//! names of the places. `KeyNotes` are what one lane knows of each place.
#![tactic(auto)]

mod building;
mod directory;
mod fault;
mod key;
mod key_entry;
mod key_fault;
mod key_index;
mod key_notes;
mod key_places;
mod key_walk;
mod laws;
mod learnt;
mod namespace;
mod path;
mod text;
mod trail;
mod tree;

pub use directory::Directory;
pub use fault::TreeFault;
pub use key::Key;
pub use key_fault::KeyFault;
pub use key_notes::KeyNotes;
pub use key_places::KeyPlaces;
pub use laws::{key_laws, key_place_laws, tree_laws};
pub use namespace::Namespace;
pub use path::Path;
pub use tree::Tree;
