//! A value that tests share, and its key.

use ext_store::StoreValue;
use ext_tree::{Key, Namespace};
use std::alloc::Global;

/// A server, which an extension makes once, and all tests below find.
#[derive(Debug, Drop, PartialEq, Eq)]
pub(crate) struct Server {
    pub(crate) port: u16,
}

impl StoreValue for Server {
    ghost use Rattle.std.specs.Prelude.{true};

    ghost is_closeable = { λ _. true };

    fn closeable(&self) -> bool {
        true
    }
}

/// The key of the server; `None` where there is no memory.
pub(crate) fn server_key(alloc: Global) -> Option<Key> {
    let namespace = Namespace::create(alloc, &["web"]).ok()?;
    Key::new(alloc, namespace, "server").ok()
}
