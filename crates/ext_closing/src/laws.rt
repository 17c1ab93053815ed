//! What is true of closes that are asked again.
ghost use Rattle.ext_closing.specs.Closes.{AskedAgainIsOne};

use crate::CloseAction;
use ext_store::StoreValue;

/// Proves that closes of a context that were refused, for whatever reasons, and then one that is
/// `Ok`, are one close that is `Ok`. The first lane's events are seals of keys, each key once, and
/// only the last of these closes called the action.
pub fn close_laws<V: StoreValue + Drop, A: CloseAction<V>>()
    ensures { AskedAgainIsOne V.is_closeable A.close_gives }
{}
