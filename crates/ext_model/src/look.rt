//! What a look-up answers, and why a factory or an action failed.
ghost use Rattle.std.specs.Prelude.{◌≡◌};
ghost use Rattle.ext_model.specs.Lacks.{fault_tells_lack, tells_lack};

use crate::ContextNo;
use thiserror::Error;

/// The answer of a look-up from a context through its ancestors: the nearest of them where anything
/// stands under the key decides.
///
/// JUnit 5 User Guide, section "Keeping State in Extensions", and `ExtensionContext.Store`, `get`.
/// `Fault`, `Busy` and `Closed` are own rules.
#[derive(Clone, Copy, Debug, PartialEq, Eq)]
pub enum Look {
    /// Context `at` decides, and has the value of this number, from 1.
    Found { at: ContextNo, number: u32 },
    /// Context `at` decides: a factory for it failed, and its fault is kept under this number, from
    /// 1.
    Fault { at: ContextNo, number: u32 },
    /// Nothing stands under the key in any of the contexts.
    Absent,
    /// A lane computes a value for the context that decides.
    Busy(ContextNo),
    /// The place of the context that decides is sealed: the context is closed or is being closed.
    Closed(ContextNo),
}

/// Why a factory, an action or a step failed. Prints its text.
#[derive(Debug, Drop, PartialEq, Eq, Error)]
pub enum Fault {
    /// The caller's own text.
    #[error("{0}")]
    Text(String),
    /// An allocation failed.
    #[error("no memory")]
    Memory,
}

impl Fault {
    /// Tests whether it tells that a call of a store lacked something: memory, a number, a key, a
    /// place, or being shown what stood in its place. That is so of `Memory`, of the text `no
    /// memory`, and of a text that ends with `: exhausted`, `: numbers full`, `: directory full`, `:
    /// unplaced` or `: not shown`, as that of a step of a plan does.
    ///
    /// A caller's own text may end so though nothing was lacking. JUnit has no counterpart.
    pub fn tells_lack(&self) -> bool
        ensures { result ≡ fault_tells_lack self.now }
    {
        match self {
            Fault::Memory => true,
            Fault::Text(text) => tells_lack(text.as_str()),
        }
    }
}

/// Tests whether a text is `no memory`, or ends like the fault of a step that lacked something
/// else.
fn tells_lack(text: &str) -> bool
    ensures { result ≡ tells_lack text.now }
{
    let bytes = text.as_bytes();
    text == "no memory"
        || bytes.ends_with(b": exhausted")
        || bytes.ends_with(b": numbers full")
        || bytes.ends_with(b": directory full")
        || bytes.ends_with(b": unplaced")
        || bytes.ends_with(b": not shown")
}
