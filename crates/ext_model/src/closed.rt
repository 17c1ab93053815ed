//! The result of closing a context.
ghost use Rattle.std.specs.Prelude.{◌≡◌, ◌<◌, ◌≤◌, ◌+◌, ◌++◌, ◌∷◌, [], List, Option};
ghost use Rattle.ext_model.specs.declared.look.Fault.{Fault};
ghost use Rattle.ext_model.specs.Closed.{closed_of};

use crate::Fault;

/// The result of closing a context: how many values were closed, and which closes failed.
#[derive(Debug, Drop, PartialEq, Eq)]
pub struct Closed {
    /// How many values were closed, including those whose close failed.
    pub closed: u32,
    /// The fault of the first close that failed.
    pub first_fault: Option<Fault>,
    /// How many closes failed after that one.
    pub more_faults: u32,
    /// Whether the fault of a close tells of a lack (`Fault::tells_lack`).
    pub lacked: bool,
}

impl Closed {
    /// The result before the first close: nothing was closed, and nothing failed.
    pub fn new() -> Closed
        ensures { result ≡ closed_of [] }
    {
        Closed {
            closed: 0,
            first_fault: None,
            more_faults: 0,
            lacked: false,
        }
    }

    /// Counts one more close; `close` is its fault if it failed.
    pub fn add(&mut self, close: Option<Fault>)
        requires room { self.old.closed < 4294967295 }
        requires bounded { self.old.more_faults ≤ self.old.closed }
        ensures counted { (closes : List (Option Fault)) → self.old ≡ closed_of closes → self.new ≡ closed_of (closes ++ close ∷ []) }
        ensures one_more { self.new.closed ≡ self.old.closed + 1 }
        ensures bounded { self.new.more_faults ≤ self.new.closed }
    {
        self.closed += 1;
        let Some(fault) = close else {
            return;
        };
        self.lacked |= fault.tells_lack();
        if self.first_fault.is_some() {
            self.more_faults += 1;
        } else {
            self.first_fault = Some(fault);
        }
    }
}
