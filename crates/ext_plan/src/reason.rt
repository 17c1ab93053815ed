//! Why a step's call of the store was refused.
ghost use Rattle.std.specs.Prelude.{◌≡◌};

/// Why a step's call of the store was refused. Source: Javadoc type `NamespacedHierarchicalStore`
/// for closed stores; the others are own rules.
#[derive(Clone, Copy, Debug, PartialEq, Eq)]
pub enum Reason {
    /// A factory is computing a value for the place, printed as `busy`.
    Busy,
    /// The context is closed, printed as `closed`.
    Closed,
    /// The place has changed as often as it can, printed as `exhausted`.
    Exhausted,
    /// All numbers of the store have been drawn, printed as `numbers full`.
    NumbersFull,
    /// All places of the store are other keys', printed as `directory full`.
    DirectoryFull,
    /// The value or the key could not be placed, printed as `unplaced`.
    Unplaced,
    /// The value or fault that was found is not shown, printed as `not shown`.
    NotShown,
}

impl Reason {
    ghost use Rattle.ext_plan.specs.StepTexts.{words};

    /// Returns the words for the reason, as in `NAME KEY: REASON`.
    pub fn words(&self) -> &'static str
        ensures { result.now ≡ words self.now }
    {
        match self {
            Reason::Busy => "busy",
            Reason::Closed => "closed",
            Reason::Exhausted => "exhausted",
            Reason::NumbersFull => "numbers full",
            Reason::DirectoryFull => "directory full",
            Reason::Unplaced => "unplaced",
            Reason::NotShown => "not shown",
        }
    }
}
