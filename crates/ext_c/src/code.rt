//! What a call answers.
ghost use Rattle.std.specs.Prelude.{◌≡◌};
ghost use Rattle.ext_c.specs.Codes.{close_code, code_number, id_code, keep_code, refusal_code, tree_code};

use ext_closing::CloseFault;
use ext_ids::IdFault;
use ext_store::{KeepFault, Refusal};
use ext_tree::TreeFault;

/// What a call says. C sees its number, which `specs/Codes` has.
#[derive(Clone, Copy, Debug, PartialEq, Eq)]
pub enum Code {
    /// What the call is for has happened.
    Done,
    /// Nothing stands where the call looked.
    Absent,
    /// A kept fault stands where the call looked.
    FaultStands,
    /// The lane has claimed the place: the factory is to run.
    Run,
    /// The claim was given up, since the store keeps no faults.
    GivenUp,
    /// A factory runs for the context that decides the answer.
    Busy,
    /// The place that decides the answer is sealed: its context is closed or is being closed.
    Closed,
    /// Other lanes were in the way: they made at least as many events as a call has tries.
    Contended,
    /// There were too many events in this context under this key.
    Exhausted,
    /// All of the store's places for keys hold other keys.
    DirectoryFull,
    /// All numbers of the store were drawn.
    NumbersFull,
    /// There is no memory for what the call needs.
    NoMemory,
    /// A place did not take the value or the key. Tests never meet it.
    Unplaced,
    /// The thread does not find the handle of a number that the lane met and did not know. What the
    /// call is for has happened, except for a close, which is refused. Tests never meet it.
    Unshown,
    /// The lane did not know a value that remains. It knows it now, and the close is to be asked
    /// again.
    Unjoined,
    /// The lane has a claim, which must be ended first.
    Claiming,
    /// The lane has no claim to end.
    NoClaim,
    /// The slot is empty: it has no lane.
    NoLane,
    /// This lane closes no context.
    NoCloser,
    /// A slot that was to be filled has a lane already.
    NotEmpty,
    /// The store has no context of this number.
    BadContext,
    /// The store has no place for a key of this number.
    BadKey,
    /// A limit is out of its range.
    BadLimit,
    /// The lengths go beyond the bytes, or there is no text where one is needed.
    BadLengths,
    /// A text is not UTF-8.
    BadText,
    /// A text is not a unique id.
    BadId,
    /// The ids do not form a tree.
    BadTree,
    /// There are more contexts than a store of this size has.
    TooMany,
    /// The caller has room for fewer values than the store has places for keys.
    TooFewPlaces,
}

impl Code {
    /// The number of the code, which C sees.
    #[inline(always)]
    pub(crate) fn number(self) -> u32
        ensures { result ≡ code_number self }
    {
        match self {
            Code::Done => 0,
            Code::Absent => 1,
            Code::FaultStands => 2,
            Code::Run => 3,
            Code::GivenUp => 4,
            Code::Busy => 5,
            Code::Closed => 6,
            Code::Contended => 7,
            Code::Exhausted => 8,
            Code::DirectoryFull => 9,
            Code::NumbersFull => 10,
            Code::NoMemory => 11,
            Code::Unplaced => 12,
            Code::Unshown => 13,
            Code::Unjoined => 14,
            Code::Claiming => 15,
            Code::NoClaim => 16,
            Code::NoLane => 17,
            Code::NoCloser => 18,
            Code::NotEmpty => 19,
            Code::BadContext => 20,
            Code::BadKey => 21,
            Code::BadLimit => 22,
            Code::BadLengths => 23,
            Code::BadText => 24,
            Code::BadId => 25,
            Code::BadTree => 26,
            Code::TooMany => 27,
            Code::TooFewPlaces => 28,
        }
    }

    pub(crate) fn of_refusal(why: Refusal) -> Code
        ensures { result ≡ refusal_code why }
    {
        match why {
            Refusal::Busy(_) => Code::Busy,
            Refusal::Closed(_) => Code::Closed,
            Refusal::Contended => Code::Contended,
            Refusal::Exhausted => Code::Exhausted,
            Refusal::DirectoryFull => Code::DirectoryFull,
            Refusal::Unplaced => Code::Unplaced,
            Refusal::Memory => Code::NoMemory,
        }
    }

    pub(crate) fn of_keep(why: KeepFault) -> Code
        ensures { result ≡ keep_code why }
    {
        match why {
            KeepFault::Memory => Code::NoMemory,
            KeepFault::NumbersFull => Code::NumbersFull,
            KeepFault::Contended => Code::Contended,
            KeepFault::Unplaced => Code::Unplaced,
        }
    }

    pub(crate) fn of_close(why: CloseFault) -> Code
        ensures { result ≡ close_code why }
    {
        match why {
            CloseFault::Busy(_) => Code::Busy,
            CloseFault::Contended(_) => Code::Contended,
            CloseFault::Unjoined(_) => Code::Unjoined,
        }
    }

    pub(crate) fn of_tree(why: TreeFault) -> Code
        ensures { result ≡ tree_code why }
    {
        match why {
            TreeFault::NoRoot
            | TreeFault::TwoRoots(_)
            | TreeFault::NoParent(_)
            | TreeFault::Twice(_) => Code::BadTree,
            TreeFault::TooMany => Code::TooMany,
            TreeFault::Memory => Code::NoMemory,
        }
    }

    pub(crate) fn of_id(why: IdFault) -> Code
        ensures { result ≡ id_code why }
    {
        match why {
            IdFault::Empty
            | IdFault::NoOpen(_)
            | IdFault::NoSeparator(_)
            | IdFault::NoClose(_)
            | IdFault::BadEscape(_)
            | IdFault::RawCharacter(_)
            | IdFault::EmptyPart(_)
            | IdFault::TooDeep => Code::BadId,
            IdFault::Memory => Code::NoMemory,
        }
    }
}
