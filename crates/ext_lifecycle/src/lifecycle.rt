//! The calls of a node, made in their order.
ghost use Rattle.std.specs.Prelude.{◌≡◌, ◌++◌, ◌+◌, ◌∷◌, [], ◌<◌, ◌^◌, ℕ, Bool, List, length};
ghost use Rattle.ext_lifecycle.specs.Endings.{all_successful};
ghost use Rattle.ext_lifecycle.specs.Lifecycle.{IsRoomy, MakesAll, MakesBefores, MakesCalls, MakesIf, endings_of, tally_of};
ghost use Rattle.ext_lifecycle.specs.declared.outcome.Outcome.{Outcome};

use crate::{Call, Outcome, Tally};

/// An object that makes the calls of a node.
pub trait Caller {
    ghost use Rattle.std.specs.Prelude.{◌≡◌, ℕ};
    ghost use Rattle.ext_lifecycle.specs.declared.call.Call.{Call};
    ghost use Rattle.ext_lifecycle.specs.declared.outcome.Outcome.{Outcome};

    /// When it may make calls.
    ghost ready: { Self → Type 0 };

    /// A number that no call changes: of a caller that holds a `&mut`, that reference's ghost name.
    ghost reference: { Self → ℕ };

    /// What a call does: the caller before it, the call, its outcome, and the caller after it.
    ghost call_gives: { Self → Call → Outcome → Self → Type 0 };

    /// Makes one call and answers its outcome. It has no error: a failed allocation, too, is an
    /// outcome.
    fn call(&mut self, call: &Call) -> Outcome
        requires ready { ready self.old }
        ensures call { call_gives self.old call.now result self.new }
        ensures same_reference { reference self.new ≡ reference self.old }
        ensures ready { ready self.new };
}

/// Makes the calls of a node whose body is a call, such as a test. It runs `run_befores`,
/// `run_body` and `run_afters`, one after another, with one caller and one tally.
///
/// There must be fewer than 2^32 calls, so that all counts are exact. It waits if the caller does.
/// Source: JUnit 5 User Guide, section "Relative Execution Order of User Code and Extensions";
/// which calls are skipped is an own rule.
pub fn run_calls<C: Caller>(befores: &[Call], body: Call, afters: &[Call], caller: &mut C) -> Tally
    requires ready { C.ready caller.old }
    requires few { length befores.now + 1 + length afters.now < 2 ^ 32 }
    ensures calls { (made : List Outcome) × MakesCalls C.call_gives befores.now body afters.now caller.old made caller.new × (result ≡ tally_of made) }
    ensures same_reference { C.reference caller.new ≡ C.reference caller.old }
    ensures ready { C.ready caller.new }
    ensures room { (n : ℕ) → length befores.now + 1 + length afters.now + n < 2 ^ 32 → IsRoomy n result }
{
    let mut tally = run_befores(befores, caller);
    run_body(body, caller, &mut tally);
    run_afters(afters, caller, &mut tally);
    tally
}

/// Makes these before-callbacks, in order, up to and including the first that is not successful.
///
/// There must be fewer than 2^32 of them, so that all counts are exact. It waits if the caller
/// does. Source: JUnit 5 User Guide, section "Relative Execution Order of User Code and
/// Extensions"; that the later ones are skipped is an own rule.
pub fn run_befores<C: Caller>(befores: &[Call], caller: &mut C) -> Tally
    requires ready { C.ready caller.old }
    requires few { length befores.now < 2 ^ 32 }
    ensures calls { (made : List Outcome) × MakesBefores C.call_gives befores.now caller.old made caller.new × (result ≡ tally_of made) }
    ensures same_reference { C.reference caller.new ≡ C.reference caller.old }
    ensures ready { C.ready caller.new }
    ensures room { (n : ℕ) → length befores.now + n < 2 ^ 32 → IsRoomy n result }
{
    let mut tally = Tally::new();
    let mut rest = befores;
    while let Some((call, more)) = rest.split_first() {
        let outcome = caller.call(call);
        let go_on = outcome.verdict.is_successful();
        tally.add(outcome);
        if !go_on {
            break;
        }
        rest = more;
    }
    tally
}

/// Makes the call that is the body of a test if all calls so far were successful, and else none.
///
/// It waits if the caller does.
pub fn run_body<C: Caller>(call: Call, caller: &mut C, tally: &mut Tally)
    requires ready { C.ready caller.old }
    requires room { IsRoomy 1 tally.old }
    ensures calls { (go : Bool) × (made : List Outcome) × MakesIf C.call_gives go call caller.old made caller.new
        × ((before : List Outcome) → tally.old ≡ tally_of before
        → (go ≡ all_successful (endings_of before)) × (tally.new ≡ tally_of (before ++ made))) }
    ensures same_reference { C.reference caller.new ≡ C.reference caller.old }
    ensures ready { C.ready caller.new }
    ensures room { (n : ℕ) → IsRoomy (n + 1) tally.old → IsRoomy n tally.new }
{
    if tally.is_successful() {
        let outcome = caller.call(&call);
        tally.add(outcome);
    }
}

/// Makes all of these after-callbacks, in order, however any call ended.
///
/// It waits if the caller does. Source: JUnit 5 User Guide, section "Relative Execution Order of
/// User Code and Extensions"; that none is skipped is an own rule.
pub fn run_afters<C: Caller>(afters: &[Call], caller: &mut C, tally: &mut Tally)
    requires ready { C.ready caller.old }
    requires room { IsRoomy (length afters.now) tally.old }
    ensures calls { (made : List Outcome) × MakesAll C.call_gives afters.now caller.old made caller.new
        × ((before : List Outcome) → tally.old ≡ tally_of before → tally.new ≡ tally_of (before ++ made)) }
    ensures same_reference { C.reference caller.new ≡ C.reference caller.old }
    ensures ready { C.ready caller.new }
    ensures room { (n : ℕ) → IsRoomy (length afters.now + n) tally.old → IsRoomy n tally.new }
{
    let mut rest = afters;
    while let Some((call, more)) = rest.split_first() {
        let outcome = caller.call(call);
        tally.add(outcome);
        rest = more;
    }
}
