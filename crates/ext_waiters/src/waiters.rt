//! The lanes that wait, and a wait that has begun.
ghost use Rattle.std.specs.Prelude.{◌≡◌, false, not, true};

use crossbeam_utils::sync::{EventCount, Key};
use std::marker::Model;
use std::sync::Wait;

/// The lanes that wait for something, shared by reference between those that wait and those that
/// end it.
#[derive(Drop)]
pub struct Waiters {
    ended: EventCount,
}

impl Waiters {
    /// Makes waiters among which no lane waits yet.
    pub const fn new() -> Waiters {
        Waiters {
            ended: EventCount::new(),
        }
    }

    /// Wakes all sleeping lanes, and keeps those that have announced themselves from falling
    /// asleep. Call it after what they wait for has ended. If no lane has announced itself, it is
    /// one atomic load.
    pub fn wake_all(&self) {
        self.ended.notify_all();
    }

    /// Begins a wait, in which nothing is announced yet.
    pub fn begin(&self) -> Waiting<'_>
        ensures { result ≡ false }
    {
        Waiting {
            waiters: self,
            announced: None,
        }
    }
}

/// A lane's wait, from its first try to its last. Once it is dropped, the lane waits no longer.
/// Contracts see whether the lane has announced that it waits, and is to try once more before it
/// sleeps.
#[derive(Drop)]
pub struct Waiting<'a> {
    waiters: &'a Waiters,
    announced: Option<Key<'a>>,
}

impl<'a> Model for Waiting<'a> {
    ghost use Rattle.std.specs.Prelude.{Bool, is_some};

    ghost Value = { Bool };

    ghost view = { λ w. is_some w.announced };
}

impl<'a> Waiting<'a> {
    /// Whether the lane has announced that it waits.
    pub fn is_announced(&self) -> bool
        ensures { result ≡ self.now }
    {
        self.announced.is_some()
    }

    /// Announces that the lane waits; the lane has to try once more before it sleeps. It takes no
    /// runtime, so it does not sleep.
    pub fn announce(&mut self)
        ensures { self.new ≡ true }
    {
        self.announced = Some(self.waiters.ended.prepare_wait());
    }

    /// Sleeps until `wake_all` is called, unless it was called since the lane announced itself. It
    /// may wait. The lane must have announced itself, and should have tried once more since then.
    ///
    /// That second try is why no wake is missed. A lane that ends something ends it first, and then
    /// reads whether any lane has announced itself. Either it finds this lane, and keeps it from
    /// sleeping or wakes it; or this lane announced itself later, and its second try finds that the
    /// thing has ended.
    pub fn sleep<R: Wait>(&mut self, rt: &R)
        requires { self.old ≡ true }
        ensures { self.new ≡ false }
    {
        match self.announced.take() {
            Some(key) => key.wait(rt),
            None => unreachable!(),
        }
    }

    /// Pauses between two tries: announces that the lane waits, or sleeps if that is announced and
    /// the lane has tried once more since. After a sleep the lane has to announce itself anew. It
    /// may wait.
    pub fn pause<R: Wait>(&mut self, rt: &R)
        ensures { self.new ≡ not self.old }
    {
        if self.is_announced() {
            self.sleep(rt);
        } else {
            self.announce();
        }
    }
}
