//! What the system tells of the threads of a process: a run leaves none.
use crate::page::{Servers, run_page};
use crate::server::server_key;
use std::fs::read_dir;
use std::rt::Files;
use std::thread::sleep;
use std::time::{Clock, Duration};

/// The folder of the threads of this process.
const THREADS: &str = "/proc/self/task";

/// How often the threads are looked at, a thousandth of a second apart.
const LOOKS: u32 = 10_000;

/// How many threads the process has; `None` where the system doesn't tell.
fn thread_count<R: AllocGlobal + Clone + Drop + Files>(rt: &R) -> Option<usize> {
    let mut count = 0usize;
    for thread in read_dir(rt, THREADS).ok()? {
        let _thread = thread.ok()?;
        count = count.saturating_add(1);
    }
    Some(count)
}

/// Whether the process comes to have so many threads in time. One that was joined may be listed for a moment.
fn comes_to<R: AllocGlobal + Clock + Clone + Drop + Files>(rt: &R, count: Option<usize>) -> bool {
    for _ in 0..LOOKS {
        if thread_count(rt) == count {
            return true;
        }
        sleep(rt, Duration::from_millis(1));
    }
    false
}

/// Tests `run_children` and `run_tree`: once a run on four lanes has ended, the process has as many
/// threads as before.
#[test]
fn no_thread_is_left_after_a_run(rt: HostRuntime) {
    let servers = Servers::new();
    let key = server_key(rt.alloc()).expect(&rt, "a key");
    let before = thread_count(&rt);
    assert!(rt; before.is_some(), "the threads");
    let report = run_page(&rt, rt.alloc(), &key, 4, &servers);
    assert!(rt; report.is_ok(), "a report");
    assert!(rt; comes_to(&rt, before), "a thread is left");
}
