//! The worked examples of the crew, and what no clause says: that workers run side by side.
//!
//! `squares` shows a call of `ext_crew::run_children`: a job for each item, on two workers. A job
//! may call `run_children` again, with its own share: that is how a tree is run. `all_stay_small`
//! shows a proof about the shares: what each job keeps of its share holds of the slices in the end
//! (`run-keeps` of `proofs/Runs.antt` of `ext_crew`).
ghost use Rattle.std.specs.Prelude.{◌≡◌, ◌<◌, ◌≤◌, length, All};

use crate::gates::{LastGate, MeetingGate, OrderGate};
use crate::same::same;
use ext_crew::{CrewFault, Gate, OpenGate, run_children};
use std::alloc::{AllocError, Global};
use std::sync::Wait;
use std::test::Fail;
use std::thread::Threads;

/// The squares of the items, of which two workers make each in a job of its own.
fn squares<R: Threads + Wait + Sync, G: Gate + Sync>(
    rt: &R,
    alloc: Global,
    items: Vec<u64>,
    gate: &G,
) -> Result<Vec<u64>, CrewFault>
    requires { length items.items ≤ 65536 }
{
    run_children(
        rt,
        alloc,
        &mut [0u8; 2],
        &mut [0u8; 2],
        items,
        &|_index: usize, item: u64, _first: &mut [u8], _second: &mut [u8]| item.wrapping_mul(item),
        gate,
    )
}

/// Two workers square five items: the squares come in the order of the items, and of no items there
/// are none.
/// Tests `run_children`.
#[test]
fn squares_by_two_workers(rt: HostRuntime) -> Result<(), Fail> {
    let alloc: Global = rt.alloc();
    let items = Vec::from_array(alloc, [0u64, 1, 2, 3, 4])?;
    let some = squares(&rt, alloc, items, &OpenGate)?;
    same(&rt, some.as_slice(), &[0, 1, 4, 9, 16], "the squares");
    let none = squares(&rt, alloc, Vec::new(alloc), &OpenGate)?;
    same(&rt, none.len(), 0, "the squares of no items");
    Ok(())
}

/// The gate holds the jobs 0 and 1 until both have started, so two workers run them side by side.
/// Tests `run_children`.
#[test]
fn jobs_0_and_1_meet(rt: HostRuntime) -> Result<(), Fail> {
    let alloc: Global = rt.alloc();
    let items = Vec::from_array(alloc, [0u64, 1, 2, 3, 4])?;
    let gate = MeetingGate::of(2);
    let made = squares(&rt, alloc, items, &gate)?;
    same(&rt, gate.told(), (2, 0), "the gate");
    same(&rt, made.as_slice(), &[0, 1, 4, 9, 16], "the squares");
    Ok(())
}

/// One of two workers is held in job 0 until all others have ended, so the other worker draws them
/// all: with a fixed cut job 2 would wait for job 0.
/// Tests `run_children`.
#[test]
fn job_0_waits_for_all_others(rt: HostRuntime) -> Result<(), Fail> {
    let alloc: Global = rt.alloc();
    let items = Vec::from_array(alloc, [0u64, 1, 2, 3])?;
    let gate = LastGate::new();
    let made = squares(&rt, alloc, items, &gate)?;
    same(&rt, gate.told(), (3, 0), "the gate");
    same(&rt, made.as_slice(), &[0, 1, 4, 9], "the squares");
    Ok(())
}

/// So many numbers, from 0.
fn numbers(alloc: Global, count: u64) -> Result<Vec<u64>, AllocError> {
    let mut numbers = Vec::new(alloc);
    for number in 0..count {
        numbers.push(number)?;
    }
    Ok(numbers)
}

/// Sixteen workers run 65,536 jobs, of which the first two meet: each job is run once, and the last
/// square comes last.
/// Tests `run_children`.
#[test]
fn jobs_0_and_1_meet_among_65536(rt: HostRuntime) -> Result<(), Fail> {
    let items = numbers(rt.alloc(), 65_536)?;
    assert!(rt; items.len() == 65_536, "the items");
    let gate = MeetingGate::of(2);
    let mut first = [0u32; 16];
    let squares = run_children(
        &rt,
        rt.alloc(),
        &mut first,
        &mut [0u8; 16],
        items,
        &|_, item: u64, first: &mut [u32], _: &mut [u8]| {
            for runs in first {
                *runs = runs.wrapping_add(1);
            }
            item.wrapping_mul(item)
        },
        &gate,
    )?;
    same(&rt, gate.told(), (2, 0), "the gate");
    let mut all = 0u64;
    for runs in first {
        all = all.wrapping_add(u64::from(runs));
    }
    same(&rt, all, 65_536, "the jobs of all workers");
    let last = (squares.len(), squares.get(65_535).copied());
    same(&rt, last, (65_536, Some(4_294_836_225)), "the last square");
    Ok(())
}

/// Five lanes are shared by three workers, each of which has to run one job, leaves the job's index
/// in its share and gives the share's length: the lengths are two, two and one, whichever worker
/// runs which job.
/// Tests `run_children`.
#[test]
fn longer_shares_first(rt: HostRuntime) -> Result<(), Fail> {
    let items = Vec::from_array(rt.alloc(), [7u64, 8, 9])?;
    let gate = MeetingGate::of(3);
    let mut first = [7u8; 5];
    let mut second = [7u8; 5];
    let lengths = run_children(
        &rt,
        rt.alloc(),
        &mut first,
        &mut second,
        items,
        &|index: usize, _item: u64, first: &mut [u8], second: &mut [u8]| {
            first.fill(index as u8);
            second.fill(index as u8);
            first.len()
        },
        &gate,
    )?;
    same(&rt, first, second, "the slices");
    same(&rt, gate.told(), (3, 0), "the gate");
    same(&rt, are_shares(first, lengths.as_slice()), true, "shares");
    Ok(())
}

/// Whether the jobs 0, 1 and 2 left their indices in a share of two, one of two and one of one, and
/// told these lengths.
fn are_shares(left: [u8; 5], lengths: &[usize]) -> bool {
    let [a, also_a, b, also_b, c] = left;
    let told = |job: u8| lengths.get(usize::from(job)).copied();
    let mut jobs = [a, b, c];
    jobs.sort_unstable();
    jobs == [0, 1, 2]
        && (also_a, also_b) == (a, b)
        && (told(a), told(b), told(c)) == (Some(2), Some(2), Some(1))
}

/// Two workers run four jobs, and the gate is told of each one's start before it runs and of its
/// end afterwards.
/// Tests `Gate::started` and `Gate::ended`.
#[test]
fn gate_is_told_round_each_job(rt: HostRuntime) -> Result<(), Fail> {
    let items = Vec::from_array(rt.alloc(), [0u64, 1, 2, 3])?;
    let gate = OrderGate::new();
    run_children(
        &rt,
        rt.alloc(),
        &mut [0u8; 2],
        &mut [0u8; 2],
        items,
        &|index: usize, _item: u64, _first: &mut [u8], _second: &mut [u8]| gate.goes(index, 1, 2),
        &gate,
    )?;
    same(&rt, gate.told(), ([3; 4], 0), "the gate");
    Ok(())
}

/// Runs a job for each item, which needs elements up to 100 in its share and leaves such elements
/// there: so all are up to 100 at the end.
fn all_stay_small<R: Threads + Wait + Sync>(
    rt: &R,
    alloc: Global,
    first: &mut [u8],
    second: &mut [u8],
    items: Vec<u64>,
) -> Result<Vec<u64>, CrewFault>
    requires lengths { (0 < length first.old) × (length second.old ≡ length first.old) }
    requires limits { (length first.old ≤ 16) × (length items.items ≤ 65536) }
    requires small { All (λ n. n ≤ 100) first.old }
    ensures small { All (λ n. n ≤ 100) first.new }
{
    let job = |_index: usize, item: u64, first: &mut [u8], _second: &mut [u8]| -> u64
        requires small { All (λ n. n ≤ 100) first.old }
        ensures small { All (λ n. n ≤ 100) first.new }
    {
        first.fill(100);
        item
    };
    let made = run_children(rt, alloc, first, second, items, &job, &OpenGate)?;
    Ok(made)
}

/// Each job keeps the elements of its share at 100 or below, and so they are in the slices at the
/// end.
/// Tests `run_children`.
#[test]
fn an_invariant_of_the_shares_holds_at_the_end(rt: HostRuntime) -> Result<(), Fail> {
    let mut first = [1u8, 2, 3];
    let items = Vec::from_array(rt.alloc(), [7u64])?;
    let made = all_stay_small(&rt, rt.alloc(), &mut first, &mut [0; 3], items)?;
    same(&rt, made.as_slice(), &[7], "the outcome");
    same(&rt, first, [100; 3], "the shares");
    Ok(())
}

#[test]
fn faults_print_as_sentences(rt: HostRuntime) -> Result<(), Fail> {
    for (fault, text) in [
        (CrewFault::Memory, "no memory"),
        (CrewFault::NoThread, "no thread"),
    ] {
        same(&rt, fault.to_string(rt.alloc())?.as_str(), text, text);
    }
    Ok(())
}
