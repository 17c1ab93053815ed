//! Many rounds of lanes that make all calls of one store at once, at random, with their replies
//! checked afterwards. Own rule.
//!
//! `SEED LANES ROUNDS SECONDS` says which; without words that it knows it is refused. It prints one
//! line, which is the same whatever the schedule. The exit status is 0, or 1 where a reply is
//! wrong, 2 where the words are refused, or 3 where the soak could not be made.
#![tactic(auto)]

mod calls;
mod chance;
mod checks;
mod closing;
mod fault;
mod mark;
mod moving;
mod opening;
mod race;
mod replies;
mod round;
mod words;

use fault::SoakFault;
use race::make_races;
use round::make_round;
use std::process::ExitCode;
use std::sync::Wait;
use std::thread::Threads;
use std::time::{Clock, Duration, Instant};
use words::{Request, Soak, USAGE, request_of};

fn main(rt: HostRuntime) -> ExitCode {
    match done(&rt, request_of(&rt)) {
        Ok(()) => ExitCode::from(0),
        Err(fault) => {
            let text = fault.text();
            let _ = eprintln!(rt; "tool_soak: {text}");
            ExitCode::from(fault.status())
        }
    }
}

/// Does what the words ask.
fn done<R: Threads + Sync + Wait + Clock + AllocGlobal + Print>(
    rt: &R,
    request: Request,
) -> Result<(), SoakFault> {
    match request {
        Request::Usage => print!(rt; "{USAGE}").or(Err(SoakFault::Output)),
        Request::Rounds(soak) => make_and_tell(rt, soak),
        Request::Refused(fault) => Err(fault),
    }
}

/// Makes the rounds, and prints how many were made.
fn make_and_tell<R: Threads + Sync + Wait + Clock + AllocGlobal + Print>(
    rt: &R,
    soak: Soak,
) -> Result<(), SoakFault> {
    let rounds = make_rounds(rt, soak)?;
    let lanes = soak.lanes;
    println!(rt; "tool_soak: {rounds} rounds of {lanes} lanes, each reply as it has to be").or(Err(
        SoakFault::Output,
    ))
}

/// Makes the rounds, and begins none once the time is over. Answers how many were made.
fn make_rounds<R: Threads + Sync + Wait + Clock + AllocGlobal>(
    rt: &R,
    soak: Soak,
) -> Result<u32, SoakFault> {
    let started = now(rt)?;
    let most = Duration::from_secs(u64::from(soak.seconds));
    for round in 0..soak.rounds {
        if now(rt)?.duration_since(started) >= most {
            return Ok(round);
        }
        make_calls_and_races(rt, soak, round)?;
    }
    Ok(soak.rounds)
}

fn now<R: Clock>(rt: &R) -> Result<Instant, SoakFault> {
    Instant::now(rt).or(Err(SoakFault::Clock))
}

/// Makes a round and its races.
fn make_calls_and_races<R: Threads + Sync + Wait + AllocGlobal>(
    rt: &R,
    soak: Soak,
    round: u32,
) -> Result<(), SoakFault> {
    make_round(rt, soak, round)?;
    make_races(rt, soak, round)
}
