//! The words of the command line.
use crate::fault::SoakFault;
use std::rt::Env;

/// What `--help` prints.
pub(crate) const USAGE: &str = "\
usage: tool_soak SEED LANES ROUNDS SECONDS
       tool_soak --help

Makes ROUNDS (1 to 1000000) rounds, and begins none after SECONDS (1 to 86400). In each of them LANES
(3 to 16) lanes make calls of one store, drawn from SEED (0 to 4294967295), and their replies are
checked afterwards. The exit status is 0 where each reply is as it has to be, else 1.
";

/// How many rounds of how many lanes are made, for how many seconds, from which seed.
#[derive(Clone, Copy)]
pub(crate) struct Soak {
    pub(crate) seed: u32,
    pub(crate) lanes: usize,
    pub(crate) rounds: u32,
    pub(crate) seconds: u32,
}

/// What the words ask for.
#[derive(Clone, Copy)]
pub(crate) enum Request {
    /// The usage alone.
    Usage,
    /// A soak.
    Rounds(Soak),
    /// They are refused.
    Refused(SoakFault),
}

/// What the command line asks for. Takes memory for the words. Own rule.
pub(crate) fn request_of<R: Env + AllocGlobal>(rt: &R) -> Request {
    match words_of(rt) {
        Some(words) => request_in(words.as_slice()),
        None => Request::Refused(SoakFault::Words),
    }
}

/// The program's name and the words after it, where they are texts and there is memory for them.
fn words_of<R: Env + AllocGlobal>(rt: &R) -> Option<Vec<String>> {
    let words = std::env::args(rt).ok()?;
    words.collect(rt.alloc()).ok()
}

fn request_in(words: &[String]) -> Request {
    match words {
        [_, help] if help.as_str() == "--help" => Request::Usage,
        [_, seed, lanes, rounds, seconds] => soak_in(seed, lanes, rounds, seconds),
        _ => Request::Refused(SoakFault::Words),
    }
}

fn soak_in(seed: &str, lanes: &str, rounds: &str, seconds: &str) -> Request {
    let (Some(seed), Some(lanes)) = (number_in(seed, 0, u32::MAX), number_in(lanes, 3, 16)) else {
        return Request::Refused(SoakFault::Words);
    };
    let rounds = number_in(rounds, 1, 1_000_000);
    let (Some(rounds), Some(seconds)) = (rounds, number_in(seconds, 1, 86_400)) else {
        return Request::Refused(SoakFault::Words);
    };
    Request::Rounds(Soak {
        seed,
        lanes: lanes as usize,
        rounds,
        seconds,
    })
}

/// The number that the word has, from the least to the greatest.
fn number_in(word: &str, least: u32, greatest: u32) -> Option<u32> {
    let number: u32 = word.parse().ok()?;
    (least..=greatest).contains(&number).then_some(number)
}
