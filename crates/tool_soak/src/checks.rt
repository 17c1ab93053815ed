//! What is checked once all lanes of a round have ended: each reply against those of all other
//! lanes.
use crate::fault::SoakFault;
use crate::mark::Mark;
use crate::opening::{
    CLASS, CONTEXTS, KEYS, LAST_IN_CLASS, MANY_LATE, MOVED, NUMBERS, Place, STANDING,
};
use crate::replies::{Log, Reply};
use ext_model::KeyNo;
use std::alloc::{AllocError, Global};

/// How many keys have a number at most.
const NUMBERS_OF_KEYS: usize = 1_024;

/// What became of a number.
#[derive(Clone, Copy)]
struct Fate {
    drawn: u32,
    stored: Option<Place>,
    closeable: bool,
    /// The mark of the fault whose number it is; a value's has none.
    fault: Option<Mark>,
    left: bool,
}

/// The fates of all numbers, how often each place was filled and not emptied, what the lanes told
/// of keys, and the first fault.
#[derive(Drop)]
pub(crate) struct Checks {
    fates: Vec<Fate>,
    standing: Vec<u32>,
    /// What was told first of each key: its number, or that it has none.
    named: Vec<Option<Option<KeyNo>>>,
    /// The key of each number, as it was told first.
    holders: Vec<Option<usize>>,
    fault: Option<SoakFault>,
}

/// So many zeros.
fn zeros(alloc: Global, count: usize) -> Result<Vec<u32>, AllocError> {
    let mut all = Vec::new(alloc);
    for _ in 0..count {
        all.push(0)?;
    }
    Ok(all)
}

/// So many times nothing.
fn nothing<T: Copy>(alloc: Global, count: usize) -> Result<Vec<Option<T>>, AllocError> {
    let mut all = Vec::new(alloc);
    for _ in 0..count {
        all.push(None)?;
    }
    Ok(all)
}

/// Numbers from 0 to the greatest, of which nothing is known yet.
fn unknown_fates(alloc: Global) -> Result<Vec<Fate>, AllocError> {
    let mut fates = Vec::new(alloc);
    for _ in 0..NUMBERS + 1 {
        fates.push(Fate {
            drawn: 0,
            stored: None,
            closeable: false,
            fault: None,
            left: false,
        })?;
    }
    Ok(fates)
}

/// Counts so many more at the place, which may wrap.
fn count(counts: &mut [u32], place: Place, more: u32) {
    let at = place.context.saturating_mul(KEYS).saturating_add(place.key);
    if let Some(word) = counts.get_mut(at) {
        *word = word.wrapping_add(more);
    }
}

/// Whether each number up to the last was drawn once. The first fate is that of 0, which is none.
fn were_drawn_once(fates: &[Fate]) -> bool {
    let Some((_, fates)) = fates.split_first() else {
        return false;
    };
    let (mut right, mut last) = (true, 1);
    for fate in fates {
        right = right && fate.drawn <= last;
        last = fate.drawn;
    }
    right
}

/// Whether each place was filled as often as it was emptied, or once more.
fn stand_at_most_once(standing: &[u32]) -> bool {
    let mut right = true;
    for count in standing {
        right = right && *count <= 1;
    }
    right
}

/// Whether a closeable value that was stored is still there.
fn is_closeable_left(fates: &[Fate]) -> bool {
    let mut left = false;
    for fate in fates {
        left = left || (fate.closeable && !fate.left);
    }
    left
}

impl Checks {
    /// Takes memory for each number and each key.
    pub(crate) fn new(alloc: Global) -> Result<Checks, AllocError> {
        Ok(Checks {
            fates: unknown_fates(alloc)?,
            standing: zeros(alloc, CONTEXTS * KEYS)?,
            named: nothing(alloc, KEYS + MANY_LATE)?,
            holders: nothing(alloc, NUMBERS_OF_KEYS)?,
            fault: None,
        })
    }

    /// The first fault that was found.
    pub(crate) fn fault(&self) -> Option<SoakFault> {
        self.fault
    }

    /// Notes the fault unless this is right.
    pub(crate) fn wrong_unless(&mut self, right: bool, fault: SoakFault) {
        if !right && self.fault.is_none() {
            self.fault = Some(fault);
        }
    }

    // ---- what a lane drew and stored

    /// Reads what a lane drew and stored. Its numbers rise.
    pub(crate) fn read_stored(&mut self, log: &Log) {
        self.wrong_unless(log.whole, SoakFault::Memory);
        let mut last = 0;
        for reply in &log.replies {
            last = self.stored_by(*reply, last);
        }
    }

    /// Reads one reply of a lane that drew this number last. Answers the number that it has drawn
    /// last then.
    fn stored_by(&mut self, reply: Reply, last: u32) -> u32 {
        match reply {
            Reply::Kept(number) => self.draw(number, last),
            Reply::Put {
                place,
                number,
                closeable,
                stood,
            } => {
                self.store(place, number, closeable, None);
                if stood.is_none() {
                    count(self.standing.as_mut_slice(), place, 1);
                }
                last
            }
            Reply::Computed {
                place,
                number,
                closeable,
            } => {
                self.store(place, number, closeable, None);
                count(self.standing.as_mut_slice(), place, 1);
                self.draw(number, last)
            }
            Reply::FaultKept {
                place,
                number,
                mark,
            } => {
                self.store(place, number, false, Some(mark));
                count(self.standing.as_mut_slice(), place, 1);
                self.draw(number, last)
            }
            Reply::Named { key, number } => {
                self.name(key, number);
                last
            }
            Reply::Wrong(fault) => {
                self.wrong_unless(false, fault);
                last
            }
            _ => last,
        }
    }

    fn draw(&mut self, number: u32, last: u32) -> u32 {
        self.wrong_unless(last < number, SoakFault::Numbers);
        match self.fates.get_mut(number as usize) {
            Some(fate) => fate.drawn = fate.drawn.wrapping_add(1),
            None => self.wrong_unless(false, SoakFault::Numbers),
        }
        number
    }

    fn store(&mut self, place: Place, number: u32, closeable: bool, fault: Option<Mark>) {
        let Some(fate) = self.fates.get_mut(number as usize) else {
            self.wrong_unless(false, SoakFault::Numbers);
            return;
        };
        let is_first = fate.stored.is_none();
        fate.stored = Some(place);
        fate.closeable = closeable;
        fate.fault = fault;
        self.wrong_unless(is_first, SoakFault::Numbers);
    }

    /// A lane told this of the key's number: as all others do, and of no other key.
    fn name(&mut self, key: usize, number: Option<KeyNo>) {
        let is_same = match self.named.get_mut(key) {
            Some(first) => *first.get_or_insert(number) == number,
            None => false,
        };
        self.wrong_unless(is_same, SoakFault::Keys);
        if let Some(number) = number {
            self.hold(key, number);
        }
    }

    /// The key has this number, as no other key has.
    fn hold(&mut self, key: usize, number: KeyNo) {
        let is_own = match self.holders.get_mut(number) {
            Some(holder) => *holder.get_or_insert(key) == key,
            None => false,
        };
        self.wrong_unless(is_own, SoakFault::Keys);
    }

    // ---- what left, once it is known what was stored

    /// Reads what a lane replaced, removed and closed, and what it found. What it found of the
    /// value that is moved never falls.
    pub(crate) fn read_left(&mut self, log: &Log) {
        let mut last = 0;
        for reply in &log.replies {
            last = self.left_by(*reply, last);
        }
    }

    /// Reads one reply of a lane that found this number last, of the value that is moved. Answers
    /// the one found last then.
    fn left_by(&mut self, reply: Reply, last: u32) -> u32 {
        match reply {
            Reply::Put {
                place,
                stood: Some(number),
                ..
            } => self.leave(place, number),
            Reply::Removed { place, number } => {
                self.leave(place, number);
                count(self.standing.as_mut_slice(), place, u32::MAX);
            }
            Reply::Closed { place, number } => {
                self.leave(place, number);
                let is_fault = self.fault_of(number).is_some();
                self.wrong_unless(!is_fault, SoakFault::Closed);
            }
            Reply::Found {
                key,
                from,
                at,
                number,
            } => {
                self.find(Place { context: at, key }, number);
                if key == MOVED && (CLASS..=LAST_IN_CLASS).contains(&from) {
                    self.wrong_unless(last <= number, SoakFault::Misplaced);
                    return number;
                }
            }
            Reply::FaultMet {
                key,
                at,
                number,
                mark,
            } => {
                self.meet(Place { context: at, key }, number, mark);
                self.wrong_unless(key != STANDING, SoakFault::Missed);
            }
            Reply::Absent { key, from } => {
                let always = key == STANDING
                    || (key == MOVED && (CLASS..=LAST_IN_CLASS).contains(&from));
                self.wrong_unless(!always, SoakFault::Missed);
            }
            _ => {}
        }
        last
    }

    fn leave(&mut self, place: Place, number: u32) {
        let Some(fate) = self.fates.get_mut(number as usize) else {
            self.wrong_unless(false, SoakFault::Numbers);
            return;
        };
        let right = fate.stored == Some(place) && !fate.left;
        fate.left = true;
        self.wrong_unless(right, SoakFault::LeftTwice);
    }

    /// Where the number was stored.
    fn place_of(&self, number: u32) -> Option<Place> {
        match self.fates.get(number as usize) {
            Some(fate) => fate.stored,
            None => None,
        }
    }

    /// The mark of the fault that was kept under the number.
    fn fault_of(&self, number: u32) -> Option<Mark> {
        match self.fates.get(number as usize) {
            Some(fate) => fate.fault,
            None => None,
        }
    }

    fn find(&mut self, place: Place, number: u32) {
        let right = self.place_of(number) == Some(place) && self.fault_of(number).is_none();
        self.wrong_unless(right, SoakFault::Misplaced);
    }

    fn meet(&mut self, place: Place, number: u32, mark: Mark) {
        let right = self.place_of(number) == Some(place) && self.fault_of(number) == Some(mark);
        self.wrong_unless(right, SoakFault::Misplaced);
    }

    // ---- what is left

    /// The first fault, where all replies were read: each number up to the last was drawn once, a
    /// place was filled as often as it was emptied, or once more, and no closeable value that was
    /// stored is still there.
    pub(crate) fn settled(&mut self) -> Option<SoakFault> {
        let once = were_drawn_once(self.fates.as_slice());
        self.wrong_unless(once, SoakFault::Numbers);
        let one = stand_at_most_once(self.standing.as_slice());
        self.wrong_unless(one, SoakFault::TwoFactories);
        let stays = is_closeable_left(self.fates.as_slice());
        self.wrong_unless(!stays, SoakFault::NotClosed);
        self.fault
    }
}
