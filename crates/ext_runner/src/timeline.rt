//! The course of a run over time, noted while it lasts, for its page. Times are microseconds since
//! the run began.
use ext_page::{
    Attempt, Closing, FaultRow, Holders, LEAST_WAIT, NodeLocks, SharedValue, Wait, Waited,
};
use ext_table::{ContextNo, Kind, NodeResult, Status};
use std::alloc::{AllocError, Global};

/// What a call asked for.
#[derive(Clone, Copy)]
struct Asked {
    /// The node that shares it.
    from: ContextNo,
    when: u64,
}

/// Calls of a container, one after another.
#[derive(Clone, Copy)]
struct Calls {
    begun: u64,
    ended: u64,
    has_fault: bool,
}

/// What is known of a node.
#[derive(Clone, Copy)]
struct Course {
    lane: usize,
    started: u64,
    /// How many tests had ended by then.
    ends: usize,
    /// The calls of a container before its children, once those behind them began.
    before: Option<Calls>,
    /// When its attempt began that runs: the first with its first call. Of a container those of its
    /// calls that run.
    begun: Option<u64>,
    /// When the last of its calls ended.
    returned: u64,
    /// Whether a fault came in them.
    has_fault: bool,
    /// Whether the calls of a container behind its children began.
    is_behind: bool,
    /// What the call that runs asked for, until it makes it or is handed it.
    asked: Option<Asked>,
    /// The place of the value that it shares, once it was made.
    value: Option<usize>,
    /// The number of that value, once its maker was handed it.
    number: Option<u32>,
    /// When a close of a value of its context began.
    closes: u64,
}

/// The course of a run.
#[derive(Drop)]
pub(crate) struct Timeline {
    courses: Vec<Course>,
    pub(crate) attempts: Vec<Attempt>,
    pub(crate) faults: Vec<FaultRow>,
    pub(crate) waits: Vec<Wait>,
    holders: Holders,
    pub(crate) values: Vec<SharedValue>,
    /// Whether something was lost for want of memory.
    pub(crate) lost: bool,
}

impl Timeline {
    /// Nothing is known of nodes with these locks. Takes memory.
    pub(crate) fn new(alloc: Global, nodes: Vec<NodeLocks>) -> Result<Timeline, AllocError> {
        let mut courses = Vec::new(alloc);
        for _ in nodes.as_slice() {
            courses.push(Course {
                lane: 0,
                started: 0,
                ends: 0,
                before: None,
                begun: None,
                returned: 0,
                has_fault: false,
                is_behind: false,
                asked: None,
                value: None,
                number: None,
                closes: 0,
            })?;
        }
        Ok(Timeline {
            courses,
            attempts: Vec::new(alloc),
            faults: Vec::new(alloc),
            waits: Vec::new(alloc),
            holders: Holders::new(alloc, nodes),
            values: Vec::new(alloc),
            lost: false,
        })
    }

    pub(crate) fn start(&mut self, node: ContextNo, lane: usize, now: u64) {
        let ends = self.holders.ended();
        if let Some(course) = self.courses.get_mut(node) {
            course.lane = lane;
            course.started = now;
            course.ends = ends;
        }
    }

    /// A call of this kind begins.
    pub(crate) fn call(&mut self, node: ContextNo, kind: Kind, now: u64) {
        let Some(course) = self.courses.get_mut(node) else {
            return;
        };
        if matches!(kind, Kind::AfterAll) {
            course.go_behind();
        }
        if course.begun.is_some() {
            return;
        }
        course.begun = Some(now);
        if !matches!(kind, Kind::BeforeAll | Kind::AfterAll) {
            let kept = self.note_locks(node, now);
            self.keep(kept.is_ok());
        }
    }

    /// A test has its locks. It waited for the last of them if another one kept it meanwhile.
    fn note_locks(&mut self, node: ContextNo, now: u64) -> Result<(), AllocError> {
        let Some(course) = self.courses.get(node) else {
            return Ok(());
        };
        let (lane, begun) = (course.lane, course.started);
        let held = self.holders.begin(node, course.ends)?;
        if let Some(held) = held
            && now.saturating_sub(begun) >= LEAST_WAIT
        {
            self.waits.push(Wait {
                lane,
                node,
                begun,
                ended: now,
                waited: Waited::ForLock(held.lock),
                by: Some(held.by),
            })?;
        }
        Ok(())
    }

    /// The call that runs asks for what the node `from` shares.
    pub(crate) fn ask(&mut self, node: ContextNo, from: ContextNo, now: u64) {
        if let Some(course) = self.courses.get_mut(node) {
            course.asked = Some(Asked { from, when: now });
        }
    }

    /// The call makes what the node `from` shares.
    pub(crate) fn make(&mut self, alloc: Global, node: ContextNo, from: ContextNo, now: u64) {
        let lane = self.lane_of(node);
        let _ = self.take_asked(node);
        let place = self.values.len();
        let kept = self.values.push(SharedValue {
            key: String::new(alloc),
            context: from,
            maker: node,
            lane,
            begun: Some(now),
            ended: now,
            fault: None,
            found: 0,
            closing: None,
            close_fault: None,
        });
        let is_kept = kept.is_ok();
        self.keep(is_kept);
        if is_kept && let Some(course) = self.courses.get_mut(from) {
            course.value = Some(place);
        }
    }

    /// It has made it, or failed to with this fault.
    pub(crate) fn finish_making(&mut self, from: ContextNo, fault: Option<String>, now: u64) {
        if let Some(value) = self.value_of(from) {
            value.ended = now;
            value.fault = fault;
        }
    }

    /// The call was handed what it made for the node `from`: a value of this number.
    pub(crate) fn name_value(&mut self, from: ContextNo, number: u32) {
        if let Some(course) = self.courses.get_mut(from) {
            course.number = Some(number);
        }
    }

    /// The call was handed what another one has made, or the fault with which that failed.
    pub(crate) fn find(&mut self, node: ContextNo, now: u64) {
        let lane = self.lane_of(node);
        let Some(Asked { from, when: asked }) = self.take_asked(node) else {
            return;
        };
        let Some(place) = self.place_of_value(from) else {
            return;
        };
        let Some(value) = self.values.get_mut(place) else {
            return;
        };
        value.found = value.found.saturating_add(1);
        let (maker, made) = (value.maker, value.ended);
        if made > asked && now.saturating_sub(asked) >= LEAST_WAIT {
            let kept = self.waits.push(Wait {
                lane,
                node,
                begun: asked,
                ended: now,
                waited: Waited::ForValue(place),
                by: Some(maker),
            });
            self.keep(kept.is_ok());
        }
    }

    /// A further attempt begins. The first begins with the first call.
    pub(crate) fn try_again(&mut self, node: ContextNo, now: u64) {
        if let Some(course) = self.courses.get_mut(node) {
            course.begun = Some(now);
        }
    }

    /// An attempt failed that is not the last.
    pub(crate) fn fail_attempt(&mut self, node: ContextNo, now: u64) {
        let Some(course) = self.courses.get(node) else {
            return;
        };
        let (lane, begun) = (course.lane, course.begun.unwrap_or(now));
        self.note_attempt(node, lane, begun, now, Status::Failed);
    }

    /// A call of the node failed or aborted.
    pub(crate) fn fail(&mut self, node: ContextNo) {
        if let Some(course) = self.courses.get_mut(node) {
            course.has_fault = true;
        }
    }

    /// A call ended. What it asked for and was not handed had failed.
    pub(crate) fn finish_call(&mut self, node: ContextNo, now: u64) {
        self.find(node, now);
        if let Some(course) = self.courses.get_mut(node) {
            course.returned = now;
        }
    }

    /// A node ended so, and with it the last attempt of a test.
    pub(crate) fn end(&mut self, ran: &NodeResult) {
        let node = ran.node;
        let Some(course) = self.courses.get(node) else {
            return;
        };
        let Course {
            lane,
            before,
            begun,
            returned,
            has_fault,
            ..
        } = *course;
        if let Some(before) = before {
            let status = status_of(ran, before.has_fault);
            self.note_attempt(node, lane, before.begun, before.ended, status);
        }
        if let Some(begun) = begun {
            let status = status_of(ran, has_fault);
            self.note_attempt(node, lane, begun, returned, status);
        }
        if ran.is_test {
            let kept = self.holders.end(node);
            self.keep(kept.is_ok());
        }
    }

    /// The close of a value of a node's context begins.
    pub(crate) fn close(&mut self, node: ContextNo, now: u64) {
        if let Some(course) = self.courses.get_mut(node) {
            course.closes = now;
        }
    }

    /// The close of the value of this number ended, or failed with this fault. It is noted if the
    /// value is what the node shares.
    pub(crate) fn finish_close(
        &mut self,
        node: ContextNo,
        number: u32,
        fault: Option<String>,
        now: u64,
    ) {
        let (lane, begun) = match self.courses.get(node) {
            Some(course) if course.number == Some(number) => (course.lane, course.closes),
            _ => return,
        };
        if let Some(value) = self.value_of(node) {
            value.closing = Some(Closing {
                lane,
                begun,
                ended: now,
            });
            value.close_fault = fault;
        }
    }

    /// A fault came.
    pub(crate) fn add_fault(&mut self, fault: Result<FaultRow, AllocError>) {
        let kept = match fault {
            Ok(fault) => self.faults.push(fault).is_ok(),
            Err(_) => false,
        };
        self.keep(kept);
    }

    fn note_attempt(
        &mut self,
        node: ContextNo,
        lane: usize,
        begun: u64,
        ended: u64,
        status: Status,
    ) {
        let kept = self.attempts.push(Attempt {
            node,
            lane,
            begun,
            ended: ended.max(begun),
            status,
        });
        self.keep(kept.is_ok());
    }

    fn keep(&mut self, is_kept: bool) {
        self.lost |= !is_kept;
    }

    /// What the call that runs asked for, and has not made or been handed.
    fn take_asked(&mut self, node: ContextNo) -> Option<Asked> {
        let course = self.courses.get_mut(node)?;
        course.asked.take()
    }

    fn lane_of(&self, node: ContextNo) -> usize {
        match self.courses.get(node) {
            Some(course) => course.lane,
            None => 0,
        }
    }

    /// The place of the value that a node shares.
    fn place_of_value(&self, node: ContextNo) -> Option<usize> {
        match self.courses.get(node) {
            Some(course) => course.value,
            None => None,
        }
    }

    fn value_of(&mut self, node: ContextNo) -> Option<&mut SharedValue> {
        let place = self.place_of_value(node)?;
        self.values.get_mut(place)
    }
}

impl Course {
    /// A call of a container behind its children begins: those before them are over.
    fn go_behind(&mut self) {
        if self.is_behind {
            return;
        }
        self.is_behind = true;
        self.before = match self.begun {
            Some(begun) => Some(Calls {
                begun,
                ended: self.returned,
                has_fault: self.has_fault,
            }),
            None => None,
        };
        self.begun = None;
        self.has_fault = false;
    }
}

/// The status of an attempt that ended with its node: that of the test. Calls of a container were
/// successful if no fault came in them.
fn status_of(ran: &NodeResult, has_fault: bool) -> Status {
    if ran.is_test || has_fault {
        ran.status
    } else {
        Status::Successful
    }
}
