//! What is true of every lane and of all calls on it.
ghost use Rattle.ext_store.specs.FrameLaws.{FramesAreCalls, FramesCompose, FramesKeep, FrontsAreSeen, MetLanesShareHistory, NoCallHasFrame, NoCallIsCall};

/// Proves the laws of frames: what a sequence of calls does to a lane, and what lanes have seen.
pub fn frame_laws<V>()
    ensures none { NoCallHasFrame V }
    ensures compose { FramesCompose V }
    ensures kept { FramesKeep V }
    ensures no_call { NoCallIsCall }
    ensures calls { FramesAreCalls V }
    ensures fronts { FrontsAreSeen }
    ensures met { MetLanesShareHistory }
{}
