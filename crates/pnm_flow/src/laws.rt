//! A law of runs over threads. It is about the definitions alone, as the contract of a function that does nothing.

ghost use Rattle.pnm_flow.specs.SentMessages.{WhatTheToolsSent};

/// What the tools of a run over threads may have sent, by its answer alone. If the answer isn't a fault of the input or
/// of a ring's end, and the writer didn't fail, there are messages between the tools by which each tool has ended as a
/// stage, or as a stage of lanes, and the last messages were written. The first fault of these ends is the answer.
pub fn what_the_tools_sent()
    ensures { WhatTheToolsSent }
{}
