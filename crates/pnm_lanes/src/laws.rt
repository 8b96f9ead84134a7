//! Laws of lanes. Each stands over the definitions alone, as the contract of a function that does nothing.

ghost use Rattle.pnm_lanes.specs.Deals.{LongestPrefixIsDealt};
ghost use Rattle.pnm_lanes.specs.Lanes.{LanesAreAStage};
ghost use Rattle.pnm_lanes.specs.LaneLaws.{StreamsAreDealt, DueIsDealt, ResultsAreDealt, GatheredIsDue};
ghost use Rattle.pnm_lanes.specs.LaneLaws.{RefusalsAreDealt, DueSoFarIsDealt};
ghost use Rattle.pnm_lanes.specs.declared.lane.TheConstants.{MAX_LANES};
ghost use Rattle.std.specs.Prelude.{◌≡◌};

/// What was sent to a lane is a prefix of what is dealt to it of the longest lawful prefix of the messages that were
/// received.
pub fn longest_prefix_is_dealt()
    ensures { LongestPrefixIsDealt }
{}

/// The messages of a stream, dealt to a lane, are those of the images that the lane sees.
pub fn streams_are_dealt()
    ensures { StreamsAreDealt }
{}

/// What is due from a row-wise tool for the images that a lane sees is what the lane gets of what is due for
/// the images themselves.
pub fn due_is_dealt()
    ensures { DueIsDealt }
{}

/// If a row-wise tool refuses no image that a lane sees, it refuses no image at all, and the results that the lane
/// makes are what the lane gets of the results.
pub fn results_are_dealt()
    ensures { ResultsAreDealt }
{}

/// What is gathered from the lanes of a tool is a prefix of what is due, if it is a prefix of the stream of the results
/// and ends only as the lanes do.
pub fn gathered_is_due()
    ensures { GatheredIsDue }
{}

/// The first head that a row-wise tool refuses of what a lane gets is dealt from the first head that it refuses,
/// by the same fault.
pub fn refusals_are_dealt()
    ensures { RefusalsAreDealt }
{}

/// What is due so far from a row-wise tool for the images that a lane sees is what the lane gets of that for the images
/// themselves.
pub fn due_so_far_is_dealt()
    ensures { DueSoFarIsDealt }
{}

/// A thread that deals rows to lanes, a row-wise tool at work in each lane, and a thread that gathers what they make:
/// what they have received and sent together is what one stage of the tool may have, by how they have ended.
pub fn lanes_are_a_stage()
    ensures { LanesAreAStage }
{}

/// The limit of lanes as a number: the definitions take it from the code, by its name.
pub fn limits_are()
    ensures lanes { MAX_LANES ≡ 8 }
{}
