//! Laws of tools and of their answers. Each law is about the definitions alone, and is the contract of a function that
//! does nothing.

ghost use Rattle.pnm_tools.specs.Answers.{FullAnswerIsTheStream};
ghost use Rattle.pnm_tools.specs.Dealing.{RowWiseToolsCommuteWithDealing, DealtExamplesHold};
ghost use Rattle.pnm_tools.specs.Laws.{HeadsAreRefusedByName, QuarterTurnsAddUp, ResultsAreImages};
ghost use Rattle.pnm_tools.specs.Laws.{SamplesAreByTheFormula, SamplesAreNearest, StreamsAreAnswered};
ghost use Rattle.pnm_tools.specs.Laws.{FirstFaultIsTheRefusal, AnswersAreDue};
ghost use Rattle.pnm_tools.specs.declared.limits.TheConstants.{MAX_EXTENT, MAX_TOOLS};
ghost use Rattle.std.specs.Prelude.{◌≡◌};

/// A full answer to a stream is the tool's stream: the results of all its images, none of which is
/// refused.
pub fn full_answer_is_the_stream()
    ensures { FullAnswerIsTheStream }
{}

/// A tool refuses a head as cut outside, as a plane outside or as too large, but never for want of memory. It refuses a
/// head as out of order exactly if the head has no rows and the tool isn't row-wise.
pub fn heads_are_refused_by_name()
    ensures { HeadsAreRefusedByName }
{}

/// The result of an image is an image. It has rows if the image has rows.
pub fn results_are_images()
    ensures { ResultsAreImages }
{}

/// The result of an image has the head that the tool's rule gives and, in each column, row and plane, the sample that
/// the tool's formula gives.
pub fn samples_are_by_the_formula()
    ensures { SamplesAreByTheFormula }
{}

/// Two quarter turns of an image are a half turn, and one counterclockwise and one clockwise give the image back, if
/// the first isn't refused. Each turn is two flips: transposed and then top for bottom, left for right and then top for
/// bottom, and top for bottom and then transposed.
pub fn quarter_turns_add_up()
    ensures { QuarterTurnsAddUp }
{}

/// A rescaled sample is the one nearest to the same share of the new maxval. Halves are rounded up.
pub fn rescaled_samples_are_nearest()
    ensures { SamplesAreNearest }
{}

/// If no tool of a chain in one thread has refused, the chain answers a stream with the stream of its results, and
/// refuses none of its images.
pub fn streams_are_answered()
    ensures { StreamsAreAnswered }
{}

/// Once a stream has passed the tools of a chain, the first of their faults, in the order of the tools, is the chain's
/// refusal, unless memory ran out.
pub fn first_fault_is_the_refusal()
    ensures { FirstFaultIsTheRefusal }
{}

/// Whatever images complete what a chain has received, what it gave is a prefix of the output due for
/// them.
pub fn answers_are_due()
    ensures { AnswersAreDue }
{}

/// The row-wise tools are the ones that commute with dealing. Applied to a lane's share of an image such a tool makes
/// that lane's share of the result, and it refuses the share exactly when it refuses the image, with the same fault.
pub fn row_wise_tools_commute_with_dealing()
    ensures { RowWiseToolsCommuteWithDealing }
{}

/// How small images and lists of messages are dealt.
pub fn dealt_examples_hold()
    ensures { DealtExamplesHold }
{}

/// The limits of options and of chains in numbers. The definitions take them from the code by their names.
pub fn limits_are()
    ensures extent { MAX_EXTENT ≡ 16777216 }
    ensures tools { MAX_TOOLS ≡ 64 }
{}
