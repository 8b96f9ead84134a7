//! Laws of what is written and read again, of what is answered and of what is due for a text. Each is about the
//! definitions alone, as the contract of a function that does nothing.

ghost use Rattle.pnm_serial.specs.RunExamples.{RunExamplesHold, ResultBeforeRefusalIsWritten};
ghost use Rattle.pnm_serial.specs.ReadAgain.{WrittenIsReadAgain};
ghost use Rattle.pnm_serial.specs.RunFacts.{WhatARunTells, WhatARunInOneThreadTells, WhatARunWithoutListTells};
ghost use Rattle.pnm_serial.specs.RunLaws.{OneAnswerForEachText};
ghost use Rattle.pnm_serial.specs.Verdicts.{OneVerdictForEachText, VerdictsAreOfTexts};

/// If a form can hold images that each have rows, what is written of them is read again as the same images.
pub fn written_is_read_again()
    ensures { WrittenIsReadAgain }
{}

/// For each text and job there is exactly one verdict: the text's fault, a tool's refusal of an image, a fault of the
/// output's form, or none.
pub fn one_verdict_for_each_text()
    ensures { OneVerdictForEachText }
{}

/// A verdict never says what failed around a run, nor that a message came out of order; if it is of the output, it is a
/// fault that a form has.
pub fn verdicts_are_of_texts()
    ensures { VerdictsAreOfTexts }
{}

/// Two runs that do the same job over the same text, in one thread or over several, answer the same if neither answer
/// says what failed around its run.
pub fn one_answer_for_each_text()
    ensures { OneAnswerForEachText }
{}

/// What a run's answer tells, in one thread or over several: the facts for each case of the answer. And what holds if
/// there is no memory for the list of the tools: nothing is read or written.
pub fn what_a_run_tells()
    ensures over_threads { WhatARunTells }
    ensures in_one_thread { WhatARunInOneThreadTells }
    ensures without_list { WhatARunWithoutListTells }
{}

/// What the definitions make of small texts and small chains: the images that the texts spell, and the bytes due for
/// them.
pub fn examples_hold()
    ensures { RunExamplesHold }
{}

/// If a tool refuses the second image and all that was due was written, the result of the first image was written.
pub fn result_before_refusal_is_written()
    ensures { ResultBeforeRefusalIsWritten }
{}
