//! The laws of outputs and of conversations. Each clause is a law of `specs/Laws.antt`, proved. The functions do
//! nothing.

ghost use Rattle.fr_command.specs.Laws.{EachInputHasAnOutput, OutputIsUnique, TextHasTheAnswers, AllBytesAreTaken};
ghost use Rattle.fr_command.specs.Laws.{AnswerIsUnique, CutsDoNotMatter, AnswerStands, EndsWithTheOutput};

/// Each input has exactly one output in each form: each line that is not blank has one answer, in the state after the
/// lines before it. The output text consists of the text answers.
pub fn output_law()
    ensures exists { EachInputHasAnOutput }
    ensures unique { OutputIsUnique }
    ensures text { TextHasTheAnswers }
{}

/// A conversation has exactly one answer to the bytes that it has taken, wherever these were cut into pieces. Later
/// bytes do not change it. At the end of the input, the answers together are the output.
pub fn conversation_law()
    ensures exists { AllBytesAreTaken }
    ensures unique { AnswerIsUnique }
    ensures joins { CutsDoNotMatter }
    ensures stands { AnswerStands }
    ensures ends { EndsWithTheOutput }
{}
