//! What holds of answers and their texts by the definitions alone. The functions do nothing: each one's contract is
//! the law.
ghost use Rattle.answer_text.specs.Laws.{TextsReadBack, ReadIsText};

/// What reads as an answer is the text of that answer, which is in order and within the variables.
pub fn what_is_read_is_the_text()
    ensures { ReadIsText }
{}

/// The text of an answer that is in order and within the variables reads back as that answer.
pub fn text_of_an_answer_reads_back()
    ensures { TextsReadBack }
{}
