ghost use Rattle.plain_process.specs.Examples.{AreDecoded, AreQuotients, AreProducts, IsStarted, AreAnswers};

/// Worked examples of decoding, multiplication and division, the start of the stack and the word of a reply,
/// so that a change of one of these definitions shows. It does nothing.
pub fn worked_examples()
    ensures decoded { AreDecoded }
    ensures quotients { AreQuotients }
    ensures products { AreProducts }
    ensures start { IsStarted }
    ensures answers { AreAnswers }
{}
