ghost use Rattle.worked_days.specs.Answers.{WorkedAnswers};

// The worked cases stand.
pub fn worked_answers()
    ensures { WorkedAnswers }
{}
