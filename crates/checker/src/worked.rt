// The worked examples, as a fact that the prover asks for.
ghost use Rattle.checker.specs.Worked.{Worked};

// Answers nothing: its contract says that the definitions give the worked examples.
pub fn worked_examples()
    ensures worked { Worked }
{}
