// The laws of every store's meaning, as facts that the check asks for.
ghost use Rattle.cells.specs.Laws.{Laws, Worked};

// Answers nothing: its contract says what every put and every open does, in a client's words.
pub fn laws()
    ensures laws { Laws }
{}

// Answers nothing: its contract says that in 64 cells of pages a second open is refused.
pub fn worked_case()
    ensures worked { Worked }
{}
