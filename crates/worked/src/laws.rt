ghost use Rattle.worked.specs.Worked.{WorkedExamples};

// Where addresses go in each scheme, what reads of the sample cart give, and what a session over it replies. There is nothing
// to run: the contract is a theorem.
pub fn every_worked_example_holds()
    ensures { WorkedExamples }
{}
