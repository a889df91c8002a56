ghost use Rattle.carts.specs.Worked.{CartExamples};

// The worked examples: what reads of the sample cart give, before and after a patch. There is nothing to run: the contract
// is a theorem.
pub fn worked_examples()
    ensures { CartExamples }
{}
