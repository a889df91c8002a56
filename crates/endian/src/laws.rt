ghost use Rattle.endian.specs.ReadBack.{EveryNumberIsReadBack};

// A number that fits so many bytes is read back from them, wherever they stand. There is nothing to run: the contract is a
// theorem.
pub fn every_number_is_read_back()
    ensures { EveryNumberIsReadBack }
{}
