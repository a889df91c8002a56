ghost use Rattle.images.specs.Bytes.{EveryHeaderIsReadBack};

// The header of a LiME range is read back from its bytes, wherever they stand in a file. There is nothing to run: the contract
// is a theorem.
pub fn every_header_is_read_back()
    ensures { EveryHeaderIsReadBack }
{}
