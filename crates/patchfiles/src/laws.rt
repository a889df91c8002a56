ghost use Rattle.patchfiles.specs.Ends.{EveryPatchFileEndsInOneOfFourWays};

// What holds of every patch file and every pile. There is nothing to run: the contract is a theorem.

// Applying a file ends in one of four ways: its length is wrong, a record is malformed, a record is refused, or all records
// take effect.
pub fn every_patch_file_ends_in_one_of_four_ways()
    ensures { EveryPatchFileEndsInOneOfFourWays }
{}
