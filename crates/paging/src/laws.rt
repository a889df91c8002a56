ghost use Rattle.paging.specs.Worked.{Worked, EveryIndexHasItsBits, EveryTrailIsShort};

// What holds of the three schemes. There is nothing to run: each contract is a theorem.

// The worked examples: where an address goes in each scheme.
pub fn worked_examples()
    ensures { Worked }
{}

// The bits of an address that are its index, for each level of each scheme.
pub fn every_index_has_its_bits()
    ensures { EveryIndexHasItsBits }
{}

// One address rests on at most 9, 25 or 33 addresses below.
pub fn every_trail_is_short()
    ensures { EveryTrailIsShort }
{}
