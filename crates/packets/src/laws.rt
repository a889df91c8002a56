ghost use Rattle.packets.specs.Streams.{EveryStreamIsItsItems};

// What holds of every stream. There is nothing to run: the contract is a theorem.

// A stream is items, one behind the other, in one way: what they use and what is left add up to it.
pub fn every_stream_is_its_items()
    ensures { EveryStreamIsItsItems }
{}
