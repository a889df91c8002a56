ghost use Rattle.sessions.specs.Smallest.{EveryRefusalHasTheSmallestNumber};
ghost use Rattle.sessions.specs.Laws.{WhatIsKeptLeavesNothingOpen, EveryLastFaultArose, EveryWriteOffTheTrailKeepsTheRead, NothingRefusedTakesEffect};

// Theorems about sessions. There is nothing to run. The first four follow from what a session keeps, and from nothing else.

// A history leads to one session, and leaves one frame to each accepted read and to each question for the last fault.
pub fn what_is_kept_leaves_nothing_open()
    ensures { WhatIsKeptLeavesNothingOpen }
{}

// A last fault arose where it says, under the patches of a read that was made.
pub fn every_last_fault_arose()
    ensures { EveryLastFaultArose }
{}

// A read is answered as before, and meets the same fault, after a write that touches no patch on its trail.
pub fn every_write_off_the_trail_keeps_the_read()
    ensures { EveryWriteOffTheTrailKeepsTheRead }
{}

// What counts as a change of the pile was accepted: a refused edit is none.
pub fn nothing_refused_takes_effect()
    ensures { NothingRefusedTakesEffect }
{}

// A payload is refused with the smallest number that applies, by its form or by the pile, and where none applies it is not
// refused.
pub fn every_refusal_has_the_smallest_number()
    ensures { EveryRefusalHasTheSmallestNumber }
{}
