ghost use Rattle.spaces.specs.Walks.{EveryWalkIsLawful};
ghost use Rattle.spaces.specs.EditLaws.{EveryEditChangesItsAddressesAlone};
ghost use Rattle.spaces.specs.PileLaws.{EveryOverlayShowsItsPatches, EveryFaultAroseWhereItSays, EveryReadRestsOnItsTrail, EveryEditOffTheTrailKeepsTheRead};

// What holds of every pile, whoever wrote its bottom and its layers. There is nothing to run: each contract is a theorem.

// A layer that is described by a walk keeps both laws of a layer.
pub fn every_walk_is_lawful()
    ensures { EveryWalkIsLawful }
{}

// A patched address shows its patch and rests on nothing below; any other shows what is below, and rests on that.
pub fn every_overlay_shows_its_patches()
    ensures { EveryOverlayShowsItsPatches }
{}

// A set or clear changes what it names at its addresses in the overlay at its depth, or nothing at all.
pub fn every_edit_changes_its_addresses_alone()
    ensures { EveryEditChangesItsAddressesAlone }
{}

// From a fault's depth down, the pile has at the fault's address a fault of its own with the same cause.
pub fn every_fault_arose_where_it_says()
    ensures { EveryFaultAroseWhereItSays }
{}

// Two piles that differ in patches alone, and in none on a read's trail, answer the read alike.
pub fn every_read_rests_on_its_trail()
    ensures { EveryReadRestsOnItsTrail }
{}

// A set or clear that sets and takes back no patch on a read's trail at its depth leaves the read as it was.
pub fn every_edit_off_the_trail_keeps_the_read()
    ensures { EveryEditOffTheTrailKeepsTheRead }
{}
