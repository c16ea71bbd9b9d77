ghost use Rattle.matching.specs.Theorems.{LanesChoose, AtMostOneGoes, ClearingFits, BeginningStands, EnteringStands, ApplyingStands, ApplyingLeavesOthers, SettledIsLeast, OrdersDoNotMatter};

// Each function here has a theorem for its contract, and nothing to do.

pub fn lanes_choose()
    ensures { LanesChoose }
{}

pub fn at_most_one_goes()
    ensures { AtMostOneGoes }
{}

pub fn clearing_fits()
    ensures { ClearingFits }
{}

pub fn beginning_stands()
    ensures { BeginningStands }
{}

pub fn entering_stands()
    ensures { EnteringStands }
{}

pub fn applying_stands()
    ensures { ApplyingStands }
{}

pub fn applying_leaves_others()
    ensures { ApplyingLeavesOthers }
{}

pub fn settled_is_least()
    ensures { SettledIsLeast }
{}

pub fn orders_do_not_matter()
    ensures { OrdersDoNotMatter }
{}
