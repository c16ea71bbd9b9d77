ghost use Rattle.boards.specs.Plans.{SamePlan, StablePlan, CountIsPlaces};

// The laws of every plan, over every lawful rule, any book and every list of calls. Each function here has a law for its
// contract, and nothing to do.

pub fn same_plan()
    ensures { SamePlan }
{}

pub fn stable_plan()
    ensures { StablePlan }
{}

pub fn count_is_places()
    ensures { CountIsPlaces }
{}
