// Theorems on cells that go through a network of ports: recording and replaying them, slot by slot. A theorem is the
// contract of a function, and so is checked with it; specs/ has the definitions, and the functions have nothing to do.
#![tactic(auto)]

ghost use Rattle.network.specs.Bound.{Ends};
ghost use Rattle.network.specs.OnTime.{OnTimeReplay};
ghost use Rattle.network.specs.Slacks.{DueFixed, LastSlack};
ghost use Rattle.network.specs.Steps.{GoesOn, Starts};

// A replay by least slack first makes no cell late, if no route has three ports where some cell waited, in the
// recording or in the replay.
pub fn on_time_replay_stands()
    ensures { OnTimeReplay }
{}

// A work-conserving run ends: each cell has left by slot i + (h - 1) * l, where i is the latest entry, h the number of
// hops of all cells together, and l the longest delay.
pub fn last_exit_bound_stands()
    ensures { Ends }
{}

// The slack that a cell has left after its last hop is its recorded exit minus its exit in the replay.
pub fn last_slack_stands()
    ensures { LastSlack }
{}

// The due slot of a cell at a hop follows from its route and its recorded exit alone.
pub fn due_slot_fixed_stands()
    ensures { DueFixed }
{}

// Before the first slot each law of a replay holds.
pub fn laws_start_stands()
    ensures { Starts }
{}

// Each law of a replay that holds before a slot holds after it, if the ports send in that slot as the law asks.
pub fn laws_go_on_stands()
    ensures { GoesOn }
{}
