// A cell that was picked and is to be sent.
ghost use Rattle.std.specs.Prelude.{◌≡◌, ◌+◌, ◌<◌, false};
ghost use Rattle.rules.specs.Conditions.{next_condition};
ghost use Rattle.rules.specs.declared.condition.Event.TheVariants.{SentOnward, SentOut};
ghost use Rattle.table.specs.Elements.{elements, full, SamePlaces};
ghost use Rattle.table.specs.Kinds.{flight_upto};
ghost use Rattle.table.specs.Order.{put_in};

use crate::standing::Standing;
use rules::{CellRecord, Event};
use table::{Flight, Table};

// It is not `Drop`: whoever has one must spend it, by putting the cell on its link or letting it out.
pub(crate) struct Picked {
    pub(crate) cell: usize,
    pub(crate) standing: Standing,
    ghost short: { standing.position < 8 },
}

impl Picked {
    // Puts the cell on the link to its next position, where it arrives in slot `until`.
    pub(crate) fn forward(self, own: &mut CellRecord, until: u32, flights: &mut Table<Flight>)
        ensures condition { own.new.condition ≡ next_condition own.old.condition (SentOnward (self.standing.position + 1) until) }
        ensures first { own.new.first ≡ own.old.first }
        ensures flights { full flights.old ≡ false → elements flights.new ≡ put_in flight_upto (record { slot = until; cell = self.cell }) (elements flights.old) }
        ensures places { SamePlaces flights.old flights.new }
    {
        let Picked { cell, standing } = self;
        own.happen(Event::SentOnward {
            position: standing.position + 1,
            until,
        });
        let _ = flights.put(Flight { slot: until, cell });
    }

    // Lets the cell out.
    pub(crate) fn let_out(self, own: &mut CellRecord)
        ensures condition { own.new.condition ≡ next_condition own.old.condition SentOut }
        ensures first { own.new.first ≡ own.old.first }
    {
        let Picked {
            cell: _,
            standing: _,
        } = self;
        own.happen(Event::SentOut);
    }
}
