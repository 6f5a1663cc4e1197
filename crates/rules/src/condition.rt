// Where a cell of a run is, and how an event changes that.
ghost use Rattle.std.specs.Prelude.{◌≡◌};
ghost use Rattle.rules.specs.Conditions.{next_condition};

#[derive(Clone, Copy, Default)]
pub enum Condition {
    // not entered yet
    #[default]
    Outside,
    // at a position of its route since a slot
    Waiting { position: usize, since: u32 },
    // on the link to a position of its route until a slot
    OnLink { position: usize, until: u32 },
    // sent from its last position
    Gone,
}

#[derive(Clone, Copy)]
pub enum Event {
    // the cell enters, or comes to the end of its link, in a slot
    Arrive { slot: u32 },
    // the cell is sent onto the link to a position of its route, where it arrives in slot `until`
    SentOnward { position: usize, until: u32 },
    // the cell is sent out of the network
    SentOut,
}

// What a run keeps of a cell: its one condition, and where its hops begin in the hop log.
#[derive(Clone, Copy, Default)]
pub struct CellRecord {
    pub condition: Condition,
    pub first: usize,
}

impl CellRecord {
    // The condition and the event together decide the next condition. An event that cannot happen to the cell changes
    // nothing.
    pub fn happen(&mut self, event: Event)
        ensures condition { self.new.condition ≡ next_condition self.old.condition event }
        ensures first { self.new.first ≡ self.old.first }
    {
        match (&mut self.condition, event) {
            (Condition::Outside, Event::Arrive { slot }) => {
                self.condition = Condition::Waiting {
                    position: 0,
                    since: slot,
                };
            }
            (Condition::OnLink { position, .. }, Event::Arrive { slot }) => {
                self.condition = Condition::Waiting {
                    position: *position,
                    since: slot,
                };
            }
            (Condition::Waiting { .. }, Event::SentOnward { position, until }) => {
                self.condition = Condition::OnLink { position, until };
            }
            (Condition::Waiting { .. }, Event::SentOut) => self.condition = Condition::Gone,
            _ => {}
        }
    }
}
