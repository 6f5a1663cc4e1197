// The walk along a chain.
ghost use Rattle.std.specs.Prelude.{◌≡◌, ℕ, ◌<◌, true, false, List, [], ◌∷◌, ◌++◌, length, take, MatchResult, slice_index_or, slice_set};
ghost use Rattle.refusal.specs.declared.Refusal.TheVariants.{BadChain};
ghost use Rattle.layout.specs.Order.{reached};
ghost use Rattle.schedule.specs.Chains.{Seen, Walked, Noted};

use crate::chain::Found;
use crate::checked::Checked;
use arrayvec::ArrayVec;
use refusal::Refusal;

// Writes a slot at a place, where there is such a place. By an index: what is written behind `get_mut` is lost to the
// proof.
fn keep(places: &mut [u32], at: usize, slot: u32)
    ensures { places.new ≡ slice_set places.old at slot }
{
    if at < places.len() {
        places[at] = slot;
    }
}

impl Found {
    fn none() -> Found
        ensures { (bs chain : List ℕ) → Noted bs chain 0 result }
    {
        Found {
            ports: ArrayVec::new(),
            sent: [0; 8],
        }
    }

    // One record more; what has no place is let go.
    fn note(&mut self, port: u8, sent: u32)
        ensures ports { self.new.ports.items ≡ take 9 (self.old.ports.items ++ port ∷ []) }
        ensures sent { self.new.sent ≡ slice_set self.old.sent (length self.old.ports.items) sent }
    {
        keep(&mut self.sent, self.ports.len(), sent);
        if !self.ports.is_full() {
            self.ports.push(port);
        }
    }

    // The ports of the route, or the first 9 of them.
    pub(crate) fn ports(&self) -> &[u8]
        ensures { result.now ≡ self.now.ports.items }
    {
        self.ports.as_slice()
    }

    // The slots in which the cell was sent; past the route's end they are 0.
    pub(crate) fn sent(&self) -> [u32; 8]
        ensures { result ≡ self.now.sent }
    {
        self.sent
    }
}

// Marks a hop record as reached; a second time is refused.
fn reach(seen: &mut [bool; 2049], index: usize) -> Result<(), Refusal>
    requires { index < 2049 }
    ensures { MatchResult result (λ _. (slice_index_or seen.old index false ≡ false) × (seen.new ≡ slice_set seen.old index true)) (λ e. (slice_index_or seen.old index false ≡ true) × (e ≡ BadChain index)) }
{
    if seen[index] {
        return Err(Refusal::BadChain(index));
    }
    seen[index] = true;
    Ok(())
}

impl Checked<'_> {
    // Walks along the chain of a cell to its end.
    pub(crate) fn walk(&self, cell: usize, seen: &mut [bool; 2049]) -> Result<Found, Refusal>
        requires known { cell < self.now.image.head.cells }
        requires seen { Seen seen.old (reached self.now.image.bytes.now cell) }
        ensures { Walked self.now.image.bytes.now cell result seen.new }
    {
        let mut found = Found::none();
        let mut index = usize::from(self.image.cell(cell).first);
        // the format: index 0 ends a chain
        while index != 0 {
            reach(seen, index)?;
            let hop = self.image.hop(index);
            found.note(hop.port, hop.sent);
            index = usize::from(hop.next);
        }
        Ok(found)
    }
}
