// What is put into an ordered table, told and taken out.
ghost use Rattle.std.specs.Prelude.{◌≡◌, ◌<◌, not, IfSome, IfNone, MatchResult, OnOk};
ghost use Rattle.std.specs.List.{position};
ghost use Rattle.refusal.specs.Tests.{tested, when};
ghost use Rattle.refusal.specs.declared.Refusal.TheVariants.{NoPlace};
ghost use Rattle.table.specs.Elements.{elements, full, Unchanged, RestKept, SamePlaces};
ghost use Rattle.table.specs.Order.{Sorted, put_in, behind_equals, first_from, taken_from, LeastFrom};

use crate::order::Ordered;
use crate::table::Table;
use refusal::Refusal;

// Places are sought from the front, each by its own test: lent memory that was altered may be out of order, and what is told
// of it is pinned too.
impl<'a, E: Ordered + Copy> Table<'a, E> {
    // The place of the first element that is after `e`.
    fn place_after(&self, e: &E) -> Option<usize>
        ensures value { result ≡ position (λ x. not (E.upto x e.now)) (elements self.now) }
        ensures bound { IfSome result (λ at. at < self.now.len) }
    {
        self.places[..self.len].iter().position(|x| !x.not_after(e))
    }

    // The place of the first element that is not before the mark.
    fn place_from(&self, mark: &E) -> Option<usize>
        ensures { result ≡ position (λ x. E.upto mark.now x) (elements self.now) }
    {
        self.places[..self.len]
            .iter()
            .position(|x| mark.not_after(x))
    }

    // Puts `e` behind the elements at the front that are not after it. It is refused just where no place is free.
    pub fn put(&mut self, e: E) -> Result<(), Refusal>
        ensures value { result ≡ tested (when (full self.old) NoPlace) }
        ensures done { MatchResult result (λ _. elements self.new ≡ put_in E.upto e (elements self.old)) (λ _. Unchanged self.old self.new) }
        ensures sorted { Sorted E.upto (elements self.old) → Sorted E.upto (elements self.new) }
        ensures stable { Sorted E.upto (elements self.old) → OnOk result (elements self.new ≡ behind_equals E.upto e (elements self.old)) }
        ensures rest { RestKept self.old self.new }
        ensures same { SamePlaces self.old self.new }
    {
        if self.len == self.places.len() {
            return Err(Refusal::NoPlace);
        }
        let at = self.place_after(&e).unwrap_or(self.len);
        self.places.copy_within(at..self.len, at + 1);
        self.places[at] = e;
        self.len += 1;
        Ok(())
    }

    // Tells the first element that is not before the mark.
    pub fn first(&self, mark: &E) -> Option<E>
        ensures value { result ≡ first_from E.upto mark.now (elements self.now) }
        ensures least { Sorted E.upto (elements self.now) → LeastFrom E.upto mark.now (elements self.now) result }
    {
        let at = self.place_from(mark)?;
        Some(self.places[at])
    }

    // Tells that element and takes it out; the elements behind it move up.
    pub fn take_first(&mut self, mark: &E) -> Option<E>
        ensures value { result ≡ first_from E.upto mark.now (elements self.old) }
        ensures done { elements self.new ≡ taken_from E.upto mark.now (elements self.old) }
        ensures none { IfNone result (Unchanged self.old self.new) }
        ensures sorted { Sorted E.upto (elements self.old) → Sorted E.upto (elements self.new) }
        ensures rest { RestKept self.old self.new }
        ensures same { SamePlaces self.old self.new }
    {
        let at = self.place_from(mark)?;
        let first = self.places[at];
        self.places.copy_within(at + 1..self.len, at);
        self.len -= 1;
        Some(first)
    }
}
