// Whether a discipline holds a cell.
ghost use Rattle.std.specs.Prelude.{◌≡◌, true, false};
ghost use Rattle.discipline.specs.Meaning.{Empty};

use crate::interface::Discipline;

// Asks every port.
pub fn holds_none<D: Discipline>(d: &D) -> bool
    ensures empty { D.Discipline.sound d.now → result ≡ true → Empty (D.Discipline.waiting d.now) }
    ensures some { D.Discipline.sound d.now → result ≡ false → Empty (D.Discipline.waiting d.now) → ⊥ }
{
    (0..32).all(|port| d.count(port) == Ok(0))
}
