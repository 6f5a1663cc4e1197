// Questions that the layers put to a discipline below them.
ghost use Rattle.std.specs.Prelude.{◌≡◌, is_some};
ghost use Rattle.discipline.specs.Meaning.{waits_at};

use discipline::Discipline;

// Whether a cell waits at some port.
pub(crate) fn waits<D: Discipline>(d: &D, cell: usize) -> bool
    ensures { D.Discipline.sound d.now → result ≡ is_some (D.Discipline.waiting d.now cell) }
{
    matches!(d.where_is(cell), Ok(Some(_)))
}

// Whether a cell waits at a port.
pub(crate) fn waits_at<D: Discipline>(d: &D, port: usize, cell: usize) -> bool
    ensures { D.Discipline.sound d.now → result ≡ waits_at (D.Discipline.waiting d.now) port cell }
{
    d.where_is(cell) == Ok(Some(port))
}
