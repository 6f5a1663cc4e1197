// What a table does, on small examples.
ghost use Rattle.std.specs.Prelude.{nat_le};
ghost use Rattle.std.proofs.Common.{rules};

use super::*;
use std::test::Fail;

fn flight(slot: u32, cell: usize) -> Flight {
    Flight { slot, cell }
}

// An element whose order looks at the key alone.
#[derive(Clone, Copy)]
struct Labelled {
    key: u8,
    label: char,
}

impl Ordered for Labelled {
    ghost upto = { λ a b. nat_le a.key b.key };

    ghost total = { Prim.search rules };

    ghost trans = { Prim.search rules };

    fn not_after(&self, other: &Labelled) -> bool {
        self.key <= other.key
    }
}

// The label of the first element, which is taken out.
fn label(table: &mut Table<Labelled>) -> Option<char> {
    table
        .take_first(&Labelled { key: 0, label: '-' })
        .map(|first| first.label)
}

#[test]
fn a_full_table_refuses(rt: HostRuntime) -> Result<(), Fail> {
    let mut memory = [flight(9, 9)];
    let mut table = Table::new(&mut memory);
    table.put(flight(5, 1))?;
    assert!(rt;
        table
            .put(flight(4, 3))
            .is_err_and(|refusal| refusal.number() == 21)
    );
    assert!(rt; table.len() == 1);
    assert!(rt; table.first(&flight(0, 0)) == Some(flight(5, 1)));
    Ok(())
}

#[test]
fn equals_come_in_the_order_of_putting(rt: HostRuntime) -> Result<(), Fail> {
    let mut memory = [Labelled { key: 0, label: '-' }; 3];
    let mut table = Table::new(&mut memory);
    table.put(Labelled { key: 7, label: 'a' })?;
    table.put(Labelled { key: 2, label: 'b' })?;
    table.put(Labelled { key: 7, label: 'c' })?;
    assert!(rt; label(&mut table) == Some('b'));
    assert!(rt; label(&mut table) == Some('a'));
    assert!(rt; label(&mut table) == Some('c'));
    Ok(())
}

#[test]
fn a_search_begins_at_its_mark(rt: HostRuntime) -> Result<(), Fail> {
    let mut memory = [flight(4, 1), flight(6, 0)];
    let mut table = Table::resume(&mut memory, 9);
    assert!(rt; table.first(&flight(4, 1)) == Some(flight(4, 1)));
    assert!(rt; table.take_first(&flight(4, 2)) == Some(flight(6, 0)));
    assert!(rt; table.first(&flight(4, 2)).is_none());
    // the place that was freed is used again
    table.put(flight(5, 7))?;
    assert!(rt; table.first(&flight(4, 2)) == Some(flight(5, 7)));
    Ok(())
}
