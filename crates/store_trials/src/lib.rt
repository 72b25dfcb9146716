// Two stores side by side: under the same writes they tell the same.
#![tactic(auto)]

ghost use Rattle.std.specs.Prelude.{◌≡◌, true};
ghost use Rattle.store_trials.specs.Alike.{Alike};

use model::cell::{Cell, Orientation};
use model::place::Place;
use model::right::Right;
use model::scale::Scale;
use model::store::Store;

#[cfg(test)]
mod tests;

// A cell, and where it is to be written.
#[derive(Clone, Copy)]
pub struct Write<S> {
    pub place: Place,
    pub cell: Cell<S>,
}

// Writes one cell to both stores, and says whether they answered alike. Two stores that hold the
// same cells, with alike memory, do, and hold the same cells afterwards.
pub fn write_both<S: Scale, A: Store<S>, B: Store<S>>(
    a: &mut A,
    b: &mut B,
    write: &Write<S>,
) -> bool
    ensures told { Alike A.Store B.Store a.old b.old → result ≡ true }
    ensures after { Alike A.Store B.Store a.old b.old → Alike A.Store B.Store a.new b.new }
    ensures memory { A.Store.full a.old ≡ B.Store.full b.old → A.Store.full a.new ≡ B.Store.full b.new }
{
    let told = a.write(write.place, &write.cell);
    told == b.write(write.place, &write.cell)
}

// The same for each of a list of writes.
pub fn write_all<S: Scale, A: Store<S>, B: Store<S>>(
    a: &mut A,
    b: &mut B,
    writes: &[Write<S>],
) -> bool
    ensures told { Alike A.Store B.Store a.old b.old → result ≡ true }
    ensures after { Alike A.Store B.Store a.old b.old → Alike A.Store B.Store a.new b.new }
{
    let mut alike = true;
    // A loop and no chain: the clause `after` speaks of both stores once all writes are made, and `all`
    // would stop at the first that is answered otherwise.
    for write in writes {
        alike &= write_both(a, b, write);
    }
    alike
}

// Asks both stores every question about a place, and says whether they answer alike: two stores
// that hold the same cells, with alike memory, do.
pub fn tells_alike<S: Scale, A: Store<S>, B: Store<S>>(
    a: &A,
    b: &B,
    place: Place,
    orientation: Orientation,
) -> bool
    ensures { Alike A.Store B.Store a.now b.now → result ≡ true }
{
    let Place {
        object,
        granter,
        grantee,
        privilege,
    } = place;
    let memory = a.has_full_memory() == b.has_full_memory();
    let pairs = a.pairs_in_use(object) == b.pairs_in_use(object);
    let used = a.is_pair_in_use(object, granter, grantee)
        == b.is_pair_in_use(object, granter, grantee);
    let right = Right { object, privilege };
    let option = a.has_option(right, grantee) == b.has_option(right, grantee);
    let strongest = a.strongest(right, grantee, orientation);
    let other = b.strongest(right, grantee, orientation);
    // `same`, since a scale has an order and no `==`
    memory & pairs & used & option & strongest.same(other)
}
