ghost use Rattle.std.specs.Prelude.{◌≡◌, Bool};
ghost use Rattle.model.specs.Joining.{joining};
ghost use Rattle.model.specs.Stores.{Cells, pairs, in_use, has_option, strongest as strongest_of, writable, after_write, Sound, AnswersOutside};

use crate::cell::{Cell, Orientation};
use crate::place::Place;
use crate::principal::Principal;
use crate::right::Right;
use crate::scale::Scale;

// A store of assignments: one cell at each place.
pub trait Store<S: Scale> {
    // The cell at each place.
    ghost cells: { Self → Cells S };

    // Whether the store has its full memory.
    ghost full: { Self → Bool };

    fn has_full_memory(&self) -> bool
        ensures { result ≡ full self.now };

    // How many pairs are in use at an object.
    fn pairs_in_use(&self, object: u8) -> usize
        ensures { result ≡ pairs (joining S.Scale.states) (cells self.now) object };

    // Whether a granter and a grantee have a cell at an object. No type of the model for the three: the
    // list has one of its own, and the table one of two numbers in range.
    fn is_pair_in_use(&self, object: u8, granter: Principal, grantee: Principal) -> bool
        ensures { result ≡ in_use (joining S.Scale.states) (cells self.now) object granter grantee };

    // Whether a grantee has an option for a right, from any granter.
    fn has_option(&self, right: Right, grantee: Principal) -> bool
        ensures { result ≡ has_option (cells self.now) right.object right.privilege grantee };

    // The join of the states that a grantee has in one orientation, from every granter.
    fn strongest(&self, right: Right, grantee: Principal, orientation: Orientation) -> S
        ensures { result ≡ strongest_of (joining S.Scale.states) (cells self.now) right.object right.privilege grantee orientation };

    // Writes one cell where that is allowed and there is room, and says whether it did. The cell is
    // behind a reference since an impl is refused the clauses of a generic struct by value.
    fn write(&mut self, place: Place, cell: &Cell<S>) -> bool
        ensures told { result ≡ writable S.Scale.states (full self.old) (cells self.old) place cell.now }
        ensures cells { cells self.new ≡ after_write (cells self.old) place cell.now result }
        ensures memory { full self.new ≡ full self.old };

    // Does nothing: its contract is what every store keeps. As a law of the trait it would have to
    // be proved in specs/, and the lemmas that it rests on are a thousand lines of proofs/.
    fn sound(&self)
        ensures { Sound S.Scale.states (cells self.now) };

    // Does nothing: its contract is what a store answers out of range.
    fn answers_outside(&self)
        ensures { AnswersOutside S.Scale.states (cells self.now) }
    {
        self.sound();
    }
}
