// Objects are the font masters o0 to o31, named by their numbers.
ghost use Rattle.std.specs.Prelude.{◌≡◌};
ghost use Rattle.model.specs.Principals.{object_in_range};

pub const OBJECTS: u8 = 32;

pub fn is_object(object: u8) -> bool
    ensures { result ≡ object_in_range object }
{
    object < OBJECTS
}
