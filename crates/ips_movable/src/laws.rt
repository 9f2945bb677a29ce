//! What stands and can't be moved, by an image.

ghost use Rattle.std.specs.Prelude.{◌≡◌, ℕ, List};
ghost use Rattle.ips_outside.specs.Image.{Image};
ghost use Rattle.ips_found.specs.Found.{IsThing};
ghost use Rattle.ips_found.specs.declared.found.Thing.{Thing};
ghost use Rattle.ips_movable.specs.Movable.{cannot_move, is_fixed};

/// A thing can't be moved just where what stands at its path can't.
pub fn things_are_fixed_by_what_stands()
    ensures { (t : Image) (root : List ℕ) (x : Thing) → IsThing t x → is_fixed root x ≡ cannot_move t root x.path.bytes }
{}
