//! Laws of endings, each the contract of a function that does nothing.

ghost use Rattle.std.specs.Prelude.{◌≡◌, true, List, IsFalse};
ghost use Rattle.ips_outside.specs.Image.{Image};
ghost use Rattle.ips_kinds.specs.Tallies.{Carrier};
ghost use Rattle.ips_history.specs.Directories.{image_for};
ghost use Rattle.ips_run.specs.declared.ending.Ending.{Ending};
ghost use Rattle.ips_run.specs.Comes.{Comes, HasRun};
ghost use Rattle.ips_run.specs.Exclusive.{way_of, is_faulty, DecidesAlike};

use crate::operation::Operation;
use ips_outside::Spawner;

/// On one image, with one repository that tells what it holds, an operation all of whose decisions are alike ends in one way, whatever a
/// run does: but where a call failed or memory ran out.
pub fn one_way<T: Drop, P: Spawner, C: Operation<T>>()
    ensures { (operation : C) (repository held left left' : Image) (old now now' : List Carrier) (before after before' after' : P) (x y : Ending T)
        → DecidesAlike (C.decides operation true repository (image_for (C.effect operation) held))
        → Comes (C.effect operation) (C.decides operation true repository (image_for (C.effect operation) held)) true repository held left old now (HasRun P.running before after) x
        → Comes (C.effect operation) (C.decides operation true repository (image_for (C.effect operation) held)) true repository held left' old now' (HasRun P.running before' after') y
        → IsFalse (is_faulty x) → IsFalse (is_faulty y) → way_of x ≡ way_of y }
{}
