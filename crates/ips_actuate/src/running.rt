//! Actuators run one after another.

ghost use Rattle.std.specs.Prelude.{◌≡◌, ◌≢◌, ◌<◌, ◌++◌, List, IfErr, IsTrue, length, take};
ghost use Rattle.ips_outside.specs.Outside.{HasCause};
ghost use Rattle.ips_outside.specs.Running.{Run};
ghost use Rattle.ips_actuate.specs.Running.{Ends, IsSpawn, IsFaultOfRun};

use crate::run::Words;
use ips_outside::{Failed, Spawner};

/// Why a list of actuators wasn't run to its end.
#[derive(Clone, Copy, Drop)]
pub enum ActFault {
    /// The run at this place of the list, from 0 on, ended with this status, which isn't 0.
    Failed { index: usize, status: u8 },
    /// The run at this place of the list couldn't be made.
    Spawn { index: usize },
}

/// Runs the words of the list in order, and stops at the first fault.
pub fn run_all<P: Spawner>(spawner: &mut P, list: &[Words]) -> Result<(), ActFault>
    ensures ran { IsTrue (P.running.tells spawner.old) → (ran : List Run) × (P.running.ran spawner.new ≡ P.running.ran spawner.old ++ ran) × Ends list.now ran result }
    ensures fault { IfErr result (IsFaultOfRun list.now) }
    ensures cause { HasCause (P.running.faults spawner.old) (P.running.faults spawner.new) (IsSpawn result) }
    ensures same_kind { P.running.tells spawner.new ≡ P.running.tells spawner.old }
{
    let mut index = 0;
    for words in list {
        match spawner.run(words.as_slice()) {
            Ok(0) => {}
            Ok(status) => return Err(ActFault::Failed { index, status }),
            Err(Failed) => return Err(ActFault::Spawn { index }),
        }
        index += 1;
    }
    Ok(())
}
