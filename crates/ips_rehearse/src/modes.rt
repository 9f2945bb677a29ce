//! Sets of modes.

ghost use Rattle.std.specs.Prelude.{◌≡◌, ◌<◌, ◌||◌, ◌&&◌, ◌==◌, false, ℕ};
ghost use Rattle.ips_rehearse.specs.Tried.{in_modes};

/// Modes, each of them below 0o10000.
#[derive(Drop)]
pub(crate) struct Modes {
    pub(crate) has: [bool; 4096],
}

impl Modes {
    /// No mode.
    pub(crate) fn none() -> Modes
        ensures { (m : ℕ) → in_modes result.has m ≡ false }
    {
        Modes { has: [false; 4096] }
    }

    /// Adds the mode where it is wanted.
    pub(crate) fn add(&mut self, mode: u16, is_wanted: bool)
        requires { mode < 4096 }
        ensures { (m : ℕ) → in_modes self.new.has m ≡ ((is_wanted && (mode == m)) || in_modes self.old.has m) }
    {
        if is_wanted {
            self.has[mode as usize] = true;
        }
    }
}
