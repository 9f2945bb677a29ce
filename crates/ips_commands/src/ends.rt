//! What the end of a program tells.

ghost use Rattle.std.specs.Prelude.{◌≡◌, ◌↔◌, IfOk, IsOk, IsSome};
ghost use Rattle.std.specs.Process.{exit_code};
ghost use Rattle.ips_commands.specs.Ended.{IsEnd};

use std::process::ExitStatus;

/// Why a program isn't believed.
#[derive(Clone, Copy)]
pub enum Unwell {
    /// A signal ended it.
    Signal,
    /// It ended with another status than 0.
    Status,
}

/// What a program is believed: that it did all, just where it ended with 0. It answers how it ended.
pub fn told_by(status: ExitStatus) -> Result<ExitStatus, Unwell>
    ensures exact { IsOk result ↔ IsEnd status 0 }
    ensures same { IfOk result (λ told. told ≡ status) }
{
    match ended(status) {
        Ok(0) => Ok(status),
        Ok(_) => Err(Unwell::Status),
        Err(why) => Err(why),
    }
}

/// The status with which a program ended, which is a byte. One that a signal ended has none.
pub fn ended(status: ExitStatus) -> Result<u8, Unwell>
    ensures told { IfOk result (IsEnd status) }
    ensures only { IsOk result ↔ IsSome (exit_code status) }
{
    match status.code() {
        Some(code) => Ok(code as u8),
        None => Err(Unwell::Signal),
    }
}
