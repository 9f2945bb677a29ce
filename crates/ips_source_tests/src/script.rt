//! Scripts that the tests play, and the files that they begin with. A line is a call and what it answers, as
//! `remove d -> ok`; one that begins with `#` tells what the lines behind it are for.

use ips_outside::Look;
use ips_text::RelPath;
use std::alloc::Global;
use std::fs;
use std::fs::Permissions;
use std::os::unix::fs::{PermissionsExt, symlink};
use std::process::{Abort, Command};

/// The call of a line and its answer; none for a remark and an empty line.
pub fn call_of(line: &str) -> Option<(&str, &str)> {
    if line.starts_with('#') {
        return None;
    }
    line.split_once(" -> ")
}

// The first word and what is behind it.
fn first(text: &str) -> (&str, &str) {
    text.split_once(' ').unwrap_or((text, ""))
}

/// The first two words of a call, and what is behind them.
pub fn words(call: &str) -> [&str; 3] {
    let (name, rest) = first(call);
    let (one, two) = first(rest);
    [name, one, two]
}

pub fn path(rt: &impl Abort, alloc: Global, text: &str) -> RelPath {
    RelPath::parse(alloc, text.as_bytes())
        .ok()
        .expect(rt, "what is spelled")
}

/// What stands at a path, in words.
pub fn look_shown(rt: &impl Abort, alloc: Global, look: Look) -> String {
    match look {
        Look::Absent => format!(in alloc; "absent").expect(rt, "memory"),
        Look::Dir { mode } => format!(in alloc; "dir {mode:o}").expect(rt, "memory"),
        Look::File { mode, size } => format!(in alloc; "file {mode:o} {size}").expect(rt, "memory"),
        Look::Link => format!(in alloc; "link").expect(rt, "memory"),
        Look::Other => format!(in alloc; "other").expect(rt, "memory"),
    }
}

/// Makes files anew, a line each, below a folder that is empty then: `dir PATH`, `file PATH BYTES`, `mode PATH MODE`,
/// `link PATH TARGET` and `pipe PATH`.
pub fn set_up(rt: &HostRuntime, root: &str, script: &str) -> Option<()> {
    let _ = fs::remove_dir_all(rt, root);
    for line in script.lines() {
        let [name, at, rest] = words(line);
        match name {
            "dir" => fs::create_dir(rt, at).ok()?,
            "file" => fs::write(rt, at, rest).ok()?,
            "mode" => fs::set_permissions(
                rt,
                at,
                Permissions::from_mode(u32::from_str_radix(rest, 8).ok()?),
            )
            .ok()?,
            "link" => symlink(rt, rest, at).ok()?,
            "pipe" => {
                let made = Command::new(rt.alloc(), "mkfifo")
                    .ok()?
                    .arg(at)
                    .ok()?
                    .status(rt)
                    .ok()?;
                if !made.success() {
                    return None;
                }
            }
            _ => return None,
        }
    }
    Some(())
}
