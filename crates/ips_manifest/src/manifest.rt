//! Manifests.

ghost use Rattle.std.specs.Prelude.{◌≡◌, ◌++◌, ◌+◌, ◌<◌, ◌≤◌, ◌^◌, List, ℕ, Ok, IfOk, OnOk, length, map, string_bytes};
ghost use Rattle.std.specs.List.{list_any, AllByRecursion};
ghost use Rattle.ips_text.specs.Reading.{Gives, IfBad};
ghost use Rattle.ips_action.specs.Attrs.{is_same};
ghost use Rattle.ips_manifest.specs.declared.line.Line as declared;
ghost use Rattle.ips_manifest.specs.declared.fault.ManifestFault as declared_fault;
ghost use Rattle.ips_manifest.specs.Manifest as spec;
ghost use Rattle.ips_manifest.specs.Manifest.{IsManifestOf, IsFaultOf, manifest_text, renumbered, StandsOnLine};

use crate::fault::ManifestFault;
use crate::line::{Line, add, read_action};
use crate::logical::{Remaining, next_logical};
use ips_action::{Action, ActionKind, Values, actions_read_back, print_line};
use ips_text::{Or, Text};
use std::alloc::{AllocError, Global};

/// What a package consists of (pkg(7)): its actions, in the order in which they stand.
#[derive(Drop)]
pub struct Manifest {
    /// The actions, each with the number of its line.
    pub lines: Vec<Line>,
}

impl Manifest {
    /// Reads a manifest, which has to be all of the bytes: UTF-8 text, one action a line. A line that ends with a backslash goes
    /// on with the next, and the backslash is dropped. Lines that are empty, blank, or begin with `#` behind blanks are skipped.
    /// A fault is that of the first line that has one. What is read is printed to a text that reads back, since the canonical line
    /// of each action is UTF-8 without a newline.
    pub fn read(alloc: Global, bytes: &[u8]) -> Result<Manifest, Or<ManifestFault>>
        ensures found { IfOk result (λ manifest. IsManifestOf bytes.now manifest.lines.items) }
        ensures only { (lines : List declared.Line) → IsManifestOf bytes.now lines → Gives (λ m. m.lines.items) result (Ok lines) }
        ensures fault { IfBad result (λ fault. IsFaultOf bytes.now fault) }
        ensures stand { IfOk result (λ manifest. AllByRecursion StandsOnLine manifest.lines.items) }
        ensures within { IfBad result (λ fault. fault.line ≤ length bytes.now) }
    {
        let lines = read_lines(alloc, bytes)?;
        Ok(Manifest { lines })
    }

    /// The canonical text: the canonical line of each action, in order, each ended by a newline.
    pub fn print(&self, alloc: Global) -> Result<Text, AllocError>
        ensures { IfOk result (λ text. text ≡ manifest_text self.now.lines.items) }
    {
        let mut out = String::new(alloc);
        push_lines(alloc, &mut out, &self.lines)?;
        Ok(Text::from_string(out))
    }

    /// Whether the package is obsolete (pkg(7), "Set Actions"): some `set` has `name=pkg.obsolete` and a value `true`.
    pub fn is_obsolete(&self) -> bool
        ensures { result ≡ list_any (λ line. spec.tells_obsolete line.action) self.now.lines.items }
    {
        for line in &self.lines {
            if tells_obsolete(&line.action) {
                return true;
            }
        }
        false
    }
}

// Whether an action tells that the package is obsolete.
fn tells_obsolete(action: &Action) -> bool
    ensures { result ≡ spec.tells_obsolete action.now }
{
    matches!(action.kind, ActionKind::Set)
        && has_value(action.attrs.values("name"), "pkg.obsolete")
        && has_value(action.attrs.values("value"), "true")
}

// Whether the value is one of these.
fn has_value(values: Values<'_>, value: &str) -> bool
    ensures { result ≡ list_any (is_same value.now) values.entry }
{
    let mut left = values;
    while let Some((text, rest)) = left.split_first() {
        if value == text {
            return true;
        }
        left = rest;
    }
    false
}

// The lines of a manifest.
fn read_lines(alloc: Global, bytes: &[u8]) -> Result<Vec<Line>, Or<ManifestFault>>
    requires { 1 + length bytes.now < 2 ^ 64 }
    ensures found { IfOk result (λ lines. IsManifestOf bytes.now lines.items) }
    ensures only { (lines : List declared.Line) → IsManifestOf bytes.now lines → Gives (λ v. v.items) result (Ok lines) }
    ensures fault { IfBad result (λ fault. IsFaultOf bytes.now fault) }
{
    let mut lines = Vec::new(alloc);
    let mut rest = Remaining { number: 1, bytes };
    while !rest.bytes.is_empty() {
        let (text, behind) = next_logical(alloc, rest)?;
        let action = read_action(alloc, rest.number, text.as_str())?;
        add(&mut lines, rest.number, action)?;
        rest = behind;
    }
    lines.shrink_to_fit();
    Ok(lines)
}

// Writes the canonical line of each action.
fn push_lines(alloc: Global, out: &mut String, lines: &[Line]) -> Result<(), AllocError>
    ensures { OnOk result (string_bytes out.new ≡ string_bytes out.old ++ manifest_text lines.now) }
{
    for line in lines {
        let text = print_line(alloc, &line.action)?;
        out.push_str(text.as_str())?;
        out.push_str("\n")?;
    }
    Ok(())
}

/// The law of manifests' texts: where each action stands on a line, the canonical text reads as the manifest, with the numbers
/// 1, 2 and so on; and no two manifests have one text, where the numbers are left out. Each action of a manifest that some
/// text means stands on a line, so whatever was read is printed to a text that reads back.
pub fn manifests_read_back()
    ensures one { (lines others : List declared.Line) → AllByRecursion StandsOnLine lines → AllByRecursion StandsOnLine others → manifest_text lines ≡ manifest_text others → map (λ line. line.action) lines ≡ map (λ line. line.action) others }
    ensures back { (lines : List declared.Line) → AllByRecursion StandsOnLine lines → IsManifestOf (manifest_text lines) (renumbered 1 lines) }
    ensures stand { (bytes : List ℕ) (lines : List declared.Line) → IsManifestOf bytes lines → AllByRecursion StandsOnLine lines }
    ensures again { (bytes : List ℕ) (lines : List declared.Line) → IsManifestOf bytes lines → IsManifestOf (manifest_text lines) (renumbered 1 lines) }
{
    actions_read_back();
}

/// The law of a fault's line: it is at most the number of the text's bytes.
pub fn faults_have_lines()
    ensures { (bytes : List ℕ) (fault : declared_fault.ManifestFault) → IsFaultOf bytes fault → fault.line ≤ length bytes }
{}
