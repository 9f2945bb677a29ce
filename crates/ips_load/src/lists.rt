//! The records that list one thing a line, loaded.

ghost use Rattle.std.specs.Prelude.{◌≡◌, IsTrue, IfOk, map};
ghost use Rattle.ips_text.specs.Reading.{IfBad};
ghost use Rattle.ips_text.specs.declared.refusal.Or.TheVariants.{Bad};
ghost use Rattle.ips_outside.specs.Outside.{Reads};
ghost use Rattle.ips_records.specs.Lines.{lines_text};
ghost use Rattle.std.specs.List.{AllByRecursion};
ghost use Rattle.ips_records.specs.Form.{IsRequestLine};
ghost use Rattle.ips_state.specs.Text.{name_lines, mediator_line};
ghost use Rattle.ips_state.specs.Lawful.{AreStems, AreVersioned, AreMediators};
ghost use Rattle.ips_load.specs.Held.{Stands};
ghost use Rattle.ips_load.specs.Fault.{IsBadText, IsFileFault, IsStemsFile, IsNamesFile, IsMediatorsFile, IsHistoryFile};
ghost use Rattle.ips_load.specs.declared.fault.StateFault.TheVariants as fault;

use crate::fault::StateFault;
use crate::files::load_list;
use crate::listings::{Mediators, Names, Requests, Stems};
use ips_fmri::Fmri;
use ips_mediate::SetMediator;
use ips_outside::Source;
use ips_text::{Or, RelPath, Text};
use std::alloc::Global;

/// The stems that the record at a path lists.
pub fn load_stems<F: Source>(
    alloc: Global,
    folder: &mut F,
    path: &RelPath,
) -> Result<Vec<Text>, Or<StateFault>>
    ensures lawful { IfOk result (λ stems. AreStems stems.items) }
    ensures found { IsTrue (F.outside.tells folder.old) → IfOk result (λ stems. Stands (F.outside.state folder.old).held path.now.bytes (lines_text stems.items)) }
    ensures fault { IsTrue (F.outside.tells folder.old) → IfBad result (IsFileFault (IsBadText IsStemsFile) (F.outside.state folder.old).held path.now.bytes) }
    ensures reads { Reads F.outside folder.old folder.new (result ≡ Err (Bad fault.FolderFault)) }
{
    load_list::<F, Stems>(alloc, folder, path)
}

/// The stems at a version that the record at a path lists.
pub fn load_names<F: Source>(
    alloc: Global,
    folder: &mut F,
    path: &RelPath,
) -> Result<Vec<Fmri>, Or<StateFault>>
    ensures lawful { IfOk result (λ names. AreVersioned names.items) }
    ensures found { IsTrue (F.outside.tells folder.old) → IfOk result (λ names. Stands (F.outside.state folder.old).held path.now.bytes (lines_text (name_lines names.items))) }
    ensures fault { IsTrue (F.outside.tells folder.old) → IfBad result (IsFileFault (IsBadText IsNamesFile) (F.outside.state folder.old).held path.now.bytes) }
    ensures reads { Reads F.outside folder.old folder.new (result ≡ Err (Bad fault.FolderFault)) }
{
    load_list::<F, Names>(alloc, folder, path)
}

/// What the record at a path sets of mediators.
pub fn load_mediators<F: Source>(
    alloc: Global,
    folder: &mut F,
    path: &RelPath,
) -> Result<Vec<SetMediator>, Or<StateFault>>
    ensures lawful { IfOk result (λ mediators. AreMediators mediators.items) }
    ensures found { IsTrue (F.outside.tells folder.old) → IfOk result (λ mediators. Stands (F.outside.state folder.old).held path.now.bytes (lines_text (map mediator_line mediators.items))) }
    ensures fault { IsTrue (F.outside.tells folder.old) → IfBad result (IsFileFault (IsBadText IsMediatorsFile) (F.outside.state folder.old).held path.now.bytes) }
    ensures reads { Reads F.outside folder.old folder.new (result ≡ Err (Bad fault.FolderFault)) }
{
    load_list::<F, Mediators>(alloc, folder, path)
}

/// The requests that the record at a path lists.
pub fn load_history<F: Source>(
    alloc: Global,
    folder: &mut F,
    path: &RelPath,
) -> Result<Vec<Text>, Or<StateFault>>
    ensures lawful { IfOk result (λ history. AllByRecursion IsRequestLine history.items) }
    ensures found { IsTrue (F.outside.tells folder.old) → IfOk result (λ history. Stands (F.outside.state folder.old).held path.now.bytes (lines_text history.items)) }
    ensures fault { IsTrue (F.outside.tells folder.old) → IfBad result (IsFileFault (IsBadText IsHistoryFile) (F.outside.state folder.old).held path.now.bytes) }
    ensures reads { Reads F.outside folder.old folder.new (result ≡ Err (Bad fault.FolderFault)) }
{
    load_list::<F, Requests>(alloc, folder, path)
}
