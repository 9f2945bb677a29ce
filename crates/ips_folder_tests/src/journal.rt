//! The text of a journal, and how it is read from a folder in memory. In a script each of its lines ends in `;`.

ghost use Rattle.std.specs.Prelude.{◌≡◌, [], Some, IsSome, IsTrue};
ghost use Rattle.ips_outside.specs.Image.{file_bytes};
ghost use Rattle.ips_folder.specs.Calls.{IsSole};
ghost use Rattle.ips_folder.specs.Memory.{mem_folder};
ghost use Rattle.ips_steps.specs.Private.{journal_name};
ghost use Rattle.ips_journal.specs.Writing.{IsWritten};

use crate::outside::tree_of;
use crate::script::{Player, agree, first, number, number_told, path, play, told};
use crate::steps::{read_step, sort_word};
use ips_folder::MemFolder;
use ips_journal::{JournalWriter, StepFault, StepReader, write_steps};
use ips_steps::Step;
use ips_text::RelPath;
use std::alloc::Global;
use std::process::Abort;

// The bytes of a text, with another byte in place of one.
fn with(rt: &impl Abort, alloc: Global, text: &[u8], other: u8, one: u8) -> Vec<u8> {
    let mut bytes = told(rt, alloc, text);
    for byte in bytes.iter_mut() {
        if *byte == one {
            *byte = other;
        }
    }
    bytes
}

// A folder that holds this journal, and of which the call with this number fails.
#[tactic(auto, unfolding(ips_steps::specs::Private::journal_name))]
fn folder(rt: &impl Abort, alloc: Global, journal: &[u8], fails: u64) -> MemFolder
    ensures sole { IsSole (mem_folder.state result).held journal_name }
    ensures held { file_bytes ((mem_folder.state result).held.look journal_name) ≡ Some journal.now }
{
    let mut tree = tree_of(rt, alloc, "dir var 755\ndir var/pkg 755");
    let Ok(place) = RelPath::parse(alloc, b"var/pkg/journal") else {
        panic!(rt; "no path");
    };
    let Ok(()) = tree.file(alloc, &place, 0o644, journal) else {
        panic!(rt; "no journal");
    };
    let fails = Vec::from_slice(alloc, &[fails]).expect(rt, "memory");
    let Ok(folder) = MemFolder::new(alloc, tree, fails, None) else {
        panic!(rt; "no memory");
    };
    folder
}

// How many steps the journal has, of which at most ten are read.
fn read_all(reader: &mut StepReader, folder: &mut MemFolder) -> Result<u64, StepFault> {
    reader.rewind();
    for count in 0..10u64 {
        if !reader.next(folder)? {
            return Ok(count);
        }
    }
    Ok(10)
}

// The same in words, or the first bad line, which has to be the line that was read last.
fn read_told(
    rt: &impl Abort,
    alloc: Global,
    reader: &mut StepReader,
    folder: &mut MemFolder,
) -> Vec<u8> {
    let (word, number) = match read_all(reader, folder) {
        Ok(count) => ("steps", count),
        Err(StepFault::BadJournal { line }) if line == reader.line() => ("bad line", line),
        Err(StepFault::BadJournal { line }) => ("another line", line),
        Err(StepFault::FolderFault) => return told(rt, alloc, b"failed"),
    };
    format!(in alloc; "{word} {number}")
        .expect(rt, "memory")
        .into_bytes()
}

// Puts the bytes of two texts behind a text.
fn push(rt: &impl Abort, text: &mut Vec<u8>, front: &str, bytes: &[u8]) {
    text.extend_from_slice(front.as_bytes())
        .expect(rt, "memory");
    text.extend_from_slice(bytes).expect(rt, "memory");
}

// The sort and path of the step that the reader lends, its parent, the file of its content and its target, where it has one.
fn push_step(rt: &impl Abort, reader: &StepReader, text: &mut Vec<u8>)
    requires { IsSome reader.now.step }
{
    let step = reader.step();
    push(rt, text, sort_word(step.sort()), b" ");
    push(rt, text, "", step.path().bytes());
    if let Some(dir) = reader.parent() {
        push(rt, text, " below ", dir.bytes());
    }
    if let Some(file) = reader.staged() {
        push(rt, text, " of ", file.bytes());
    }
    if let Step::Link { target, .. } = step {
        push(rt, text, " to ", target.bytes());
    }
    push(rt, text, ";", b"");
}

// What the reader lends from this line on, of a journal of which each line but the first and the last is a step.
fn lent(
    rt: &impl Abort,
    alloc: Global,
    reader: &mut StepReader,
    folder: &mut MemFolder,
    from: u64,
) -> Vec<u8>
    requires { IsTrue reader.old.is_open }
{
    let mut text = Vec::new(alloc);
    for line in 2..12u64 {
        if !reader.next(folder).ok().expect(rt, "no fault") {
            break;
        }
        assert!(rt; reader.line() == line);
        if line >= from {
            push_step(rt, reader, &mut text);
        }
    }
    text
}

// The steps of these lines.
fn steps_of(rt: &impl Abort, alloc: Global, lines: &str) -> Vec<Step> {
    let mut steps = Vec::new(alloc);
    for line in lines.split(';') {
        steps.push(read_step(rt, alloc, line)).expect(rt, "memory");
    }
    steps
}

// So many steps that put a file.
fn many(rt: &impl Abort, alloc: Global, count: u64) -> Vec<Step> {
    let mut steps = Vec::new(alloc);
    for number in 0..count {
        let line = format!(in alloc; "put {number} 0644 usr/share/file{number}").expect(
            rt, "memory",
        );
        steps.push(read_step(rt, alloc, &line)).expect(rt, "memory");
    }
    steps
}

// Writes the lines of the steps.
fn put_steps(rt: &impl Abort, writer: &mut JournalWriter, steps: &[Step], folder: &mut MemFolder)
    requires { IsWritten writer.old (mem_folder.state folder.old).held [] }
    ensures { IsSole (mem_folder.state folder.new).held journal_name }
{
    for step in steps {
        let Ok(()) = writer.step(folder, step) else {
            panic!(rt; "a failed call");
        };
    }
}

// What stands at the journal's place, where a writer has written it.
fn written(rt: &impl Abort, alloc: Global, steps: &[Step]) -> Vec<u8> {
    let mut folder = folder(rt, alloc, b"", 0);
    let mut writer = JournalWriter::new(alloc).expect(rt, "memory");
    put_steps(rt, &mut writer, steps, &mut folder);
    writer.finish(&mut folder).ok().expect(rt, "no fault");
    let text = folder.tree().bytes(&path(rt, alloc, "var/pkg/journal"));
    told(rt, alloc, text.expect(rt, "a journal"))
}

// The journal of the steps, which a writer writes as well.
fn text_of(rt: &impl Abort, alloc: Global, steps: &[Step]) -> Vec<u8> {
    let text = write_steps(alloc, steps).ok().expect(rt, "memory");
    assert!(rt; written(rt, alloc, steps).as_slice() == text.as_slice());
    with(rt, alloc, &text, b';', b'\n')
}

// A folder with the journal of these lines.
fn folder_of(rt: &impl Abort, alloc: Global, lines: &str, fails: u64) -> MemFolder {
    folder(
        rt,
        alloc,
        &with(rt, alloc, lines.as_bytes(), b'\n', b';'),
        fails,
    )
}

// What is read of a journal. Where a call fails, reading fails, and the journal is read again.
fn read(
    rt: &impl Abort,
    alloc: Global,
    reader: &mut StepReader,
    fails: u64,
    lines: &str,
) -> Vec<u8> {
    let mut folder = folder_of(rt, alloc, lines, fails);
    if fails > 0 {
        agree(
            rt,
            alloc,
            lines,
            read_told(rt, alloc, reader, &mut folder),
            "failed",
        );
    }
    read_told(rt, alloc, reader, &mut folder)
}

// What a new reader lends of a journal from this line on, and lends again once it has gone back.
fn lend(rt: &impl Abort, alloc: Global, from: u64, lines: &str) -> Vec<u8> {
    let mut reader = StepReader::new(alloc).expect(rt, "memory");
    let mut folder = folder_of(rt, alloc, lines, 0);
    let text = lent(rt, alloc, &mut reader, &mut folder, from);
    reader.rewind();
    let again = lent(rt, alloc, &mut reader, &mut folder, from);
    assert!(rt; again.as_slice() == text.as_slice(), "{again:?}");
    text
}

// `read CALL JOURNAL` tells what is read, where this call of the folder fails, and `lend LINE JOURNAL` what is lent. `write STEPS`
// tells the journal of some steps, and `many COUNT` how many bytes that of so many steps has.
impl Player for StepReader {
    fn answer<R: Abort>(&mut self, rt: &R, alloc: Global, call: &str) -> Vec<u8> {
        let (name, rest) = first(call);
        if name == "write" {
            return text_of(rt, alloc, &steps_of(rt, alloc, rest));
        }
        let (count, lines) = first(rest);
        let count = number(rt, count);
        match name {
            "read" => read(rt, alloc, self, count, lines),
            "lend" => lend(rt, alloc, count, lines),
            _ => {
                let text = text_of(rt, alloc, &many(rt, alloc, count));
                number_told(rt, alloc, Ok(text.len()))
            }
        }
    }
}

// Journals, and the number of the first bad line.
const BAD_LINES: &str = "
read 0  -> bad line 1
read 0 journal 1 -> bad line 1
read 0 journal 2;end 0; -> bad line 1
# no last line, and one without its newline
read 0 journal 1; -> bad line 2
read 0 journal 1;end 0 -> bad line 2
# another number of steps
read 0 journal 1;end 1; -> bad line 2
read 0 journal 1;gone a;end 0; -> bad line 3
# more behind the last line
read 0 journal 1;end 0;end 0; -> bad line 3
# no path, one that isn't shown so, and names that no step may have
read 0 journal 1;gone /a;end 1; -> bad line 2
read 0 journal 1;gone a b;end 1; -> bad line 2
read 0 journal 1;gone var;end 1; -> bad line 2
read 0 journal 1;gone a;gone var/pkg/stage/0;end 2; -> bad line 3
# a mode of three digits
read 0 journal 1;fresh 755 a;end 1; -> bad line 2
# contents that aren't numbered one after another
read 0 journal 1;put 1 0644 a;end 1; -> bad line 2
read 0 journal 1;put 0 0644 a;put 0 0644 b;end 2; -> bad line 3
# no target, and one that isn't quoted so
read 0 journal 1;link a ;end 1; -> bad line 2
read 0 journal 1;link a %2f;end 1; -> bad line 2
# no system takes a target with a NUL
read 0 journal 1;link a b%00;end 1; -> bad line 2
";

// The call that fails: a look, a read of the text and one behind its end.
const FAULTS: &str = "
read 1 journal 1;mode 0755 var;end 1; -> steps 1
read 2 journal 1;mode 0755 var;end 1; -> steps 1
read 3 journal 1;mode 0755 var;end 1; -> steps 1
";

// Steps and their journal, which reads back.
const WRITTEN: &str = "
many 0 -> 16
many 1 -> 43
many 5000 -> 162799
# the first installation of a package with one file
write fresh 0755 usr;fresh 0755 usr/share;put 0 0644 usr/share/hello;\
put 1 0644 var/pkg/history;put 2 0644 var/pkg/owners;put 3 0644 var/pkg/packages/hello \
-> journal 1;fresh 0755 usr;fresh 0755 usr/share;put 0 0644 usr/share/hello;\
put 1 0644 var/pkg/history;put 2 0644 var/pkg/owners;put 3 0644 var/pkg/packages/hello;end 6;
read 0 journal 1;fresh 0755 usr;fresh 0755 usr/share;put 0 0644 usr/share/hello;\
put 1 0644 var/pkg/history;put 2 0644 var/pkg/owners;put 3 0644 var/pkg/packages/hello;end 6; -> steps 6
# a step of each sort
write gone a;fresh 0755 b;mode 0700 var/pkg;put 0 0644 b/c;link b/d %252F;hard b/e b/c \
-> journal 1;gone a;fresh 0755 b;mode 0700 var/pkg;put 0 0644 b/c;link b/d %25252F;hard b/e b/c;end 6;
# targets of any bytes, as a journal quotes them
write link a /c -> journal 1;link a %252Fc;end 1;
lend 2 journal 1;link a %2Fc;end 1; -> Link a to /c;
write link a %01 -> journal 1;link a %2501;end 1;
lend 2 journal 1;link a %01;end 1; -> Link a to %01;
write link a a%01b%FF -> journal 1;link a a%2501b%25FF;end 1;
lend 2 journal 1;link a a%01b%FF;end 1; -> Link a to a%01b%FF;
";

// What is lent of each step, from a line on.
const LENT: &str = "
lend 2 journal 1;gone usr%20a/b;mode 0700 var/pkg;put 0 0644 a;link a/b %2Fc;hard a/c a/b;end 5; \
-> Gone usr a/b below usr a;Mode var/pkg below var;Put a of var/pkg/stage/0;Link a/b below a to /c;Hard a/c below a;
# it reads on where it stands
lend 4 journal 1;gone usr%20a/b;mode 0700 var/pkg;put 0 0644 a;link a/b %2Fc;hard a/c a/b;end 5; \
-> Put a of var/pkg/stage/0;Link a/b below a to /c;Hard a/c below a;
";

#[test]
fn journals_are_read_and_written(rt: HostRuntime) {
    let alloc = rt.alloc();
    let mut reader = StepReader::new(alloc).expect(&rt, "memory");
    play(&rt, alloc, &mut reader, BAD_LINES, 18);
    play(&rt, alloc, &mut reader, FAULTS, 3);
    play(&rt, alloc, &mut reader, WRITTEN, 12);
    play(&rt, alloc, &mut reader, LENT, 2);
}
