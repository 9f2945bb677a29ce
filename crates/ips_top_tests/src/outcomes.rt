//! Each way in which a run may end, but for want of memory, which no run meets here.

use crate::packages::bare;
use crate::runs::rows_told;
use crate::world::World;
use ips_report::Outcome;

/// The number of the way in which a run ended, counted from 0; the last is want of memory.
pub fn ending_of(outcome: &Outcome) -> u32 {
    match outcome {
        Outcome::Usage { .. } => 0,
        Outcome::Unfinished => 1,
        Outcome::BadJournal { .. } => 2,
        Outcome::Recovered { forward: true } => 3,
        Outcome::Recovered { forward: false } => 4,
        Outcome::NoImage => 5,
        Outcome::ImageExists => 6,
        Outcome::BadImage { .. } => 7,
        Outcome::OldFormat => 8,
        Outcome::NoIndex => 9,
        Outcome::NoRepository => 10,
        Outcome::BadCatalog { .. } => 11,
        Outcome::NoMatch { .. } => 12,
        Outcome::Ambiguous { .. } => 13,
        Outcome::ManifestMissing { .. } => 14,
        Outcome::BadManifest { .. } => 15,
        Outcome::BadDepend { .. } => 16,
        Outcome::NoSolution { .. } => 17,
        Outcome::SearchSpent { .. } => 18,
        Outcome::NothingToDo => 19,
        Outcome::Reserved { .. } => 20,
        Outcome::Clash(_) => 21,
        Outcome::BadAccountLine { .. } => 22,
        Outcome::IdTaken { .. } => 23,
        Outcome::UnknownOwner { .. } => 24,
        Outcome::LicenseNeeded { .. } => 25,
        Outcome::Unmovable { .. } => 26,
        Outcome::PayloadMissing { .. } => 27,
        Outcome::PayloadDamaged { .. } => 28,
        Outcome::Compressed { .. } => 29,
        Outcome::TooLarge { .. } => 30,
        Outcome::ActuatorFailed { after: false, .. } => 31,
        Outcome::ActuatorFailed { after: true, .. } => 32,
        Outcome::SpawnFault { after: false } => 33,
        Outcome::SpawnFault { after: true } => 34,
        Outcome::SourceFault => 35,
        Outcome::FolderFault { unfinished: false } => 36,
        Outcome::FolderFault { unfinished: true } => 37,
        Outcome::Damaged { .. } => 38,
        Outcome::Done { .. } => 39,
        Outcome::Shown { .. } => 40,
        Outcome::OutOfMemory => 41,
    }
}

// How many ways there are.
const ENDINGS: u32 = 42;

// One image and one repository, in which each way is met.
const OUTCOMES: &str = r#"
# words that are no command
run | -> 2 "usage: word 0: missing\n"
does | -> 2 usage: word 4: unknown
does | list list -> 2 usage: word 5: extra
does | install --accept --accept x -> 2 usage: word 6: repeated
does | install --search-limit 0 x -> 2 usage: word 6: bad value
# no image, an image, a second one
does | list -> 1 no image
does | fix -> 1 no image
does | image-create -p test --actuator /bin/svc -> 0 done
does | image-create -p test -> 1 image exists
# no repository, one of another format, and the mark of one
stock | pkg5.repository | [repository]%0aversion = 3%0a ->
does | install p -> 1 no repository
lose | pkg5.repository ->
does | update -> 1 no repository
does | list -> 0 nothing
stock | pkg5.repository | [repository]%0a version = 4 %0a ->
# catalogs that are none, and one without the publisher
does | install p -> 1 bad catalog
stock | publisher/test/catalog/catalog.base.C | {"test": {"p": [{"version": "1" ->
does | install p -> 1 bad catalog
stock | publisher/test/catalog/catalog.base.C | ([*200)(]*200) ->
does | install p -> 1 bad catalog
stock | publisher/test/catalog/catalog.base.C | {"test": {"p": {}}} ->
does | install p -> 1 bad catalog
stock | publisher/test/catalog/catalog.base.C | {"test": {"p": [{"version": "1."}]}} ->
does | install p -> 1 bad catalog
stock | publisher/test/catalog/catalog.base.C | {"test": {"p": [{"version": "1"}, {"version": "1"}]}} ->
does | install p -> 1 bad catalog
stock | publisher/test/catalog/catalog.base.C | {"other": {"p": [{"version": "1"}]}} ->
does | install p -> 1 no match p
# a catalog of as many stems as are taken, and one of more
crowd | 20000 ->
does | install p -> 1 no match p
crowd | 20001 ->
does | install p -> 1 too large: 20001
# patterns
catalog | a/p 1; b/p 1; p1 1; x 1; y 1 ->
does | install p -> 1 ambiguous p: a/p b/p
does | install /p -> 1 no match pkg:/p
does | uninstall x -> 1 no match x
does | update x -> 1 no match x
does | contents x -> 1 no match x
# manifests: none, none of the grammar, and dependencies that are none
does | install p1 -> 1 manifest missing p1@1
package | p1@1 | dir path=a//b $dir ->
does | install p1 -> 1 bad manifest p1@1 line 1
package | p1@1 | set name=info value=x; dir path=../etc $dir ->
does | install p1 -> 1 bad manifest p1@1 line 2
package | p1@1 | hardlink path=bin/b target=../../x ->
does | install p1 -> 1 bad manifest p1@1 line 1
stock | publisher/test/pkg/p1/1 | set name=info value=%ff%0a ->
does | install p1 -> 1 bad manifest p1@1 line 1
package | p1@1 | set name=info value=x; depend type=frob fmri=x ->
does | install p1 -> 1 bad depend p1@1 line 2
package | p1@1 | depend type=require fmri=x fmri=y ->
does | install p1 -> 1 bad depend p1@1 line 1
package | p1@1 | depend type=conditional fmri=x ->
does | install p1 -> 1 bad depend p1@1 line 1
package | p1@1 | depend type=require fmri=x predicate=y ->
does | install p1 -> 1 bad depend p1@1 line 1
package | p1@1 | depend type=require fmri=x@01 ->
does | install p1 -> 1 bad depend p1@1 line 1
swell | publisher/test/pkg/p1/1 | 16777217 ->
does | install p1 -> 1 too large: 16777217
# choices
package | x@1 | file $abc path=x $file ->
package | y@1 | set name=info value=x ->
package | p1@1 | depend fmri=x type=require; depend fmri=x type=exclude ->
does | install p1 -> 1 - | 0 | n0
package | p1@1 | depend fmri=x fmri=y type=require-any ->
does | install --search-limit 2 p1 -> 1 search limit 2 spent
# meanings, and what the image has
package | p1@1 | dir path=var/pkg/x $dir ->
does | install p1 -> 1 reserved var/pkg/x
package | p1@1 | link path=x target=y ->
does | install p1 x -> 1 clash x p1:1 x:1
package | p1@1 | dir path=home group=bin mode=0755 owner=nobody9 ->
does | install p1 -> 1 unknown owner nobody9 of home
package | p1@1 | user username=p1 group=bin uid=70 ->
put | etc/passwd | a:b%0a ->
does | install p1 -> 1 bad account line passwd 1
put | etc/passwd | rsu:x:70:2::/:%0a ->
does | install p1 -> 1 id taken 70
remove | etc ->
package | p1@1 | license $abc license=L must-accept=true ->
does | install p1 -> 6 license needed: p1 L
package | p1@1 | file $abc path=pipe $file ->
other | pipe ->
does | install p1 -> 1 unmovable pipe
remove | pipe ->
# payloads
package | p1@1 | file $lost path=a $file ->
does | install p1 -> 1 payload missing 3333333333333333333333333333333333333333
package | p1@1 | file $damaged path=a $file ->
does | install p1 -> 1 payload damaged cb4cc28df0fdbe0ecf9d9662e294b118092a5735 found c9a2a5540dcfc3ebad99e723223675d3f15edc54
package | p1@1 | file $gzip path=a $file ->
does | install p1 -> 1 compressed 2222222222222222222222222222222222222222 found c1df680e393d04a2a3b050a06db652e9ab37f761
# actuators: behind a change the image is new, before it nothing is changed
package | p1@1 | file $abc path=a $file restart_fmri=svc:/a disable_fmri=svc:/b ->
with | -R i -s r install p1 | spawner 1 -> 1 "spawn fault after\n"
look | a -> file 644 "abc"
with | -R i -s r uninstall p1 | spawner 1 -> 1 "spawn fault before\n"
look | a -> file 644 "abc"
does | fix -> 4 nothing to do
status | 3 ->
does | uninstall p1 -> 1 actuator failed before 3: /bin/svc disable svc:/b
look | a -> file 644 "abc"
status | 0 ->
does | uninstall p1 -> 0 done
status | 3 ->
does | install p1 -> 1 actuator failed after 3: /bin/svc restart svc:/a
look | a -> file 644 "abc"
# faults of the repository, of the image and of what takes the report
with | -R i -s r install x | source 1 -> 1 "source fault\n"
with | -R i -s r install x | folder 1 -> 1 "folder fault: unchanged\n"
look | x -> absent
with | -R i -s r install x | sink 1 -> 1 part ""
look | x -> file 644 "abc"
does | uninstall x -> 0 done
with | -R i -s r install x | folder 82 -> 1 "folder fault: unfinished\n"
# a gate that stands open, whatever stands there
does | list -> 1 unfinished: run fix
does | fix -> 0 recovered: new image
does | fix -> 4 nothing to do
look | x -> file 644 "abc"
put | var/pkg/gate/in | x ->
put | var/pkg/journal | journal 1%0afresh 0755 opt%0aend 1%0a ->
does | fix -> 0 recovered: new image
look | opt -> dir 755
put | var/pkg/gate | ->
does | fix -> 1 bad journal line 1
put | var/pkg/journal | journal 1%0afresh 0755 opt%0afrob%0aend 2%0a ->
does | fix -> 1 bad journal line 3
put | var/pkg/journal | journal 1%0afresh 0755 opt/a/b%0aend 1%0a ->
does | fix -> 1 bad journal line 2
put | var/pkg/journal | journal 1%0aput 0 0644 opt/a%0aend 1%0a ->
does | fix -> 1 bad journal line 2
remove | var/pkg/gate ->
does | fix -> 0 recovered: leftovers cleared
# an image that is damaged, an image without an index, records that are none, and those of the first format
remove | x ->
does | verify -> 1 damaged 1
does | fix -> 0 done
does | verify -> 0 ok
does | search x -> 1 no index
put | var/pkg/avoid | =%0a ->
does | list -> 1 bad image var/pkg/avoid line 1
put | var/pkg/avoid | ->
put | var/pkg/image | image 9%0a ->
does | list -> 1 bad image var/pkg/image line 1
put | var/pkg/image | image 1%0apublisher test%0a ->
put | var/pkg/installed | ->
does | fix -> 1 old format: run update-format
"#;

#[test]
fn each_outcome_is_reached(rt: HostRuntime) {
    let alloc = rt.alloc();
    let mut world = World::new(alloc, bare(&rt, alloc));
    let rows = rows_told(&rt, alloc, &mut world, OUTCOMES);
    assert!(rt; rows == 141, "{rows} rows");
    for ending in 0..ENDINGS - 1 {
        assert!(rt; world.has_ended(ending), "no run ended in the way {ending}");
    }
    assert!(rt; !world.has_ended(ENDINGS - 1), "want of memory");
}
