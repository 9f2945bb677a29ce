//! The cases, each table behind what it shows.

use crate::packages::repository;
use crate::runs::rows_told;
use crate::world::World;

// An image that is made, and changed by commands, and what then stands in it.
const COMMANDS: &str = r#"
# words that are none, and what needs no image
run | -R i -s r install -> 2 "usage: word 5: missing\n"
run | -R i -s r frob -> 2 "usage: word 4: unknown\n"
run | --version -> 0 "pkg 0.1\n"
# no image, an image, and not another one
run | -R i -s r list -> 1 "no image\n"
run | -R i -s r image-create -p test -> 0 "install 0, update 0, remove 0\nsteps: gone 0, fresh 3, mode 0, put 7, link 0, hard 0\ndone\n"
run | -R i -s r image-create -p test -> 1 "image exists\n"
look | var/pkg/image -> file 644 "image 2\npublisher test\n"
look | var/pkg/lost+found -> dir 755
look | var/pkg/history -> file 644 "20240102T030405Z image-create -p test\n"
# a package
run | -R i -s r install hello -> 0 "install 1, update 0, remove 0\nsteps: gone 0, fresh 2, mode 0, put 4, link 0, hard 0\ndone\n"
look | usr/share/hello -> file 644 "abc"
look | var/pkg/owners -> file 644 "0 2 root bin usr\n0 2 root bin usr/share\n0 2 root bin usr/share/hello\n"
look | var/pkg/history -> file 644 "20240102T030405Z image-create -p test\n20240102T030405Z install hello\n"
look | var/pkg/stage -> absent
run | -R i -s r install hello -> 4 "nothing to do\n"
run | -R i -s r list -> 0 "hello@1.0,5.11-1:20240102T030405Z\n"
run | -R i -s r contents hello -> 0 "usr\nusr/share\nusr/share/hello\n"
run | -R i -s r verify -> 0 "ok\n"
# a damaged file is found and repaired
remove | usr/share/hello ->
run | -R i -s r verify -> 1 "missing usr/share/hello\ndamaged 1\n"
run | -R i -s r fix -> 0 "install 0, update 0, remove 0\nsteps: gone 0, fresh 0, mode 0, put 2, link 0, hard 0\ndone\n"
run | -R i -s r verify -> 0 "ok\n"
run | -R i -s r fix -> 4 "nothing to do\n"
look | usr/share/hello -> file 644 "abc"
# and the package goes
run | -R i -s r uninstall hello -> 0 "install 0, update 0, remove 1\nsteps: gone 4, fresh 0, mode 0, put 2, link 0, hard 0\ndone\n"
look | usr -> absent
look | var/pkg/packages -> dir 755
# one more name of a file goes with it
run | -R i -s r install x@1 -> 0 "install 1, update 0, remove 0\nsteps: gone 0, fresh 1, mode 0, put 4, link 0, hard 1\ndone\n"
run | -R i -s r update -> 0 "install 0, update 1, remove 0\nsteps: gone 0, fresh 0, mode 0, put 3, link 0, hard 1\ndone\n"
look | bin/b -> file 644 ""
same | bin/a | bin/b -> true
# what a user put into a directory that goes is salvaged, twice at one moment
run | -R i -s r install opt/app -> 0 "install 1, update 0, remove 0\nsteps: gone 0, fresh 2, mode 0, put 4, link 0, hard 0\ndone\n"
put | opt/app/notes | n ->
run | -R i -s r uninstall opt/app -> 0 "install 0, update 0, remove 1\nsteps: gone 4, fresh 3, mode 0, put 3, link 0, hard 0\ndone\n"
look | var/pkg/lost+found/20240102T030405Z/opt/app/notes -> file 644 "n"
look | opt -> absent
# a freeze, which an update keeps, and an avoided package
run | -R i -s r uninstall x -> 0 "install 0, update 0, remove 1\nsteps: gone 4, fresh 0, mode 0, put 2, link 0, hard 0\ndone\n"
run | -R i -s r install x@1 -> 0 "install 1, update 0, remove 0\nsteps: gone 0, fresh 1, mode 0, put 4, link 0, hard 1\ndone\n"
run | -R i -s r freeze x@1 -> 0 "install 0, update 0, remove 0\nsteps: gone 0, fresh 0, mode 0, put 2, link 0, hard 0\ndone\n"
run | -R i -s r update -> 4 "nothing to do\n"
run | -R i -s r avoid y -> 0 "install 0, update 0, remove 0\nsteps: gone 0, fresh 0, mode 0, put 2, link 0, hard 0\ndone\n"
run | -R i -s r install g -> 0 "install 1, update 0, remove 0\nsteps: gone 0, fresh 0, mode 0, put 2, link 0, hard 0\ndone\n"
run | -R i -s r list -> 0 "g@1\nx@1\n"
"#;

// An image that is made where something stands at the path of an index, and loads.
const CREATIONS: &str = r#"
put | var/pkg/index | no index%0a ->
run | -R i -s r image-create -p test -> 0 "install 0, update 0, remove 0\nsteps: gone 1, fresh 3, mode 0, put 7, link 0, hard 0\ndone\n"
look | var/pkg/index -> absent
run | -R i -s r install hello -> 0 "install 1, update 0, remove 0\nsteps: gone 0, fresh 2, mode 0, put 4, link 0, hard 0\ndone\n"
remove | var ->
put | var/pkg/index/rows | no rows%0a ->
run | -R i -s r image-create -p test -> 0 "install 0, update 0, remove 0\nsteps: gone 1, fresh 3, mode 0, put 7, link 0, hard 0\ndone\n"
look | var/pkg/index -> absent
look | var/pkg/index/rows -> absent
run | -R i -s r list -> 0 ""
"#;

// What settings do.
const SETTINGS: &str = r#"
run | -R i -s r image-create -p test --facet facet.doc=false -> 0 "install 0, update 0, remove 0\nsteps: gone 0, fresh 3, mode 0, put 7, link 0, hard 0\ndone\n"
run | -R i -s r install doc -> 0 "install 1, update 0, remove 0\nsteps: gone 0, fresh 0, mode 0, put 2, link 0, hard 0\ndone\n"
look | doc -> absent
run | -R i -s r change-facet facet.doc=true -> 0 "install 0, update 0, remove 0\nsteps: gone 0, fresh 0, mode 0, put 4, link 0, hard 0\ndone\n"
look | doc -> file 644 "abc"
# the vendor's link, then one of a version that is set, then none
run | -R i -s r install python2 python3 -> 0 "install 2, update 0, remove 0\nsteps: gone 0, fresh 0, mode 0, put 3, link 1, hard 0\ndone\n"
look | python -> link "python2.7"
run | -R i -s r set-mediator -V 3.9 python -> 0 "install 0, update 0, remove 0\nsteps: gone 0, fresh 0, mode 0, put 2, link 1, hard 0\ndone\n"
look | python -> link "python3.9"
run | -R i -s r set-mediator -V 4.0 python -> 0 "install 0, update 0, remove 0\nsteps: gone 1, fresh 0, mode 0, put 2, link 0, hard 0\ndone\n"
look | python -> absent
# an index, and what is found in it
run | -R i -s r search hello -> 1 "no index\n"
run | -R i -s r rebuild-index -> 0 "install 0, update 0, remove 0\nsteps: gone 0, fresh 0, mode 0, put 2, link 0, hard 0\ndone\n"
run | -R i -s r search nothing -> 1 "no match nothing\n"
"#;

// Files that may be edited.
const EDITS: &str = r#"
run | -R i -s r image-create -p test -> 0 "install 0, update 0, remove 0\nsteps: gone 0, fresh 3, mode 0, put 7, link 0, hard 0\ndone\n"
run | -R i -s r install conf@1 kept@1 -> 0 "install 2, update 0, remove 0\nsteps: gone 0, fresh 1, mode 0, put 6, link 0, hard 0\ndone\n"
put | etc/x.conf | mine ->
put | etc/kept | mine ->
run | -R i -s r update -> 0 "install 0, update 2, remove 0\nsteps: gone 0, fresh 0, mode 2, put 4, link 0, hard 0\ndone\n"
look | etc/x.conf -> file 644 "mine"
look | etc/x.conf.new -> file 644 ""
look | etc/kept -> file 644 "mine"
"#;

// Accounts, licenses and actuators.
const ACTIONS: &str = r#"
run | -R i -s r image-create -p test --actuator /bin/echo -> 0 "install 0, update 0, remove 0\nsteps: gone 0, fresh 3, mode 0, put 7, link 0, hard 0\ndone\n"
run | -R i -s r install accounts -> 0 "install 1, update 0, remove 0\nsteps: gone 0, fresh 1, mode 0, put 5, link 0, hard 0\ndone\n"
look | etc/passwd -> file 644 "svc:x:70:70:& User:/:\n"
look | etc/shadow -> file 400 "svc:*LK*:::::::\n"
look | etc/group -> file 644 "svc::70:\n"
run | -R i -s r install taken -> 1 "id taken 70\n"
run | -R i -s r install nobody -> 1 "unknown owner nobody9 of home\n"
run | -R i -s r install license -> 6 "license needed: license L\n"
run | -R i -s r install --accept license -> 0 "license: license CDDL\ninstall 1, update 0, remove 0\nsteps: gone 0, fresh 1, mode 0, put 4, link 0, hard 0\ndone\n"
status | 3 ->
run | -R i -s r install acts -> 1 "actuator failed after 3: /bin/echo restart svc:/a\n"
ran | -> "/bin/echo\0restart\0svc:/a\0\n"
look | acts -> file 644 "abc"
status | 0 ->
run | -R i -s r uninstall acts -> 0 "install 0, update 0, remove 1\nsteps: gone 2, fresh 0, mode 0, put 2, link 0, hard 0\ndone\n"
with | -R i -s r install acts | spawner 1 -> 1 "spawn fault after\n"
look | acts -> file 644 "abc"
run | -R i -s r uninstall acts -> 0 "install 0, update 0, remove 1\nsteps: gone 2, fresh 0, mode 0, put 2, link 0, hard 0\ndone\n"
run | -R i -s r install acts -> 0 "install 1, update 0, remove 0\nsteps: gone 0, fresh 0, mode 0, put 4, link 0, hard 0\ndone\n"
ran | -> "/bin/echo\0restart\0svc:/a\0\n"
look | acts -> file 644 "abc"
"#;

// What is refused, and leaves the image as it was.
const REFUSALS: &str = r#"
run | -R i -s r image-create -p test -> 0 "install 0, update 0, remove 0\nsteps: gone 0, fresh 3, mode 0, put 7, link 0, hard 0\ndone\n"
run | -R i -s r install none -> 1 "no match none\n"
run | -R i -s r install a b -> 1 "no solution\nstem 0 a 1\nstem 1 b 1\nrefutation 2\n0.0 | 1 | t1\n- | 0 | n0\n"
run | -R i -s r install --search-limit 2 either -> 1 "search limit 2 spent\n"
run | -R i -s r install one other -> 1 "clash etc/m one:1 other:1\n"
run | -R i -s r install reserved -> 1 "reserved var/pkg/x\n"
run | -R i -s r install lost -> 1 "payload missing 3333333333333333333333333333333333333333\n"
run | -R i -s r install damaged -> 1 "payload damaged cb4cc28df0fdbe0ecf9d9662e294b118092a5735 found c9a2a5540dcfc3ebad99e723223675d3f15edc54\n"
run | -R i -s r install gzip -> 1 "compressed 2222222222222222222222222222222222222222 found c1df680e393d04a2a3b050a06db652e9ab37f761\n"
look | lost -> absent
look | damaged -> absent
look | gzip -> absent
look | var/pkg/history -> file 644 "20240102T030405Z image-create -p test\n"
run | -R i -s r install bad -> 1 "bad manifest bad@1 line 2\n"
run | -R i -s r install absent -> 1 "manifest missing absent@1\n"
with | -R i -s r install hello | source 1 -> 1 "source fault\n"
with | -R i -s r install hello | folder 1 -> 1 "folder fault: unchanged\n"
with | -R i -s r history | sink 1 -> 1 part ""
look | usr -> absent
run | -R i -s r list -> 0 ""
put | var/pkg/avoid | =%0a ->
run | -R i -s r list -> 1 "bad image var/pkg/avoid line 1\n"
"#;

#[test]
fn each_command_does_what_it_says(rt: HostRuntime) {
    let alloc = rt.alloc();
    for (count, table) in [
        (43u32, COMMANDS),
        (10u32, CREATIONS),
        (14u32, SETTINGS),
        (8u32, EDITS),
        (21u32, ACTIONS),
        (22u32, REFUSALS),
    ] {
        let mut world = World::new(alloc, repository(&rt, alloc));
        let rows = rows_told(&rt, alloc, &mut world, table);
        assert!(rt; rows == count, "{rows} rows in place of {count}");
    }
}
