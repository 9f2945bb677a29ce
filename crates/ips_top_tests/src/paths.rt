//! What becomes of each path behind a request, by what was wanted, what is and what stands there; and what is found at a path. What becomes of edits by how a file is
//! preserved is asked in `keep`, and what a user put into a directory in `salvage`.

use crate::packages::bare;
use crate::runs::rows_told;
use crate::world::World;

// Directories, and what is laid into them.
const LAID: &str = r#"
# a first installation: a directory, a file, one more name of it, and a link
does | image-create -p test -> 0 done
package | p@1 | dir path=usr $dir; file $abc path=usr/a $file; hardlink path=usr/b target=a; link path=usr/l target=a ->
catalog | p 1 ->
run | -R i -s r install p -> 0 "install 1, update 0, remove 0\nsteps: gone 0, fresh 1, mode 0, put 4, link 1, hard 1\ndone\n"
look | usr -> dir 755
look | usr/a -> file 644 "abc"
look | usr/l -> link "a"
same | usr/a | usr/b -> true
# an equal entry is as before, whatever stands there
begin ->
does | image-create -p test -> 0 done
package | p@1 | dir path=usr $dir; file $abc path=usr/a $file ->
package | p@2 | dir path=usr $dir; file $abc path=usr/a $file; file $abc path=usr/z $file ->
catalog | p 1 2 ->
does | install p@1 -> 0 done
put | usr/a | mine ->
mode | usr/a | 600 ->
run | -R i -s r update -> 0 "install 0, update 1, remove 0\nsteps: gone 0, fresh 0, mode 0, put 4, link 0, hard 0\ndone\n"
look | usr/a -> file 600 "mine"
look | usr/z -> file 644 "abc"
# a directory that stands gets its mode
begin ->
does | image-create -p test -> 0 done
package | p@1 | dir path=usr mode=0700 owner=root group=bin; file $abc path=usr/a $file ->
catalog | p 1 ->
dir | usr ->
run | -R i -s r install p -> 0 "install 1, update 0, remove 0\nsteps: gone 0, fresh 0, mode 1, put 4, link 0, hard 0\ndone\n"
look | usr -> dir 700
look | usr/a -> file 644 "abc"
begin ->
does | image-create -p test -> 0 done
package | p@1 | dir path=usr $dir; file $abc path=usr/a $file ->
package | p@2 | dir path=usr mode=0700 owner=root group=bin; file $abc path=usr/a $file ->
catalog | p 1 2 ->
does | install p@1 -> 0 done
mode | usr | 750 ->
run | -R i -s r update -> 0 "install 0, update 1, remove 0\nsteps: gone 0, fresh 0, mode 1, put 2, link 0, hard 0\ndone\n"
look | usr -> dir 700
# one that is missing is made with it
begin ->
does | image-create -p test -> 0 done
package | p@1 | dir path=usr $dir ->
package | p@2 | dir path=usr mode=0700 owner=root group=bin ->
catalog | p 1 2 ->
does | install p@1 -> 0 done
remove | usr ->
run | -R i -s r update -> 0 "install 0, update 1, remove 0\nsteps: gone 0, fresh 1, mode 0, put 2, link 0, hard 0\ndone\n"
look | usr -> dir 700
# one whose mode is no longer stated keeps it
begin ->
does | image-create -p test -> 0 done
package | p@1 | dir path=usr $dir; file $abc path=usr/a $file ->
package | p@2 | file $abc path=usr/a $file; link path=usr/l target=a ->
catalog | p 1 2 ->
does | install p@1 -> 0 done
mode | usr | 700 ->
run | -R i -s r update -> 0 "install 0, update 1, remove 0\nsteps: gone 0, fresh 0, mode 0, put 3, link 1, hard 0\ndone\n"
look | usr -> dir 700
look | usr/l -> link "a"
# one that was wanted before and is missing, or has a link in its place, is made for what is laid below
begin ->
does | image-create -p test -> 0 done
package | p@1 | dir path=usr $dir ->
package | p@2 | dir path=usr $dir; file $abc path=usr/b $file ->
catalog | p 1 2 ->
does | install p@1 -> 0 done
remove | usr ->
run | -R i -s r update -> 0 "install 0, update 1, remove 0\nsteps: gone 0, fresh 1, mode 0, put 4, link 0, hard 0\ndone\n"
look | usr -> dir 755
look | usr/b -> file 644 "abc"
begin ->
does | image-create -p test -> 0 done
package | p@1 | dir path=usr $dir ->
package | p@2 | dir path=usr $dir; file $abc path=usr/b $file ->
catalog | p 1 2 ->
does | install p@1 -> 0 done
link | usr | tmp ->
run | -R i -s r update -> 0 "install 0, update 1, remove 0\nsteps: gone 0, fresh 2, mode 0, put 4, link 1, hard 0\ndone\n"
look | usr -> dir 755
look | usr/b -> file 644 "abc"
look | var/pkg/lost+found/20240102T030405Z/usr -> link "tmp"
"#;

// Files, their further names, and links.
const NAMED: &str = r#"
# an update of a file with another name
does | image-create -p test -> 0 done
package | p@1 | file $abc path=usr/a $file; hardlink path=usr/b target=a ->
package | p@2 | file $new path=usr/a $file; hardlink path=usr/b target=a ->
package | p@3 | file $new path=usr/a $file ->
package | p@4 | file $new path=usr/a $file; hardlink path=usr/b target=a ->
catalog | p 1 2 3 4 ->
does | install p@1 -> 0 done
run | -R i -s r update p@2 -> 0 "install 0, update 1, remove 0\nsteps: gone 0, fresh 0, mode 0, put 3, link 0, hard 1\ndone\n"
look | usr/a -> file 644 "new"
same | usr/a | usr/b -> true
# the other name goes
run | -R i -s r update p@3 -> 0 "install 0, update 1, remove 0\nsteps: gone 1, fresh 0, mode 0, put 2, link 0, hard 0\ndone\n"
look | usr/a -> file 644 "new"
look | usr/b -> absent
# it comes, but the file doesn't stand
remove | usr/a ->
run | -R i -s r update p@4 -> 0 "install 0, update 1, remove 0\nsteps: gone 0, fresh 0, mode 0, put 3, link 0, hard 1\ndone\n"
look | usr/a -> file 644 "new"
same | usr/a | usr/b -> true
# it comes, and the file has a directory in its place
begin ->
does | image-create -p test -> 0 done
package | p@1 | file $abc path=a $file ->
package | p@2 | file $abc path=a $file; hardlink path=b target=a ->
catalog | p 1 2 ->
does | install p@1 -> 0 done
dir | a ->
run | -R i -s r update -> 0 "install 0, update 1, remove 0\nsteps: gone 0, fresh 2, mode 0, put 3, link 0, hard 1\ndone\n"
look | a -> file 644 "abc"
same | a | b -> true
look | var/pkg/lost+found/20240102T030405Z/a -> dir 755
# a file in the place of one more name of a file, which is ours
begin ->
does | image-create -p test -> 0 done
package | p@1 | file $abc path=a $file; hardlink path=e target=a ->
package | p@2 | file $abc path=a $file; file $new path=e $file ->
catalog | p 1 2 ->
does | install p@1 -> 0 done
run | -R i -s r update -> 0 "install 0, update 1, remove 0\nsteps: gone 0, fresh 0, mode 0, put 4, link 0, hard 0\ndone\n"
look | a -> file 644 "abc"
look | e -> file 644 "new"
look | var/pkg/lost+found/20240102T030405Z -> absent
# only its mode changes, and the bytes are a user's
begin ->
does | image-create -p test -> 0 done
package | p@1 | file $abc path=usr/a $file ->
package | p@2 | file $abc path=usr/a group=bin mode=0600 owner=root ->
catalog | p 1 2 ->
does | install p@1 -> 0 done
put | usr/a | mine ->
mode | usr/a | 640 ->
run | -R i -s r update -> 0 "install 0, update 1, remove 0\nsteps: gone 0, fresh 0, mode 1, put 2, link 0, hard 0\ndone\n"
look | usr/a -> file 600 "mine"
# a link that says this already, and one that says something else
begin ->
does | image-create -p test -> 0 done
package | p@1 | link path=usr/l target=a; link path=usr/m target=a ->
package | p@2 | link path=usr/l target=b; link path=usr/m target=b ->
catalog | p 1 2 ->
does | install p@1 -> 0 done
link | usr/l | b ->
run | -R i -s r update -> 0 "install 0, update 1, remove 0\nsteps: gone 0, fresh 0, mode 0, put 2, link 1, hard 0\ndone\n"
look | usr/l -> link "b"
look | usr/m -> link "b"
# a link goes, wherever it leads
link | usr/l | x ->
run | -R i -s r uninstall p -> 0 "install 0, update 0, remove 1\nsteps: gone 4, fresh 0, mode 0, put 1, link 0, hard 0\ndone\n"
look | usr -> absent
"#;

// What goes, what stays, and what makes way.
const GONE: &str = r#"
# directories without a stated mode are made for what is below them, and go where nothing is left in them
does | image-create -p test -> 0 done
package | p@1 | file $abc path=usr/a/b $file ->
catalog | p 1 ->
run | -R i -s r install p -> 0 "install 1, update 0, remove 0\nsteps: gone 0, fresh 2, mode 0, put 4, link 0, hard 0\ndone\n"
look | usr -> dir 755
look | usr/a -> dir 755
look | usr/a/b -> file 644 "abc"
run | -R i -s r uninstall p -> 0 "install 0, update 0, remove 1\nsteps: gone 4, fresh 0, mode 0, put 2, link 0, hard 0\ndone\n"
look | usr -> absent
# a file of a user's keeps one, and so does an empty directory of no package
does | install p -> 0 done
put | usr/c | mine ->
run | -R i -s r uninstall p -> 0 "install 0, update 0, remove 1\nsteps: gone 3, fresh 0, mode 0, put 2, link 0, hard 0\ndone\n"
look | usr/c -> file 644 "mine"
look | usr/a -> absent
does | install p -> 0 done
dir | usr/a/m ->
run | -R i -s r uninstall p -> 0 "install 0, update 0, remove 1\nsteps: gone 2, fresh 0, mode 0, put 2, link 0, hard 0\ndone\n"
look | usr/a/b -> absent
look | usr/a/m -> dir 755
# and a file that is abandoned
begin ->
does | image-create -p test -> 0 done
package | p@1 | file $abc path=usr/a/b $file preserve=abandon ->
catalog | p 1 ->
does | install p -> 0 done
put | usr/a/b | abc ->
run | -R i -s r uninstall p -> 0 "install 0, update 0, remove 1\nsteps: gone 1, fresh 0, mode 0, put 2, link 0, hard 0\ndone\n"
look | usr/a/b -> file 644 "abc"
# one that is edited stays too, and a directory with a stated mode goes
begin ->
does | image-create -p test -> 0 done
package | p@1 | dir path=usr $dir; file $old path=e $file preserve=abandon ->
catalog | p 1 ->
does | install p -> 0 done
put | e | mine ->
run | -R i -s r uninstall p -> 0 "install 0, update 0, remove 1\nsteps: gone 2, fresh 0, mode 0, put 2, link 0, hard 0\ndone\n"
look | e -> file 644 "mine"
look | usr -> absent
# also with an abandoned file, which is salvaged
begin ->
does | image-create -p test -> 0 done
package | p@1 | dir path=usr $dir; file $old path=usr/e $file preserve=abandon ->
catalog | p 1 ->
does | install p -> 0 done
put | usr/e | old ->
run | -R i -s r uninstall p -> 0 "install 0, update 0, remove 1\nsteps: gone 2, fresh 2, mode 0, put 3, link 0, hard 0\ndone\n"
look | usr -> absent
look | var/pkg/lost+found/20240102T030405Z/usr/e -> file 644 "old"
# what isn't ours stays
begin ->
does | image-create -p test -> 0 done
package | p@1 | link path=l target=a; file $old path=e $file; dir path=usr $dir ->
package | p@2 | file $abc path=z $file ->
catalog | p 1 2 ->
does | install p@1 -> 0 done
put | l | x ->
dir | e ->
put | usr | x ->
run | -R i -s r update -> 0 "install 0, update 1, remove 0\nsteps: gone 0, fresh 0, mode 0, put 4, link 0, hard 0\ndone\n"
look | l -> file 644 "x"
look | e -> dir 755
look | usr -> file 644 "x"
look | z -> file 644 "abc"
look | var/pkg/lost+found/20240102T030405Z -> absent
# what a user put into a directory is salvaged, too, where a file or a link takes its place
begin ->
does | image-create -p test -> 0 done
package | p@1 | dir path=usr $dir ->
package | p@2 | file $abc path=usr $file ->
catalog | p 1 2 ->
does | install p@1 -> 0 done
put | usr/m | mine ->
mode | usr/m | 600 ->
run | -R i -s r update -> 0 "install 0, update 1, remove 0\nsteps: gone 0, fresh 2, mode 0, put 4, link 0, hard 0\ndone\n"
look | usr -> file 644 "abc"
look | var/pkg/lost+found/20240102T030405Z/usr/m -> file 600 "mine"
begin ->
does | image-create -p test -> 0 done
package | p@1 | link path=usr target=a ->
catalog | p 1 ->
put | usr/m | mine ->
mode | usr/m | 600 ->
run | -R i -s r install p -> 0 "install 1, update 0, remove 0\nsteps: gone 0, fresh 2, mode 0, put 3, link 1, hard 0\ndone\n"
look | usr -> link "a"
look | var/pkg/lost+found/20240102T030405Z/usr -> dir 755
look | var/pkg/lost+found/20240102T030405Z/usr/m -> file 600 "mine"
# an empty directory in the way of a file
begin ->
does | image-create -p test -> 0 done
package | p@1 | file $abc path=usr $file ->
catalog | p 1 ->
dir | usr ->
run | -R i -s r install p -> 0 "install 1, update 0, remove 0\nsteps: gone 0, fresh 2, mode 0, put 4, link 0, hard 0\ndone\n"
look | usr -> file 644 "abc"
look | var/pkg/lost+found/20240102T030405Z/usr -> dir 755
"#;

// What is found where a directory is wanted, files of `abc` without a preserve, with one that lets it be edited and with one that lets it go, an account file, a hard
// link and a symbolic one.
const FOUND: &str = r#"
does | image-create -p test -> 0 done
package | p@1 | dir path=usr $dir; file $abc path=usr/a $file; hardlink path=usr/b target=a; file $abc path=usr/e $file preserve=true; link path=usr/l target=a; file $abc path=usr/x $file preserve=abandon; file $none path=etc/passwd $file ->
catalog | p 1 ->
does | install p -> 0 done
put | usr/x | abc ->
run | -R i -s r verify -> 0 "ok\n"
# each path has the first damage that holds
remove | usr/a ->
put | usr/b | abc ->
run | -R i -s r verify -> 1 "missing usr/a\nnot same usr/b\ndamaged 2\n"
put | usr/a | xyz ->
hard | usr/b | usr/a ->
run | -R i -s r verify -> 1 "wrong content usr/a\ndamaged 1\n"
mode | usr/a | 600 ->
run | -R i -s r verify -> 1 "wrong content usr/a\ndamaged 1\n"
put | usr/a | abc ->
mode | usr/a | 600 ->
hard | usr/b | usr/a ->
run | -R i -s r verify -> 1 "wrong mode usr/a\ndamaged 1\n"
dir | usr/a ->
mode | usr/a | 644 ->
remove | usr/b ->
run | -R i -s r verify -> 1 "wrong kind usr/a\nmissing usr/b\ndamaged 2\n"
put | usr/a | abc ->
put | usr/b | abc ->
run | -R i -s r verify -> 1 "not same usr/b\ndamaged 1\n"
dir | usr/b ->
run | -R i -s r verify -> 1 "wrong kind usr/b\ndamaged 1\n"
hard | usr/b | usr/a ->
link | usr/l | b ->
run | -R i -s r verify -> 1 "wrong target usr/l\ndamaged 1\n"
put | usr/l | a ->
run | -R i -s r verify -> 1 "wrong kind usr/l\ndamaged 1\n"
link | usr/l | a ->
mode | usr | 700 ->
run | -R i -s r verify -> 1 "wrong mode usr\ndamaged 1\n"
mode | usr | 755 ->
mode | var/pkg | 700 ->
run | -R i -s r verify -> 0 "ok\n"
mode | var/pkg | 755 ->
# edits that a preserve allows are no findings
put | usr/e | mine ->
run | -R i -s r verify -> 0 "ok\n"
mode | usr/e | 600 ->
run | -R i -s r verify -> 1 "wrong mode usr/e\ndamaged 1\n"
remove | usr/e ->
run | -R i -s r verify -> 1 "missing usr/e\ndamaged 1\n"
put | usr/e | abc ->
put | usr/x | mine ->
run | -R i -s r verify -> 0 "ok\n"
mode | usr/x | 600 ->
run | -R i -s r verify -> 1 "wrong mode usr/x\ndamaged 1\n"
dir | usr/x ->
run | -R i -s r verify -> 0 "ok\n"
remove | usr/x ->
run | -R i -s r verify -> 0 "ok\n"
put | usr/x | abc ->
put | etc/passwd | other ->
run | -R i -s r verify -> 0 "ok\n"
mode | etc/passwd | 600 ->
run | -R i -s r verify -> 1 "wrong mode etc/passwd\ndamaged 1\n"
mode | etc/passwd | 644 ->
# each call that fails is told: there are thirty-three
with | -R i -s r verify | folder 1 -> 1 "folder fault: unchanged\n"
with | -R i -s r verify | folder 2 -> 1 "folder fault: unchanged\n"
with | -R i -s r verify | folder 3 -> 1 "folder fault: unchanged\n"
with | -R i -s r verify | folder 4 -> 1 "folder fault: unchanged\n"
with | -R i -s r verify | folder 5 -> 1 "folder fault: unchanged\n"
with | -R i -s r verify | folder 6 -> 1 "folder fault: unchanged\n"
with | -R i -s r verify | folder 7 -> 1 "folder fault: unchanged\n"
with | -R i -s r verify | folder 8 -> 1 "folder fault: unchanged\n"
with | -R i -s r verify | folder 9 -> 1 "folder fault: unchanged\n"
with | -R i -s r verify | folder 10 -> 1 "folder fault: unchanged\n"
with | -R i -s r verify | folder 11 -> 1 "folder fault: unchanged\n"
with | -R i -s r verify | folder 12 -> 1 "folder fault: unchanged\n"
with | -R i -s r verify | folder 13 -> 1 "folder fault: unchanged\n"
with | -R i -s r verify | folder 14 -> 1 "folder fault: unchanged\n"
with | -R i -s r verify | folder 15 -> 1 "folder fault: unchanged\n"
with | -R i -s r verify | folder 16 -> 1 "folder fault: unchanged\n"
with | -R i -s r verify | folder 17 -> 1 "folder fault: unchanged\n"
with | -R i -s r verify | folder 18 -> 1 "folder fault: unchanged\n"
with | -R i -s r verify | folder 19 -> 1 "folder fault: unchanged\n"
with | -R i -s r verify | folder 20 -> 1 "folder fault: unchanged\n"
with | -R i -s r verify | folder 21 -> 1 "folder fault: unchanged\n"
with | -R i -s r verify | folder 22 -> 1 "folder fault: unchanged\n"
with | -R i -s r verify | folder 23 -> 1 "folder fault: unchanged\n"
with | -R i -s r verify | folder 24 -> 1 "folder fault: unchanged\n"
with | -R i -s r verify | folder 25 -> 1 "folder fault: unchanged\n"
with | -R i -s r verify | folder 26 -> 1 "folder fault: unchanged\n"
with | -R i -s r verify | folder 27 -> 1 "folder fault: unchanged\n"
with | -R i -s r verify | folder 28 -> 1 "folder fault: unchanged\n"
with | -R i -s r verify | folder 29 -> 1 "folder fault: unchanged\n"
with | -R i -s r verify | folder 30 -> 1 "folder fault: unchanged\n"
with | -R i -s r verify | folder 31 -> 1 "folder fault: unchanged\n"
with | -R i -s r verify | folder 32 -> 1 "folder fault: unchanged\n"
with | -R i -s r verify | folder 33 -> 1 "folder fault: unchanged\n"
with | -R i -s r verify | folder 34 -> 0 "ok\n"
"#;

#[test]
fn each_path_becomes_what_the_rules_say(rt: HostRuntime) {
    let alloc = rt.alloc();
    for (count, table) in [(76u32, LAID), (61u32, NAMED), (89u32, GONE)] {
        let mut world = World::new(alloc, bare(&rt, alloc));
        let rows = rows_told(&rt, alloc, &mut world, table);
        assert!(rt; rows == count, "{rows} rows in place of {count}");
    }
}

#[test]
fn each_path_has_the_first_damage_that_holds(rt: HostRuntime) {
    let alloc = rt.alloc();
    let mut world = World::new(alloc, bare(&rt, alloc));
    let rows = rows_told(&rt, alloc, &mut world, FOUND);
    assert!(rt; rows == 94, "{rows} rows");
}
