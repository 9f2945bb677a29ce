//! What is put aside before it would be lost: below the salvage folder, or beside the path.

use crate::packages::bare;
use crate::runs::rows_told;
use crate::world::World;

// What a user put into directories that go.
const SALVAGED: &str = r#"
does | image-create -p test -> 0 done
package | app@1 | dir path=opt/app $dir; file $abc path=opt/app/a $file ->
catalog | app 1 ->
# where nothing of a user's stands, no folder is made
does | install app -> 0 done
does | uninstall app -> 0 done
look | var/pkg/lost+found/20240102T030405Z -> absent
# a user's file, once more at the same moment, and a third time
does | install app -> 0 done
put | opt/app/notes | n ->
does | uninstall app -> 0 done
look | var/pkg/lost+found/20240102T030405Z -> dir 755
look | var/pkg/lost+found/20240102T030405Z/opt/app -> dir 755
look | var/pkg/lost+found/20240102T030405Z/opt/app/notes -> file 644 "n"
look | var/pkg/lost+found/20240102T030405Z/opt/app/a -> absent
look | opt -> absent
does | install app -> 0 done
put | opt/app/notes | m ->
does | uninstall app -> 0 done
look | var/pkg/lost+found/20240102T030405Z/opt/app/notes -> file 644 "n"
look | var/pkg/lost+found/20240102T030405Z.2/opt/app/notes -> file 644 "m"
does | install app -> 0 done
put | opt/app/notes | o ->
does | uninstall app -> 0 done
look | var/pkg/lost+found/20240102T030405Z.3/opt/app/notes -> file 644 "o"
# a directory with its modes and links, in which each name becomes a file of its own
does | install app -> 0 done
dir | opt/app/u ->
mode | opt/app/u | 700 ->
put | opt/app/u/x | x ->
mode | opt/app/u/x | 4751 ->
hard | opt/app/u/y | opt/app/u/x ->
link | opt/app/u/l | ../a ->
does | uninstall app -> 0 done
look | var/pkg/lost+found/20240102T030405Z.4/opt/app/u -> dir 700
look | var/pkg/lost+found/20240102T030405Z.4/opt/app/u/x -> file 4751 "x"
look | var/pkg/lost+found/20240102T030405Z.4/opt/app/u/y -> file 4751 "x"
same | var/pkg/lost+found/20240102T030405Z.4/opt/app/u/x | var/pkg/lost+found/20240102T030405Z.4/opt/app/u/y -> false
look | var/pkg/lost+found/20240102T030405Z.4/opt/app/u/l -> link "../a"
# what stands in the place of the package's own is a user's: it goes with the directory, and stays where that stays
does | install app -> 0 done
link | opt/app/a | elsewhere ->
does | uninstall app -> 0 done
look | var/pkg/lost+found/20240102T030405Z.5/opt/app/a -> link "elsewhere"
does | install app -> 0 done
put | opt/app | mine ->
does | uninstall app -> 0 done
look | opt/app -> file 644 "mine"
remove | opt ->
# a file that a package leaves to its user goes with its directory all the same
package | left@1 | dir path=srv $dir; file $abc path=srv/a $file preserve=install-only ->
catalog | app 1; left 1 ->
does | install left -> 0 done
does | uninstall left -> 0 done
look | srv -> absent
look | var/pkg/lost+found/20240102T030405Z.6/srv/a -> file 644 "abc"
"#;

// What can't be put aside, and then nothing is changed.
const UNMOVABLE: &str = r#"
does | image-create -p test -> 0 done
package | app@1 | dir path=opt/app $dir; file $abc path=opt/app/a $file ->
catalog | app 1 ->
does | install app -> 0 done
# a named pipe
other | opt/app/pipe ->
does | uninstall app -> 1 unmovable opt/app/pipe
look | opt/app/pipe -> other
look | opt/app/a -> file 644 "abc"
does | list -> 0 app@1
remove | opt/app/pipe ->
# a link to nowhere, and one to a place with too long a name
link | opt/app/l | ->
does | uninstall app -> 1 unmovable opt/app/l
link | opt/app/l | (t*4096) ->
does | uninstall app -> 1 unmovable opt/app/l
link | opt/app/l | (t*4095) ->
does | uninstall app -> 0 done
look | var/pkg/lost+found/20240102T030405Z/opt/app/l -> link "(t*4095)"
# a directory that holds names that are no paths, be it a user's or a package's
does | install app -> 0 done
dir | opt/app/u ->
foreign | opt/app/u ->
does | uninstall app -> 1 unmovable opt/app/u
foreign | opt/app ->
does | uninstall app -> 1 unmovable opt/app
# one that no package gives stays where it holds such names
remove | opt/app ->
does | fix -> 0 done
foreign | opt ->
does | uninstall app -> 0 done
look | opt -> dir 755
look | opt/app -> absent
# a path one byte longer than what fits below the salvage folder, and one that fits
begin ->
does | image-create -p test -> 0 done
package | app@1 | dir path=opt/app $dir; file $abc path=opt/app/a $file ->
catalog | app 1 ->
does | install app -> 0 done
put | opt/app/(a*239)/(b*239)/(c*239)/(d*239)/(e*20) | n ->
does | uninstall app -> 1 unmovable opt/app/(a*239)/(b*239)/(c*239)/(d*239)/(e*20)
remove | opt/app/(a*239)/(b*239)/(c*239)/(d*239)/(e*20) ->
put | opt/app/(a*239)/(b*239)/(c*239)/(d*239)/(e*19) | n ->
does | uninstall app -> 0 done
look | var/pkg/lost+found/20240102T030405Z/opt/app/(a*239)/(b*239)/(c*239)/(d*239)/(e*19) -> file 644 "n"
# three hundred directories, each in the other
does | install app -> 0 done
put | opt/app(/d*300)/x | x ->
does | uninstall app -> 0 done
look | var/pkg/lost+found/20240102T030405Z.2/opt/app(/d*300)/x -> file 644 "x"
look | var/pkg/lost+found/20240102T030405Z.2/opt/app/d -> dir 755
# a link in the way of a directory
begin ->
does | image-create -p test -> 0 done
package | hello@1 | dir path=usr $dir; dir path=usr/share $dir; file $abc path=usr/share/hello $file ->
catalog | hello 1 ->
link | usr | /tmp ->
run | -R i -s r install hello -> 0 "install 1, update 0, remove 0\nsteps: gone 0, fresh 3, mode 0, put 4, link 1, hard 0\ndone\n"
look | usr/share/hello -> file 644 "abc"
look | var/pkg/lost+found/20240102T030405Z/usr -> link "/tmp"
"#;

// Edits that are put beside their paths.
const BESIDE: &str = r#"
does | image-create -p test -> 0 done
catalog | c 1 2; n 1 2; l 1 2 ->
package | c@1 | file $old path=etc/c $file preserve=renameold ->
package | c@2 | file $new path=etc/c $file preserve=renameold ->
package | n@1 | file $old path=etc/n $file preserve=renamenew ->
package | n@2 | file $new path=etc/n group=bin mode=0600 owner=root preserve=renamenew ->
package | l@1 | file $old path=etc/l $file preserve=legacy ->
package | l@2 | file $new path=etc/l $file preserve=legacy ->
does | install c@1 n@1 l@1 -> 0 done
# a file or a link that stands there is replaced, and isn't salvaged; another name of it keeps it
put | etc/c | mine ->
put | etc/c.old | before ->
put | etc/n | mine ->
link | etc/n.new | elsewhere ->
put | etc/l | mine ->
mode | etc/l | 400 ->
put | etc/l.legacy | before ->
hard | etc/more | etc/l.legacy ->
does | update -> 0 done
look | etc/c -> file 644 "new"
look | etc/c.old -> file 644 "mine"
look | etc/n -> file 600 "mine"
look | etc/n.new -> file 600 "new"
look | etc/l -> file 644 "new"
look | etc/l.legacy -> file 400 "mine"
look | etc/more -> file 644 "before"
look | var/pkg/lost+found/20240102T030405Z -> absent
# they are no package's, so they stay
does | uninstall c n l -> 0 done
look | etc/c -> absent
look | etc/c.old -> file 644 "mine"
look | etc/l.legacy -> file 400 "mine"
look | etc/n.new -> file 600 "new"
look | etc/n -> absent
look | var/pkg/lost+found/20240102T030405Z/etc/n -> file 600 "mine"
# where a directory or anything else stands there, they go below the salvage folder
begin ->
does | image-create -p test -> 0 done
catalog | c 1 2; n 1 2; l 1 2 ->
package | c@1 | file $old path=etc/c $file preserve=renameold ->
package | c@2 | file $new path=etc/c $file preserve=renameold ->
package | n@1 | file $old path=etc/n $file preserve=renamenew ->
package | n@2 | file $new path=etc/n $file preserve=renamenew ->
package | l@1 | file $old path=etc/l $file preserve=legacy ->
package | l@2 | file $new path=etc/l $file preserve=legacy ->
does | install c@1 n@1 l@1 -> 0 done
put | etc/c | mine ->
put | etc/n | mine ->
put | etc/l | old ->
put | etc/c.old/in | in ->
put | etc/n.new/in | in ->
other | etc/l.legacy ->
does | update -> 0 done
look | etc/c -> file 644 "new"
look | etc/c.old/in -> file 644 "in"
look | var/pkg/lost+found/20240102T030405Z/etc -> dir 755
look | var/pkg/lost+found/20240102T030405Z/etc/c.old -> file 644 "mine"
look | etc/n -> file 644 "mine"
look | etc/n.new/in -> file 644 "in"
look | var/pkg/lost+found/20240102T030405Z/etc/n.new -> file 644 "new"
look | etc/l -> file 644 "new"
look | etc/l.legacy -> other
look | var/pkg/lost+found/20240102T030405Z/etc/l.legacy -> file 644 "old"
# and so where a package has that name; what is salvaged has it first there
begin ->
does | image-create -p test -> 0 done
catalog | c 1 2 ->
package | c@1 | file $old path=etc/c $file preserve=renameold ->
package | c@2 | file $new path=etc/c $file preserve=renameold; file $abc path=etc/c.old $file ->
does | install c@1 -> 0 done
put | etc/c | mine ->
put | etc/c.old | before ->
does | update -> 0 done
look | etc/c -> file 644 "new"
look | etc/c.old -> file 644 "abc"
look | var/pkg/lost+found/20240102T030405Z/etc/c.old -> file 644 "before"
look | var/pkg/lost+found/20240102T030405Z/etc/c.old.old -> file 644 "mine"
does | verify -> 0 ok
"#;

// Files of several names.
const NAMES: &str = r#"
# a package's names of one file are laid anew together; a name that a user gave it keeps what it was
does | image-create -p test -> 0 done
catalog | x 1 2 ->
package | x@1 | file $abc path=bin/a $file; hardlink path=bin/b target=a ->
package | x@2 | file $none path=bin/a $file; hardlink path=bin/b target=a ->
does | install x@1 -> 0 done
hard | c | bin/a ->
run | -R i -s r update -> 0 "install 0, update 1, remove 0\nsteps: gone 0, fresh 0, mode 0, put 3, link 0, hard 1\ndone\n"
same | bin/a | bin/b -> true
same | bin/a | c -> false
look | bin/b -> file 644 ""
look | c -> file 644 "abc"
# of a mode at two names of one file the greatest path's counts
begin ->
does | image-create -p test -> 0 done
catalog | m 1 2 ->
package | m@1 | file $old path=a $file; file $old path=b $file ->
package | m@2 | file $old path=a group=bin mode=0640 owner=root; file $old path=b group=bin mode=0600 owner=root ->
does | install m@1 -> 0 done
hard | a | b ->
run | -R i -s r update -> 0 "install 0, update 1, remove 0\nsteps: gone 0, fresh 0, mode 2, put 2, link 0, hard 0\ndone\n"
same | a | b -> true
look | a -> file 600 "old"
run | -R i -s r verify -> 1 "wrong mode a\ndamaged 1\n"
# and before it that of a path that is new
begin ->
does | image-create -p test -> 0 done
catalog | m 1 2 ->
package | m@1 | file $old path=b $file ->
package | m@2 | file $new path=a group=bin mode=0600 owner=root preserve=true; file $old path=b group=bin mode=0640 owner=root ->
does | install m@1 -> 0 done
hard | a | b ->
run | -R i -s r update -> 0 "install 0, update 1, remove 0\nsteps: gone 0, fresh 0, mode 2, put 3, link 0, hard 0\ndone\n"
same | a | b -> true
look | b -> file 600 "old"
"#;

#[test]
fn what_would_be_lost_is_salvaged(rt: HostRuntime) {
    let alloc = rt.alloc();
    let mut world = World::new(alloc, bare(&rt, alloc));
    let rows = rows_told(&rt, alloc, &mut world, SALVAGED);
    assert!(rt; rows == 51, "{rows} rows");
}

#[test]
fn what_cannot_be_salvaged_stays(rt: HostRuntime) {
    let alloc = rt.alloc();
    let mut world = World::new(alloc, bare(&rt, alloc));
    let rows = rows_told(&rt, alloc, &mut world, UNMOVABLE);
    assert!(rt; rows == 53, "{rows} rows");
}

#[test]
fn edits_are_put_beside_their_paths(rt: HostRuntime) {
    let alloc = rt.alloc();
    for (count, table) in [(74u32, BESIDE), (32u32, NAMES)] {
        let mut world = World::new(alloc, bare(&rt, alloc));
        let rows = rows_told(&rt, alloc, &mut world, table);
        assert!(rt; rows == count, "{rows} rows in place of {count}");
    }
}
