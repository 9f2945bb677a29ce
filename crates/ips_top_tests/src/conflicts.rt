//! What packages mean together: where two lines clash, and what is wanted where none do.

use crate::packages::bare;
use crate::runs::rows_told;
use crate::world::World;

// Each line is a package of its own, but where one package has two. Lines of one name would clash over `x`, or they say the same.
const KINDS: &str = r#"
does | image-create -p test --variant variant.arch=sparc -> 0 done
catalog | a/dir 1; a/file 1; a/link 1; a/hard 1; a/user 1; a/group 1; a/driver 1; a/old 1; a/license 1; a/licenses 1; a/licenses-too 1; b/dir 1; b/file 1; b/link 1; b/hard 1; b/user 1; b/group 1; b/driver 1; b/old 1; b/license 1; b/other-dir 1; b/other-link 1; b/other-hard 1; b/other-user 1; b/other-group 1; b/other-driver 1; b/other-old 1; c/t 1; c/f 1 ->
package | a/dir@1 | dir path=x mode=0755 owner=root group=sys ->
package | b/dir@1 | dir path=/x mode=755 owner=root group=sys ->
package | b/other-dir@1 | dir path=x mode=0755 owner=root group=bin ->
package | a/file@1 | file $none path=x $file ->
package | b/file@1 | file $none path=x $file ->
package | a/link@1 | link path=x target=t ->
package | b/link@1 | link path=x target=t ->
package | b/other-link@1 | link path=x target=./t ->
package | a/hard@1 | hardlink path=x target=t ->
package | b/hard@1 | hardlink path=x target=/d/../t ->
package | b/other-hard@1 | hardlink path=x target=f ->
package | c/t@1 | file $none path=t $file ->
package | c/f@1 | file $none path=f $file ->
package | a/user@1 | user username=x group=bin ->
package | b/user@1 | user group=bin username=x variant.arch=sparc ->
package | b/other-user@1 | user username=x group=sys ->
package | a/group@1 | group groupname=x gid=70 ->
package | b/group@1 | group groupname=x gid=70 facet.doc=true ->
package | b/other-group@1 | group groupname=x ->
package | a/driver@1 | driver name=x alias=p alias=q ->
package | b/driver@1 | driver name=x alias=p alias=q ->
package | b/other-driver@1 | driver name=x alias=q alias=p ->
package | a/old@1 | legacy pkg=x name=n ->
package | b/old@1 | legacy pkg=x name=n ->
package | b/other-old@1 | legacy pkg=x name=m ->
package | a/license@1 | license $none license=x ->
package | a/licenses@1 | license $none license=x; license $none license=x must-accept=true ->
package | a/licenses-too@1 | license $none license=x; license $abc license=x ->
package | b/license@1 | license $abc license=x ->
# different kinds at one path
does | install a/dir b/file -> 1 clash x a/dir:1 b/file:1
does | install a/dir b/link -> 1 clash x a/dir:1 b/link:1
does | install a/dir b/hard c/t -> 1 clash x a/dir:1 b/hard:1
does | install a/file b/link -> 1 clash x a/file:1 b/link:1
does | install a/file b/hard c/t -> 1 clash x a/file:1 b/hard:1
does | install a/link b/hard c/t -> 1 clash x a/link:1 b/hard:1
# one kind
does | install a/dir b/dir -> 0 done
does | uninstall a/dir b/dir -> 0 done
does | install a/dir b/other-dir -> 1 clash x a/dir:1 b/other-dir:1
does | install a/link b/link -> 0 done
does | uninstall a/link b/link -> 0 done
does | install a/link b/other-link -> 1 clash x a/link:1 b/other-link:1
does | install a/hard b/hard c/t -> 0 done
does | uninstall a/hard b/hard c/t -> 0 done
does | install a/hard b/other-hard c/t c/f -> 1 clash x a/hard:1 b/other-hard:1
does | install a/user b/user -> 0 done
does | uninstall a/user -> 0 done
look | etc/passwd -> file 644 "x:x:1:2:& User:/:\n"
does | uninstall b/user -> 0 done
does | install a/user b/other-user -> 1 clash x a/user:1 b/other-user:1
does | install a/group b/group -> 0 done
does | uninstall a/group -> 0 done
look | etc/group -> file 644 "x::70:\n"
does | uninstall b/group -> 0 done
does | install a/group b/other-group -> 1 clash x a/group:1 b/other-group:1
does | install a/driver b/driver -> 0 done
look | var/pkg/drivers -> file 644 "driver alias=p alias=q name=x\n"
does | uninstall a/driver b/driver -> 0 done
does | install a/driver b/other-driver -> 1 clash x a/driver:1 b/other-driver:1
does | install a/old b/old -> 0 done
does | uninstall a/old b/old -> 0 done
does | install a/old b/other-old -> 1 clash x a/old:1 b/other-old:1
does | install --accept a/licenses -> 0 done
does | uninstall a/licenses -> 0 done
does | install a/licenses-too -> 1 clash a/licenses-too x a/licenses-too:1 a/licenses-too:2
does | install a/license b/license -> 0 done
does | uninstall a/license b/license -> 0 done
# keys of different sorts, and the user's before the group's
does | install a/file a/user a/group a/driver a/old a/license -> 0 done
does | uninstall a/file a/user a/group a/driver a/old a/license -> 0 done
does | install a/group b/other-group a/user b/other-user -> 1 clash x a/user:1 b/other-user:1
"#;

// Files that two packages deliver, and links of mediators.
const DELIVERERS: &str = r#"
does | image-create -p test -> 0 done
catalog | a/file 1; b/file 1; a/giving 1; a/both 1; a/unkept 1; b/taking 1; c/taking 1; b/closed 1; a/mediated 1; b/mediated 1; b/other-mediated 1; b/link 1; b/hard 1; c/t 1 ->
package | a/file@1 | file $none path=x $file ->
package | b/file@1 | file $none path=x $file ->
package | a/giving@1 | file $none path=x $file overlay=allow preserve=true ->
package | a/both@1 | file $none path=x $file overlay=allow preserve=true; file $none path=x $file ->
package | a/unkept@1 | file $none path=x $file overlay=allow ->
package | b/taking@1 | file $abc path=x $file overlay=true ->
package | c/taking@1 | file $abc path=x $file overlay=true ->
package | b/closed@1 | file $abc path=x group=bin mode=0600 owner=root overlay=true ->
package | a/mediated@1 | link path=x target=t mediator=m ->
package | b/mediated@1 | link path=x target=t mediator=m ->
package | b/other-mediated@1 | link path=x target=t mediator=n ->
package | b/link@1 | link path=x target=./t ->
package | b/hard@1 | hardlink path=x target=/d/../t ->
package | c/t@1 | file $none path=t $file ->
# two deliverers of a file, and overlays
does | install a/file b/file -> 1 clash x a/file:1 b/file:1
does | install b/file a/file -> 1 clash x a/file:1 b/file:1
does | install a/giving b/taking -> 0 done
does | uninstall a/giving b/taking -> 0 done
does | install a/unkept b/taking -> 1 clash x a/unkept:1 b/taking:1
does | install a/giving b/closed -> 1 clash x a/giving:1 b/closed:1
does | install a/file b/taking -> 1 clash x a/file:1 b/taking:1
does | install a/giving b/taking c/taking -> 1 clash x b/taking:1 c/taking:1
does | install a/both b/taking -> 1 clash x a/both:1 a/both:2
# mediators, which come first
does | install a/mediated b/mediated -> 0 done
does | uninstall a/mediated b/mediated -> 0 done
does | install a/mediated b/other-mediated -> 1 clash x a/mediated:1 b/other-mediated:1
does | install a/mediated b/link -> 1 clash x a/mediated:1 b/link:1
does | install a/mediated b/hard c/t -> 1 clash x a/mediated:1 b/hard:1
"#;

// What is below a path, and where hard links lead.
const HARDLINKS: &str = r#"
does | image-create -p test -> 0 done
catalog | a/dir 1; a/link 1; a/hard 1; a/deep 1; a/old 1; a/var 1; a/sadm 1; a/pkg 1; a/dash 1; a/w 1; b/below 1; b/far 1; b/beside 1; b/t 1; b/dash 1; b/w 1; c/t 1; c/f 1; c/legacy 1; c/abandoned 1; c/kept 1; d/first 1; d/sure 1 ->
package | a/dir@1 | dir path=x mode=0755 owner=root group=sys ->
package | a/link@1 | link path=x target=t ->
package | a/hard@1 | hardlink path=x target=t ->
package | a/deep@1 | hardlink path=d/e/x target=../../t ->
package | a/old@1 | legacy pkg=x name=n ->
package | a/var@1 | link path=var target=t ->
package | a/sadm@1 | link path=var/sadm target=t ->
package | a/pkg@1 | link path=var/sadm/pkg target=t ->
package | a/dash@1 | link path=x-y target=t ->
package | b/dash@1 | link path=x-y target=u ->
package | a/w@1 | link path=w target=t ->
package | b/w@1 | link path=w target=u ->
package | b/below@1 | dir path=x/y $dir ->
package | b/far@1 | dir path=x/y/z $dir ->
package | b/beside@1 | dir path=xy/z $dir ->
package | b/t@1 | dir path=t $dir ->
package | c/t@1 | file $none path=t $file ->
package | c/f@1 | file $none path=f $file ->
package | c/legacy@1 | file $none path=t $file preserve=legacy ->
package | c/abandoned@1 | file $none path=t $file preserve=abandon overlay=allow ->
package | c/kept@1 | file $none path=t $file preserve=true overlay=allow ->
package | d/first@1 | file $none path=t $file preserve=install-only overlay=true ->
package | d/sure@1 | file $none path=t $file preserve=renamenew overlay=true ->
# something below what is no directory, also far below
does | install a/link b/below -> 1 clash x a/link:1 b/below:1
does | install b/far a/link -> 1 clash x a/link:1 b/far:1
does | install a/link b/beside -> 0 done
does | uninstall a/link b/beside -> 0 done
does | install a/dir b/below -> 0 done
does | uninstall a/dir b/below -> 0 done
# links above what the image keeps, where it keeps it
does | install a/var -> 1 clash var a/var:1 image:0
does | install a/sadm -> 0 done
does | install a/old -> 1 clash var/sadm a/sadm:1 image:0
does | uninstall a/sadm -> 0 done
does | install a/sadm a/old -> 1 clash var/sadm a/sadm:1 image:0
does | install a/pkg -> 0 done
does | uninstall a/pkg -> 0 done
does | install a/pkg a/old -> 1 clash var/sadm/pkg a/pkg:1 image:0
# hard links lead to a file
does | install a/hard -> 1 clash x a/hard:1 a/hard:1
does | install a/hard b/t -> 1 clash x a/hard:1 a/hard:1
does | install a/hard c/t -> 0 done
does | uninstall a/hard -> 0 done
does | install a/deep -> 0 done
does | uninstall a/deep c/t -> 0 done
does | install a/deep c/f -> 1 clash d/e/x a/deep:1 a/deep:1
# that is sure to stand
does | install a/hard c/legacy -> 1 clash x a/hard:1 a/hard:1
does | install a/hard c/kept -> 0 done
does | uninstall a/hard c/kept -> 0 done
# how it is preserved says the file that takes the other's place
does | install a/hard c/abandoned d/sure -> 0 done
does | uninstall a/hard c/abandoned d/sure -> 0 done
does | install a/hard c/kept d/first -> 1 clash x a/hard:1 a/hard:1
# keys go by their bytes
does | install a/hard a/dash b/dash -> 1 clash x a/hard:1 a/hard:1
does | install a/hard a/w b/w -> 1 clash w a/w:1 b/w:1
"#;

// What two packages want: what stands behind their installation, and what is missing where all of it is taken away.
const WANTED: &str = r#"
# nothing is given, but the image needs its own directories
does | image-create -p test -> 0 done
look | var -> dir 755
look | var/pkg -> dir 755
look | var/sadm -> absent
package | a@1 | legacy pkg=x ->
package | d@1 | dir path=var/sadm/pkg mode=0750 owner=root group=bin ->
catalog | a 1; d 1 ->
does | install a -> 0 done
look | var/sadm -> dir 755
look | var/sadm/pkg -> dir 755
mode | var/sadm/pkg | 700 ->
does | verify -> 0 ok
# which a package may give a mode
does | install d -> 0 done
look | var/sadm/pkg -> dir 750
mode | var/sadm/pkg | 700 ->
run | -R i -s r verify -> 1 "wrong mode var/sadm/pkg\ndamaged 1\n"
# what stands above a path is a directory of any mode, unless an action gives it
begin ->
does | image-create -p test -> 0 done
package | a@1 | dir path=a mode=0750 owner=root group=bin ->
package | b@1 | link path=a/b/c target=d; link path=a/b-c target=d ->
catalog | a 1; b 1 ->
run | -R i -s r install a b -> 0 "install 2, update 0, remove 0\nsteps: gone 0, fresh 2, mode 0, put 4, link 2, hard 0\ndone\n"
look | a -> dir 750
look | a/b -> dir 755
look | a/b-c -> link "d"
look | a/b/c -> link "d"
mode | a | 711 ->
mode | a/b | 711 ->
run | -R i -s r verify -> 1 "wrong mode a\ndamaged 1\n"
remove | a ->
run | -R i -s r verify -> 1 "missing a\nmissing a/b\nmissing a/b-c\nmissing a/b/c\ndamaged 4\n"
# links of two packages at `a/b` and `c`: nothing is wanted at `a/c`, `b` or `z`
begin ->
does | image-create -p test -> 0 done
package | a@1 | link path=a/b target=d ->
package | b@1 | link path=c target=d ->
catalog | a 1; b 1 ->
does | install a b -> 0 done
remove | a ->
remove | c ->
run | -R i -s r verify -> 1 "missing a\nmissing a/b\nmissing c\ndamaged 3\n"
# a hard link leads through `..`
begin ->
does | image-create -p test -> 0 done
package | a@1 | file $none path=l/f $file ->
package | b@1 | hardlink path=b/h target=../l/f ->
catalog | a 1; b 1 ->
run | -R i -s r install a b -> 0 "install 2, update 0, remove 0\nsteps: gone 0, fresh 2, mode 0, put 5, link 0, hard 1\ndone\n"
same | b/h | l/f -> true
remove | b ->
remove | l ->
run | -R i -s r verify -> 1 "missing b\nmissing b/h\nmissing l\nmissing l/f\ndamaged 4\n"
# of two overlaid files the one that takes the other's place counts, whichever comes first: it isn't preserved
begin ->
does | image-create -p test -> 0 done
package | a@1 | file $none path=m $file overlay=allow preserve=true ->
package | b@1 | file $abc path=m $file overlay=true ->
package | c@1 | file $none path=m $file overlay=allow preserve=true ->
catalog | a 1; b 1; c 1 ->
does | install a b -> 0 done
look | m -> file 644 "abc"
put | m | mine ->
run | -R i -s r verify -> 1 "wrong content m\ndamaged 1\n"
does | uninstall a b -> 0 done
does | install b c -> 0 done
look | m -> file 644 "abc"
put | m | mine ->
run | -R i -s r verify -> 1 "wrong content m\ndamaged 1\n"
# reserved comes before a clash, also at a link that isn't kept
begin ->
does | image-create -p test -> 0 done
package | a@1 | link path=m target=a; link path=var/pkg/x target=a mediator=p ->
package | b@1 | link path=m target=b; link path=var/sadm/pkg/y target=b ->
package | c@1 | dir path=var/pkg $dir ->
package | d@1 | link path=m target=b ->
catalog | a 1; b 1; c 1; d 1 ->
does | set-mediator -V 4 p -> 0 done
does | install a d -> 1 reserved var/pkg/x
does | install a b -> 1 reserved var/pkg/x
does | install b d -> 1 reserved var/sadm/pkg/y
does | install c -> 1 reserved var/pkg
"#;

#[test]
fn lines_of_packages_clash(rt: HostRuntime) {
    let alloc = rt.alloc();
    for (count, table) in [(71u32, KINDS), (30u32, DELIVERERS), (54u32, HARDLINKS)] {
        let mut world = World::new(alloc, bare(&rt, alloc));
        let rows = rows_told(&rt, alloc, &mut world, table);
        assert!(rt; rows == count, "{rows} rows in place of {count}");
    }
}

#[test]
fn what_is_wanted_stands(rt: HostRuntime) {
    let alloc = rt.alloc();
    let mut world = World::new(alloc, bare(&rt, alloc));
    let rows = rows_told(&rt, alloc, &mut world, WANTED);
    assert!(rt; rows == 77, "{rows} rows");
}
