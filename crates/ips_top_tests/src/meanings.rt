//! What packages mean together, and what of it isn't known before the image is looked at: overlays, clashes, accounts and records.

use crate::packages::bare;
use crate::runs::rows_told;
use crate::world::World;

// Two packages at one path.
const OVERLAYS: &str = r#"
does | image-create -p test -> 0 done
package | plain@1 | file $old path=etc/m $file ->
package | same@1 | file $old path=etc/m $file ->
package | giving@1 | file $old path=etc/m $file overlay=allow preserve=true ->
package | unkept@1 | file $old path=etc/m $file overlay=allow ->
package | taking@1 | file $new path=etc/m $file overlay=true ->
package | closed@1 | file $new path=etc/m group=bin mode=0600 owner=root overlay=true ->
catalog | plain 1; same 1; giving 1; unkept 1; taking 1; closed 1 ->
does | install plain same -> 1 clash etc/m plain:1 same:1
does | install plain taking -> 1 clash etc/m plain:1 taking:1
does | install unkept taking -> 1 clash etc/m taking:1 unkept:1
does | install giving closed -> 1 clash etc/m closed:1 giving:1
# the bytes are those of the file that takes the other's place, while it is there
does | install giving taking -> 0 done
look | etc/m -> file 644 "new"
does | verify -> 0 ok
does | uninstall taking -> 0 done
look | etc/m -> file 644 "old"
does | install taking -> 0 done
look | etc/m -> file 644 "new"
# an edit is kept as the file says that is left
put | etc/m | mine ->
does | uninstall taking -> 0 done
look | etc/m -> file 644 "mine"
does | uninstall giving -> 0 done
look | etc/m -> absent
look | var/pkg/lost+found/20240102T030405Z/etc/m -> file 644 "mine"
# the file that gives its place comes later
does | install taking -> 0 done
does | install giving -> 0 done
look | etc/m -> file 644 "new"
"#;

// Packages that can't stand in one image.
const CLASHES: &str = r#"
does | image-create -p test -> 0 done
package | link@1 | link path=lib target=lib64 ->
package | below@1 | file $abc path=lib/x $file ->
package | dir@1 | dir path=lib $dir ->
package | other@1 | dir path=lib group=sys mode=0755 owner=root ->
package | hard@1 | hardlink path=h target=lib/y ->
package | med@1 | link path=lib target=lib64 mediator=m mediator-version=1 ->
package | user@1 | user username=u group=bin ->
package | resu@1 | user username=u group=sys ->
package | var@1 | link path=var target=run ->
package | records@1 | file $abc path=var/sadm/pkg/x $file ->
catalog | link 1; below 1; dir 1; other 1; hard 1; med 1; user 1; resu 1; var 1; records 1 ->
does | install link below -> 1 clash lib link:1 below:1
does | install link dir -> 1 clash lib dir:1 link:1
does | install dir other -> 1 clash lib dir:1 other:1
does | install hard -> 1 clash h hard:1 hard:1
does | install link med -> 1 clash lib link:1 med:1
does | install user resu -> 1 clash u resu:1 user:1
does | install var -> 1 clash var var:1 image:0
does | install records -> 1 reserved var/sadm/pkg/x
# what is installed counts too
does | install link -> 0 done
does | install below -> 1 clash lib link:1 below:1
does | list -> 0 link@1
"#;

// Users, groups and owners.
const ACCOUNTS: &str = r#"
does | image-create -p test -> 0 done
package | svc@1 | group groupname=svc gid=70; user username=svc uid=70 group=svc ->
package | svc@2 | group groupname=svc gid=71; user username=svc uid=70 group=svc gcos-field=Service group-list=mail ->
package | tvc@1 | user username=tvc uid=70 group=svc ->
package | uvc@1 | user username=uvc group=g9 ->
package | own@1 | dir path=srv group=svc mode=0755 owner=svc ->
package | nobody@1 | dir path=home group=g9 mode=0755 owner=svc ->
catalog | svc 1 2; tvc 1; uvc 1; own 1; nobody 1 ->
does | install svc@1 -> 0 done
look | etc/passwd -> file 644 "svc:x:70:70:& User:/:\n"
look | etc/shadow -> file 400 "svc:*LK*:::::::\n"
look | etc/group -> file 644 "svc::70:\n"
# another name's number, and lines that are none
does | install tvc -> 1 id taken 70
put | etc/passwd | svc:x:70:70:& User:/:%0aa:b%0a ->
does | update -> 1 bad account line passwd 2
put | etc/passwd | svc:x:70:70:& User:/:%0a ->
put | etc/shadow | svc%0a ->
does | update -> 1 bad account line shadow 1
put | etc/shadow | svc:pw:::::::%0a ->
put | etc/group | +note%0asvc::70:mine%0amail::6:%0arest::007:%0a ->
does | update -> 1 bad account line group 4
# a line changes at its place, with its password and members; notes, modes and files that don't change stay
put | etc/group | +note%0asvc::70:mine%0amail::6:%0a ->
mode | etc/group | 600 ->
run | -R i -s r update -> 0 "install 0, update 1, remove 0\nsteps: gone 0, fresh 0, mode 0, put 4, link 0, hard 0\ndone\n"
look | etc/passwd -> file 644 "svc:x:70:71:Service:/:\n"
look | etc/shadow -> file 644 "svc:pw:::::::\n"
look | etc/group -> file 600 "+note\nsvc::71:mine\nmail::6:svc\n"
# groups and owners that nobody knows, also once they go
does | install uvc -> 1 unknown owner g9 of etc/group
does | install nobody -> 1 unknown owner g9 of home
does | install own -> 0 done
look | var/pkg/owners -> file 644 "70 71 svc svc srv\n"
does | uninstall svc -> 1 unknown owner svc of srv
does | uninstall own svc -> 0 done
look | etc/passwd -> file 644 ""
look | etc/shadow -> file 644 ""
look | etc/group -> file 600 "+note\nmail::6:\n"
# an account file of a package has the users written into it, and keeps its mode
begin ->
does | image-create -p test -> 0 done
package | pw@1 | file $none path=etc/passwd group=bin mode=0604 owner=root preserve=true ->
package | svc@1 | user username=svc group=bin ->
catalog | svc 1; pw 1 ->
run | -R i -s r install pw svc -> 0 "install 2, update 0, remove 0\nsteps: gone 0, fresh 1, mode 0, put 6, link 0, hard 0\ndone\n"
look | etc/passwd -> file 604 "svc:x:1:2:& User:/:\n"
does | verify -> 0 ok
does | uninstall svc -> 0 done
look | etc/passwd -> file 604 ""
# where no such file can be
begin ->
does | image-create -p test -> 0 done
package | svc@1 | user username=svc group=bin ->
package | old@1 | file $old path=etc/shadow $file ->
package | hard@1 | file $none path=etc/g $file; hardlink path=etc/group target=g ->
package | etc@1 | link path=etc target=config ->
catalog | svc 1; old 1; hard 1; etc 1 ->
put | etc/group/x | x ->
does | install svc -> 1 bad account line group 0
link | etc/group | passwd ->
does | install svc -> 1 bad account line group 0
remove | etc ->
does | install svc old -> 1 bad account line shadow 1
does | install svc hard -> 1 bad account line group 0
does | install svc etc -> 1 bad account line passwd 0
# a link above them is put aside
link | etc | config ->
does | install svc -> 0 done
look | etc/passwd -> file 644 "svc:x:1:2:& User:/:\n"
look | var/pkg/lost+found/20240102T030405Z/etc -> link "config"
"#;

// Records that come and go.
const RECORDS: &str = r#"
does | image-create -p test -> 0 done
package | lic@1 | license $abc license=CDDL must-display=true; license $none license=b%20c; legacy pkg=SUNWx name=X version=1.0 ->
package | lic@2 | license $new license=CDDL ->
package | drv@1 | driver name=d alias=p ->
catalog | lic 1 2; drv 1 ->
run | -R i -s r install lic@1 drv -> 0 "license: lic CDDL\ninstall 2, update 0, remove 0\nsteps: gone 0, fresh 4, mode 0, put 7, link 0, hard 0\ndone\n"
look | var/pkg/license/lic/CDDL -> file 644 "abc"
look | var/pkg/license/lic/b%2520c -> file 644 ""
look | var/sadm/pkg/SUNWx/pkginfo -> file 644 "PKG=SUNWx\nNAME=X\nVERSION=1.0\n"
look | var/pkg/drivers -> file 644 "driver alias=p name=d\n"
# a license of other bytes, and one that goes
does | update -> 0 done
look | var/pkg/license/lic/CDDL -> file 644 "new"
look | var/pkg/license/lic/b%2520c -> absent
look | var/sadm -> absent
# what stands in the records' folders goes with them, and isn't salvaged
put | var/pkg/license/lic/mine | mine ->
does | uninstall lic drv -> 0 done
look | var/pkg/license/lic -> absent
look | var/pkg/license -> dir 755
look | var/pkg/drivers -> file 644 ""
look | var/pkg/packages -> dir 755
look | var/pkg/packages/lic -> absent
look | var/pkg/lost+found/20240102T030405Z -> absent
# the history keeps its order
run | -R i -s r history -> 0 "20240102T030405Z image-create -p test\n20240102T030405Z install lic%401 drv\n20240102T030405Z update\n20240102T030405Z uninstall lic drv\n"
"#;

#[test]
fn packages_stand_together_or_clash(rt: HostRuntime) {
    let alloc = rt.alloc();
    for (count, table) in [(28u32, OVERLAYS), (23u32, CLASHES)] {
        let mut world = World::new(alloc, bare(&rt, alloc));
        let rows = rows_told(&rt, alloc, &mut world, table);
        assert!(rt; rows == count, "{rows} rows in place of {count}");
    }
}

#[test]
fn accounts_and_records_follow_the_packages(rt: HostRuntime) {
    let alloc = rt.alloc();
    for (count, table) in [(65u32, ACCOUNTS), (23u32, RECORDS)] {
        let mut world = World::new(alloc, bare(&rt, alloc));
        let rows = rows_told(&rt, alloc, &mut world, table);
        assert!(rt; rows == count, "{rows} rows in place of {count}");
    }
}
