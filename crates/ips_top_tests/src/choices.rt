//! What is chosen and what is kept of it: dependencies, facets, the index, and the two formats of an image's records.

use crate::packages::bare;
use crate::runs::rows_told;
use crate::world::World;

// What is chosen.
const CHOICES: &str = r#"
# the greatest version that a package incorporates
does | image-create -p test -> 0 done
package | inc@1 | depend fmri=lib type=require; depend fmri=lib@1.4.3 type=incorporate ->
package | lib@1.4.2 | set name=info value=x ->
package | lib@1.4.3.7 | set name=info value=x ->
package | lib@1.4.4 | set name=info value=x ->
catalog | inc 1; lib 1.4.2 1.4.3.7 1.4.4 ->
does | install inc -> 0 done
run | -R i -s r list -> 0 "inc@1\nlib@1.4.3.7\n"
does | update -> 4 nothing to do
# of two the later one, since the absence of the earlier comes first; so many beginnings it takes
begin ->
does | image-create -p test -> 0 done
package | app@1 | depend fmri=a fmri=b type=require-any ->
package | a@1 | set name=info value=x ->
package | b@1 | set name=info value=x ->
catalog | app 1; a 1; b 1 ->
does | install --search-limit 2 app -> 1 search limit 2 spent
does | install --search-limit 3 app -> 0 done
run | -R i -s r list -> 0 "app@1\nb@1\n"
# what becomes obsolete goes, and is avoided where a group wants it
begin ->
does | image-create -p test -> 0 done
package | g@1 | depend fmri=x type=group ->
package | x@1 | dir path=x $dir ->
package | x@2 | set name=pkg.obsolete value=true ->
catalog | g 1; x 1 ->
does | install g x -> 0 done
catalog | g 1; x 1 2 ->
run | -R i -s r update -> 0 "install 0, update 0, remove 1\nsteps: gone 2, fresh 0, mode 0, put 3, link 0, hard 0\ndone\n"
does | list -> 0 g@1
look | var/pkg/avoid -> file 644 "x\n"
# what a failure taught isn't tried again: a search by stems alone would take thirteen beginnings
begin ->
does | image-create -p test -> 0 done
package | x@1 | set name=info value=x ->
package | x@2 | depend fmri=z type=exclude ->
package | y@1 | set name=info value=x ->
package | y@2 | set name=info value=x ->
package | y@3 | set name=info value=x ->
package | y@4 | set name=info value=x ->
package | y@5 | set name=info value=x ->
package | y@6 | set name=info value=x ->
package | y@7 | set name=info value=x ->
package | y@8 | set name=info value=x ->
package | y@9 | set name=info value=x ->
package | z@1 | set name=info value=x ->
catalog | x 1 2; y 1 2 3 4 5 6 7 8 9; z 1 ->
does | install --search-limit 5 x y z -> 0 done
run | -R i -s r list -> 0 "x@1\ny@9\nz@1\n"
# an origin is asked of what is installed before
begin ->
does | image-create -p test -> 0 done
package | base@4 | set name=info value=x ->
package | base@5 | set name=info value=x ->
package | new@2 | depend fmri=base@5 type=origin ->
catalog | base 4; new 2 ->
does | install base -> 0 done
catalog | base 4 5; new 2 ->
run | -R i -s r install base@5 new -> 1 "no solution\nstem 0 base 5\nstem 1 new 2\nrefutation 2\n- | 1 | t0\n"
does | update base -> 0 done
does | install new -> 0 done
run | -R i -s r list -> 0 "base@5\nnew@2\n"
# one of several, unless all are avoided
begin ->
does | image-create -p test -> 0 done
package | g@1 | depend fmri=a fmri=b type=group-any ->
package | a@1 | set name=info value=x ->
package | b@1 | set name=info value=x ->
catalog | g 1; a 1; b 1 ->
does | install g -> 0 done
run | -R i -s r list -> 0 "b@1\ng@1\n"
does | uninstall g b -> 0 done
does | avoid a b -> 0 done
does | install g -> 0 done
does | list -> 0 g@1
look | var/pkg/avoid -> file 644 "a\nb\n"
does | unavoid a -> 4 nothing to do
# a group draws in what it names, unless that is avoided
begin ->
does | image-create -p test -> 0 done
package | g@1 | depend fmri=x type=group ->
package | x@1 | set name=info value=x ->
catalog | g 1; x 1 ->
does | install g -> 0 done
run | -R i -s r list -> 0 "g@1\nx@1\n"
does | uninstall g x -> 0 done
does | avoid x -> 0 done
does | install g -> 0 done
does | list -> 0 g@1
look | var/pkg/avoid -> file 644 "x\n"
"#;

// What is laid of it.
const FACETS: &str = r#"
does | image-create -p test --facet facet.locale.*=false --variant variant.arch=i386 -> 0 done
package | doc@1 | file $abc path=de $file facet.doc=true facet.locale.de=all ->
package | arch@1 | file $abc path=i386 $file variant.arch=i386; file $old path=sparc $file variant.arch=sparc ->
package | long@1 | file $long_abc path=long $file; file $none path=none $file; dir path=/usr $dir ->
catalog | doc 1; arch 1; long 1 ->
does | install doc arch long -> 0 done
look | de -> absent
look | i386 -> file 644 "abc"
look | sparc -> absent
look | long -> file 644 "abc"
look | none -> file 644 ""
look | usr -> dir 755
# the longer pattern decides
does | change-facet facet.locale.de=true -> 0 done
look | de -> file 644 "abc"
does | change-facet facet.locale.de=None -> 0 done
look | de -> absent
does | change-facet facet.locale.de=none -> 4 nothing to do
does | change-variant variant.arch=sparc -> 0 done
look | i386 -> absent
look | sparc -> file 644 "old"
run | -R i -s r contents arch -> 0 "sparc\n"
run | -R i -s r contents -m arch -> 0 "file a9993e364706816aba3e25717850c26c9cd0d89d group=bin mode=0644 owner=root path=i386 variant.arch=i386\nfile c00dbbc9dadfbe1e232e93a729dd4752fade0abf group=bin mode=0644 owner=root path=sparc variant.arch=sparc\n"
run | -R i -s r verify -> 0 "ok\n"
"#;

// The index.
const INDEX: &str = r#"
does | image-create -p test -> 0 done
package | hello@1 | dir path=usr $dir; dir path=usr/share $dir; file $abc path=usr/share/hello $file ->
catalog | hello 1 ->
does | install hello -> 0 done
does | search hello -> 1 no index
run | -R i -s r rebuild-index -> 0 "install 0, update 0, remove 0\nsteps: gone 0, fresh 0, mode 0, put 2, link 0, hard 0\ndone\n"
does | rebuild-index -> 4 nothing to do
run | -R i -s r search hello -> 0 "path file hello usr/share/hello\n"
run | -R i -s r search us? -> 0 "path dir hello usr\n"
does | search nothing -> 1 no match nothing
# it is all that a search reads
put | var/pkg/packages/hello | ->
run | -R i -s r search hello -> 0 "path file hello usr/share/hello\n"
does | verify -> 1 bad image var/pkg/packages/hello line 1
put | var/pkg/packages/hello | package 2%0aversion 1%0adir group=bin mode=0755 owner=root path=usr%0a ->
# it goes with what is installed
does | uninstall hello -> 0 done
look | var/pkg/index -> file 644 "index 1\n"
does | search hello -> 1 no match hello
put | var/pkg/index | index 1%0ano row%0a ->
does | search hello -> 1 bad image var/pkg/index line 2
does | list -> 1 bad image var/pkg/index line 2
"#;

// Records of the first format, written by hand, and what makes them the second.
const FORMATS: &str = r#"
put | var/pkg/image | image 1%0apublisher test%0a ->
put | var/pkg/installed | hello@1.0,5.11-1:20240102T030405Z%0a ->
put | var/pkg/manifests/hello | dir group=bin mode=0755 owner=root path=usr%0adir group=bin mode=0755 owner=root path=usr/share%0afile a9993e364706816aba3e25717850c26c9cd0d89d group=bin mode=0644 owner=root path=usr/share/hello%0a ->
put | var/pkg/avoid | ->
put | var/pkg/freeze | ->
put | var/pkg/mediators | ->
put | var/pkg/history | 20240102T030405Z install hello%0a ->
put | var/pkg/owners | 0 2 root bin usr%0a0 2 root bin usr/share%0a0 2 root bin usr/share/hello%0a ->
put | var/pkg/drivers | ->
put | usr/share/hello | abc ->
# it is shown, and not changed
run | -R i -s r list -> 0 "hello@1.0,5.11-1:20240102T030405Z\n"
does | verify -> 0 ok
does | history -> 0 20240102T030405Z install hello
does | contents hello -> 0 usr/share/hello
does | install hello -> 1 old format: run update-format
does | avoid x -> 1 old format: run update-format
does | fix -> 1 old format: run update-format
# but by one command, of which a stop leaves the steps
with | -R i -s r update-format | after 84 -> 1 "folder fault: unfinished\n"
look | var/pkg/journal -> file 600 "journal 1\nput 0 0644 var/pkg/history\nput 1 0644 var/pkg/image\ngone var/pkg/installed\ngone var/pkg/manifests\nfresh 0755 var/pkg/packages\nput 2 0644 var/pkg/packages/hello\nend 6\n"
does | update-format -> 1 unfinished: run fix
does | fix -> 0 recovered: new image
look | var/pkg/image -> file 644 "image 2\npublisher test\n"
look | var/pkg/installed -> absent
look | var/pkg/manifests -> absent
look | var/pkg/packages/hello -> file 644 "package 2\nversion 1.0,5.11-1:20240102T030405Z\ndir group=bin mode=0755 owner=root path=usr\ndir group=bin mode=0755 owner=root path=usr/share\nfile a9993e364706816aba3e25717850c26c9cd0d89d group=bin mode=0644 owner=root path=usr/share/hello\n"
run | -R i -s r list -> 0 "hello@1.0,5.11-1:20240102T030405Z\n"
does | update-format -> 4 nothing to do
does | verify -> 0 ok
# the report of one that isn't stopped
begin ->
put | var/pkg/image | image 1%0apublisher test%0a ->
put | var/pkg/installed | a@1%0a ->
put | var/pkg/manifests/a | ->
put | var/pkg/avoid | ->
put | var/pkg/freeze | ->
put | var/pkg/mediators | ->
put | var/pkg/history | ->
put | var/pkg/owners | ->
put | var/pkg/drivers | ->
run | -R i -s r update-format -> 0 "install 0, update 0, remove 0\nsteps: gone 2, fresh 1, mode 0, put 3, link 0, hard 0\ndone\n"
run | -R i -s r list -> 0 "a@1\n"
"#;

#[test]
fn the_best_selection_is_chosen(rt: HostRuntime) {
    let alloc = rt.alloc();
    for (count, table) in [(84u32, CHOICES), (23u32, FACETS)] {
        let mut world = World::new(alloc, bare(&rt, alloc));
        let rows = rows_told(&rt, alloc, &mut world, table);
        assert!(rt; rows == count, "{rows} rows in place of {count}");
    }
}

#[test]
fn records_are_kept_in_their_format(rt: HostRuntime) {
    let alloc = rt.alloc();
    for (count, table) in [(20u32, INDEX), (40u32, FORMATS)] {
        let mut world = World::new(alloc, bare(&rt, alloc));
        let rows = rows_told(&rt, alloc, &mut world, table);
        assert!(rt; rows == count, "{rows} rows in place of {count}");
    }
}
