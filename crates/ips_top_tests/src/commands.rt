//! The state that a changing command leads to, or why there is none.

use crate::packages::bare;
use crate::runs::rows_told;
use crate::world::World;

// Records of an image, a command, and what then stands: what is installed, the lists, and the last line of the history.
const COMMANDS: &str = r#"
# no repository is asked where nothing comes from it
lose | pkg5.repository ->
does | image-create -p test -> 0 done
does | install a -> 1 no repository
put | var/pkg/packages/a | package 2%0aversion 2%0adepend fmri=b@2 type=require%0a ->
put | var/pkg/packages/b | package 2%0aversion 2%0a ->
run | -R i -s r uninstall b -> 1 "no solution\nstem 0 b -\nstem 1 a 2\nrefutation 2\n0.0 | 1 | t0\n- | 0 | n0\n"
does | uninstall a -> 0 done
run | -R i -s r list -> 0 "b@2\n"
does | history -> 0 20240102T030405Z uninstall a
# stems that are avoided
remove | var ->
does | image-create -p test -> 0 done
put | var/pkg/avoid | x%0a ->
does | avoid y x -> 0 done
look | var/pkg/avoid -> file 644 "x\ny\n"
does | history -> 0 20240102T030405Z avoid y x
put | var/pkg/avoid | x%0a ->
does | avoid x -> 4 nothing to do
does | unavoid x -> 0 done
look | var/pkg/avoid -> file 644 ""
does | history -> 0 20240102T030405Z unavoid x
# stems that are kept at a version
does | freeze b@1 a@2 -> 0 done
look | var/pkg/freeze -> file 644 "a@2\nb@1\n"
does | history -> 0 20240102T030405Z freeze b%401 a%402
put | var/pkg/freeze | a@1%0a ->
does | freeze a@2 -> 0 done
look | var/pkg/freeze -> file 644 "a@2\n"
does | history -> 0 20240102T030405Z freeze a%402
put | var/pkg/freeze | a@1%0a ->
does | unfreeze b -> 4 nothing to do
# mediators
remove | var ->
does | image-create -p test -> 0 done
does | set-mediator -V 3.9 python -> 0 done
look | var/pkg/mediators -> file 644 "python 3.9 -\n"
does | history -> 0 20240102T030405Z set-mediator -V 3.9 python
put | var/pkg/mediators | python 3 -%0a ->
does | unset-mediator python -> 0 done
look | var/pkg/mediators -> file 644 ""
does | history -> 0 20240102T030405Z unset-mediator python
# origins: the first one is added with that of the image
does | set-publisher b -> 0 done
look | var/pkg/image -> file 644 "image 2\npublisher test\norigin test sticky\norigin b sticky\n"
does | history -> 0 20240102T030405Z set-publisher b
put | var/pkg/image | image 2%0apublisher test%0aorigin test sticky%0aorigin b free%0a ->
does | unset-publisher b -> 0 done
look | var/pkg/image -> file 644 "image 2\npublisher test\norigin test sticky\n"
does | history -> 0 20240102T030405Z unset-publisher b
# an index
remove | var ->
does | image-create -p test -> 0 done
does | rebuild-index -> 0 done
look | var/pkg/index -> file 644 "index 1\n"
does | history -> 0 20240102T030405Z rebuild-index
does | rebuild-index -> 4 nothing to do
# facets and variants
remove | var ->
does | image-create -p test -> 0 done
does | change-facet facet.doc=false -> 0 done
look | var/pkg/image -> file 644 "image 2\npublisher test\nfacet facet.doc false\n"
does | history -> 0 20240102T030405Z change-facet facet.doc%3Dfalse
does | change-facet facet.doc=false -> 4 nothing to do
put | var/pkg/image | image 2%0apublisher test%0avariant variant.arch i386%0a ->
does | change-variant variant.arch=sparc -> 0 done
look | var/pkg/image -> file 644 "image 2\npublisher test\nvariant variant.arch sparc\n"
does | history -> 0 20240102T030405Z change-variant variant.arch%3Dsparc
# an image of the first format
remove | var/pkg/packages ->
put | var/pkg/image | image 1%0apublisher test%0a ->
put | var/pkg/installed | ->
does | avoid x -> 1 old format: run update-format
does | update-format -> 0 done
look | var/pkg/image -> file 644 "image 2\npublisher test\n"
does | history -> 0 20240102T030405Z update-format
# packages of a repository
stock | pkg5.repository | version=4%0a ->
catalog | a 1 2; b 1 2; c 1; d 1 ->
package | a@1 | ->
package | a@2 | depend fmri=b@2 type=require ->
package | b@1 | ->
package | b@2 | ->
package | c@1 | depend fmri=a@1 type=incorporate ->
package | d@1 | depend fmri=none@1 type=require ->
does | install x -> 1 no match x
run | -R i -s r install d -> 1 "no solution\nstem 0 d 1\nstem 1 none -\nrefutation 2\n0.0 | 1 | t0\n- | 0 | n0\n"
does | install a -> 0 done
run | -R i -s r list -> 0 "a@2\nb@2\n"
does | history -> 0 20240102T030405Z install a
does | install a -> 4 nothing to do
remove | var ->
does | image-create -p test -> 0 done
does | install c a -> 0 done
run | -R i -s r list -> 0 "a@1\nc@1\n"
does | history -> 0 20240102T030405Z install c a
remove | var ->
does | image-create -p test -> 0 done
put | var/pkg/packages/a | package 2%0aversion 1%0a ->
does | update -> 0 done
run | -R i -s r list -> 0 "a@2\nb@2\n"
does | history -> 0 20240102T030405Z update
# one that is avoided and asked for, and one that is kept
remove | var ->
does | image-create -p test -> 0 done
put | var/pkg/avoid | a%0a ->
does | install a -> 0 done
run | -R i -s r list -> 0 "a@2\nb@2\n"
look | var/pkg/avoid -> file 644 ""
does | history -> 0 20240102T030405Z install a
remove | var ->
does | image-create -p test -> 0 done
put | var/pkg/packages/a | package 2%0aversion 1%0a ->
put | var/pkg/freeze | a@1%0a ->
does | update -> 4 nothing to do
# an index is kept
remove | var ->
does | image-create -p test -> 0 done
put | var/pkg/index | index 1%0a ->
does | install b -> 0 done
run | -R i -s r list -> 0 "b@2\n"
look | var/pkg/index -> file 644 "index 1\n"
does | history -> 0 20240102T030405Z install b
"#;

#[test]
fn each_command_leads_to_its_state(rt: HostRuntime) {
    let alloc = rt.alloc();
    let mut world = World::new(alloc, bare(&rt, alloc));
    let rows = rows_told(&rt, alloc, &mut world, COMMANDS);
    assert!(rt; rows == 112, "{rows} rows");
}
