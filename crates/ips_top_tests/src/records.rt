//! The records of an image: what each file may hold, or its first bad line, and what commands write of them.

use crate::packages::bare;
use crate::runs::rows_told;
use crate::world::World;

// The file `image`.
const IMAGE: &str = r#"
does | image-create -p test -> 0 done
# the format, in one of two ways
put | var/pkg/image | ->
does | list -> 1 bad image var/pkg/image line 1
put | var/pkg/image | image 1 ->
does | list -> 1 bad image var/pkg/image line 1
put | var/pkg/image | image 1%0a ->
does | list -> 1 bad image var/pkg/image line 2
put | var/pkg/image | image 2%0a ->
does | list -> 1 bad image var/pkg/image line 2
put | var/pkg/image | image 3%0apublisher test%0a ->
does | list -> 1 bad image var/pkg/image line 1
put | var/pkg/image | image 01%0apublisher test%0a ->
does | list -> 1 bad image var/pkg/image line 1
put | var/pkg/image | image  1%0apublisher test%0a ->
does | list -> 1 bad image var/pkg/image line 1
put | var/pkg/image | publisher test%0a ->
does | list -> 1 bad image var/pkg/image line 1
put | var/pkg/image | %0a ->
does | list -> 1 bad image var/pkg/image line 1
# a publisher, and no second one
put | var/pkg/image | image 1%0apublisher test%0a ->
does | list -> 1 bad image var/pkg/installed line 0
put | var/pkg/image | image 2%0apublisher test%0a ->
does | change-facet facet.z=true -> 0 done
look | var/pkg/image -> file 644 "image 2\npublisher test\nfacet facet.z true\n"
put | var/pkg/image | image 2%0apublisher test ->
does | list -> 1 bad image var/pkg/image line 2
put | var/pkg/image | image 2%0apublisher %0a ->
does | list -> 1 bad image var/pkg/image line 2
put | var/pkg/image | image 2%0apublisher a/b%0a ->
does | list -> 1 bad image var/pkg/image line 2
put | var/pkg/image | image 2%0apublisher -a%0a ->
does | list -> 1 bad image var/pkg/image line 2
put | var/pkg/image | image 2%0aimage 2%0a ->
does | list -> 1 bad image var/pkg/image line 2
put | var/pkg/image | image 2%0aorigin test sticky%0a ->
does | list -> 1 bad image var/pkg/image line 2
put | var/pkg/image | image 2%0apublisher test%0apublisher test%0a ->
does | list -> 1 bad image var/pkg/image line 3
put | var/pkg/image | image 2%0apublisher test%0aimage 2%0a ->
does | list -> 1 bad image var/pkg/image line 3
put | var/pkg/image | image 2%0apublisher test%0a%0a ->
does | list -> 1 bad image var/pkg/image line 3
# origins, of the second format alone, in their order, no name twice
put | var/pkg/image | image 2%0apublisher test%0aorigin test sticky%0aorigin extra free%0a ->
does | change-facet facet.z=true -> 0 done
look | var/pkg/image -> file 644 "image 2\npublisher test\norigin test sticky\norigin extra free\nfacet facet.z true\n"
put | var/pkg/image | image 2%0apublisher test%0aorigin b free%0aorigin a free%0a ->
does | change-facet facet.z=true -> 0 done
look | var/pkg/image -> file 644 "image 2\npublisher test\norigin b free\norigin a free\nfacet facet.z true\n"
put | var/pkg/image | image 1%0apublisher test%0aorigin test sticky%0a ->
does | list -> 1 bad image var/pkg/image line 3
put | var/pkg/image | image 1%0apublisher test%0afacet doc true%0aorigin test sticky%0a ->
does | list -> 1 bad image var/pkg/image line 4
put | var/pkg/image | image 2%0apublisher test%0aorigin test%0a ->
does | list -> 1 bad image var/pkg/image line 3
put | var/pkg/image | image 2%0apublisher test%0aorigin test loose%0a ->
does | list -> 1 bad image var/pkg/image line 3
put | var/pkg/image | image 2%0apublisher test%0aorigin a/b sticky%0a ->
does | list -> 1 bad image var/pkg/image line 3
put | var/pkg/image | image 2%0apublisher test%0aorigin a sticky%0aorigin b free%0aorigin a free%0a ->
does | list -> 1 bad image var/pkg/image line 5
put | var/pkg/image | image 2%0apublisher test%0aorigin a sticky%0aorigin a sticky%0afacet %0a ->
does | list -> 1 bad image var/pkg/image line 4
put | var/pkg/image | image 2%0apublisher test%0aorigin a sticky%0afacet %0a ->
does | list -> 1 bad image var/pkg/image line 4
# one word for actuators
put | var/pkg/image | image 2%0apublisher test%0aactuator %252Fbin%252Fecho%0a ->
does | change-facet facet.z=true -> 0 done
look | var/pkg/image -> file 644 "image 2\npublisher test\nactuator %2Fbin%2Fecho\nfacet facet.z true\n"
put | var/pkg/image | image 2%0apublisher test%0aactuator %0a ->
does | list -> 1 bad image var/pkg/image line 3
put | var/pkg/image | image 2%0apublisher test%0aactuator /bin/echo%0a ->
does | list -> 1 bad image var/pkg/image line 3
put | var/pkg/image | image 2%0apublisher test%0aactuator a%0aactuator b%0a ->
does | list -> 1 bad image var/pkg/image line 4
put | var/pkg/image | image 2%0apublisher test%0aactuator a%0aorigin test sticky%0a ->
does | list -> 1 bad image var/pkg/image line 4
# variants and facets, by their names
put | var/pkg/image | image 2%0apublisher test%0avariant arch i%2520386%0avariant zone global%0a ->
does | change-facet facet.z=true -> 0 done
look | var/pkg/image -> file 644 "image 2\npublisher test\nvariant arch i%20386\nvariant zone global\nfacet facet.z true\n"
put | var/pkg/image | image 2%0apublisher test%0avariant arch i386%0avariant arch sparc%0a ->
does | list -> 1 bad image var/pkg/image line 4
put | var/pkg/image | image 2%0apublisher test%0avariant b x%0avariant a x%0a ->
does | list -> 1 bad image var/pkg/image line 4
put | var/pkg/image | image 2%0apublisher test%0avariant arch%0a ->
does | list -> 1 bad image var/pkg/image line 3
put | var/pkg/image | image 2%0apublisher test%0avariant arch %0a ->
does | list -> 1 bad image var/pkg/image line 3
put | var/pkg/image | image 2%0apublisher test%0avariant arch a b%0a ->
does | list -> 1 bad image var/pkg/image line 3
put | var/pkg/image | image 2%0apublisher test%0avariant a/b x%0a ->
does | list -> 1 bad image var/pkg/image line 3
put | var/pkg/image | image 2%0apublisher test%0avariant a x%0aactuator a%0a ->
does | list -> 1 bad image var/pkg/image line 4
put | var/pkg/image | image 2%0apublisher test%0afacet doc true%0afacet locale.%252A false%0a ->
does | change-facet facet.z=true -> 0 done
look | var/pkg/image -> file 644 "image 2\npublisher test\nfacet doc true\nfacet facet.z true\nfacet locale.%2A false\n"
put | var/pkg/image | image 2%0apublisher test%0afacet doc yes%0a ->
does | list -> 1 bad image var/pkg/image line 3
put | var/pkg/image | image 2%0apublisher test%0afacet doc%0a ->
does | list -> 1 bad image var/pkg/image line 3
put | var/pkg/image | image 2%0apublisher test%0afacet doc True%0a ->
does | list -> 1 bad image var/pkg/image line 3
put | var/pkg/image | image 2%0apublisher test%0afacet doc true%0afacet doc false%0a ->
does | list -> 1 bad image var/pkg/image line 4
put | var/pkg/image | image 2%0apublisher test%0afacet doc true%0avariant a x%0a ->
does | list -> 1 bad image var/pkg/image line 4
put | var/pkg/image | image 2%0apublisher test%0afacet doc true ->
does | list -> 1 bad image var/pkg/image line 3
put | var/pkg/image | image 2%0apublisher test%0aorigin test sticky%0aactuator a%0avariant a x%0afacet a true%0a ->
does | change-facet facet.z=true -> 0 done
look | var/pkg/image -> file 644 "image 2\npublisher test\norigin test sticky\nactuator a\nvariant a x\nfacet a true\nfacet facet.z true\n"
put | var/pkg/image | image 2%0apublisher test%0aorigin test sticky%0aactuator a%0avariant a x%0afacet a true%0afrob%0a ->
does | list -> 1 bad image var/pkg/image line 7
# bytes that are no UTF-8
put | var/pkg/image | image 1%0apublisher %ff%0a ->
does | list -> 1 bad image var/pkg/image line 2
# no file, and something else than one
remove | var/pkg/image ->
does | list -> 1 no image
dir | var/pkg/image ->
does | list -> 1 bad image var/pkg/image line 0
# all of it: what it sets decides what is admitted
put | var/pkg/image | image 2%0apublisher test%0aorigin b free%0aorigin a sticky%0aactuator %252Fbin%252Fecho%0avariant arch i%2520386%0afacet doc true%0afacet locale.%252A false%0a ->
does | change-facet facet.z=true -> 0 done
look | var/pkg/image -> file 644 "image 2\npublisher test\norigin b free\norigin a sticky\nactuator %2Fbin%2Fecho\nvariant arch i%20386\nfacet doc true\nfacet facet.z true\nfacet locale.%2A false\n"
put | var/pkg/image | image 2%0apublisher test%0aorigin b free%0aorigin a sticky%0avariant variant.arch i%2520386%0afacet facet.doc true%0afacet facet.locale.%252A false%0a ->
put | var/pkg/packages/a | package 2%0aversion 1%0adir path=a mode=0755 owner=root group=bin variant.arch="i 386" facet.doc=true%0adir path=b mode=0755 owner=root group=bin facet.locale.de=true%0adir path=c mode=0755 owner=root group=bin variant.arch=i386%0a ->
run | -R i -s r contents a -> 0 "a\n"
does | set-publisher c -> 0 done
look | var/pkg/image -> file 644 "image 2\npublisher test\norigin b free\norigin a sticky\norigin c sticky\nvariant variant.arch i%20386\nfacet facet.doc true\nfacet facet.locale.%2A false\n"
# as it is made, with what is set in another order than that of the names
remove | var ->
does | image-create -p test --variant variant.opensolaris.zone=global --variant variant.arch=i386 --facet facet.locale.*=false --facet facet.doc=true --actuator /bin/echo -> 0 done
look | var/pkg/image -> file 644 "image 2\npublisher test\nactuator %2Fbin%2Fecho\nvariant variant.arch i386\nvariant variant.opensolaris.zone global\nfacet facet.doc true\nfacet facet.locale.%2A false\n"
does | set-publisher --non-sticky extra -> 0 done
look | var/pkg/image -> file 644 "image 2\npublisher test\norigin test sticky\norigin extra free\nactuator %2Fbin%2Fecho\nvariant variant.arch i386\nvariant variant.opensolaris.zone global\nfacet facet.doc true\nfacet facet.locale.%2A false\n"
"#;

// Packages in the first format: a list of names, and a manifest of each.
const FIRST: &str = r#"
put | var/pkg/image | image 1%0apublisher test%0a ->
put | var/pkg/installed | ->
put | var/pkg/avoid | ->
put | var/pkg/freeze | ->
put | var/pkg/mediators | ->
put | var/pkg/history | ->
dir | var/pkg/manifests ->
does | list -> 0 nothing
put | var/pkg/installed | a@1%0ab/c@2%0a ->
put | var/pkg/manifests/a | ->
put | var/pkg/manifests/b%2Fc | dir path=usr owner=root group=bin mode=0755%0a ->
run | -R i -s r list -> 0 "a@1\nb/c@2\n"
does | contents -m a -> 0 nothing
run | -R i -s r contents -m b/c -> 0 "dir group=bin mode=0755 owner=root path=usr\n"
# the names of packages
remove | var/pkg/installed ->
does | list -> 1 bad image var/pkg/installed line 0
dir | var/pkg/installed ->
does | list -> 1 bad image var/pkg/installed line 0
put | var/pkg/installed | a@1 ->
does | list -> 1 bad image var/pkg/installed line 1
put | var/pkg/installed | b@1%0aa@1%0a ->
does | list -> 1 bad image var/pkg/installed line 2
put | var/pkg/installed | a%0a ->
does | list -> 1 bad image var/pkg/installed line 1
put | var/pkg/installed | a@1%0aa@2%0a ->
does | list -> 1 bad image var/pkg/installed line 2
put | var/pkg/installed | a@1%0a%ff%0a ->
does | list -> 1 bad image var/pkg/installed line 2
# a manifest of each
put | var/pkg/installed | a@1%0a ->
remove | var/pkg/manifests/a ->
does | list -> 1 bad image var/pkg/manifests/a line 0
dir | var/pkg/manifests/a ->
does | list -> 1 bad image var/pkg/manifests/a line 0
put | var/pkg/manifests/a | # none%0abad%0a ->
does | list -> 1 bad image var/pkg/manifests/a line 2
put | var/pkg/manifests/a | set name=a value=b%0afrob a=b%0a ->
does | list -> 1 bad image var/pkg/manifests/a line 2
put | var/pkg/manifests/a | %ff%0a ->
does | list -> 1 bad image var/pkg/manifests/a line 1
put | var/pkg/manifests/a | set name=a value=b%0a# no action%0adir path=x mode=0755 owner=root group=bin%0a ->
run | -R i -s r contents -m a -> 0 "set name=a value=b\ndir group=bin mode=0755 owner=root path=x\n"
put | var/pkg/manifests/a | dir path=usr owner=root group=bin mode=0755 ->
run | -R i -s r contents -m a -> 0 "dir group=bin mode=0755 owner=root path=usr\n"
put | var/pkg/installed | a@1%0ab@1%0a ->
put | var/pkg/manifests/b | %0a%0adir%0a ->
does | list -> 1 bad image var/pkg/manifests/b line 3
# the lists are read between the names and the manifests
put | var/pkg/installed | a@1%0a ->
remove | var/pkg/manifests/a ->
remove | var/pkg/avoid ->
does | list -> 1 bad image var/pkg/avoid line 0
put | var/pkg/installed | a%0a ->
does | list -> 1 bad image var/pkg/installed line 1
put | var/pkg/installed | a@1%0a ->
put | var/pkg/avoid | ->
put | var/pkg/history | a%0a ->
does | list -> 1 bad image var/pkg/history line 1
# what the other format has isn't looked at
put | var/pkg/installed | ->
put | var/pkg/history | ->
put | var/pkg/packages/x | package 3%0a ->
does | list -> 0 nothing
"#;

// Packages in the second format: a folder of records.
const SECOND: &str = r#"
does | image-create -p test -> 0 done
does | list -> 0 nothing
put | var/pkg/packages/a | package 2%0aversion 1%0a ->
put | var/pkg/packages/b%2Fc | package 2%0aversion 2%0adir path=usr owner=root group=bin mode=0755%0a ->
run | -R i -s r list -> 0 "a@1\nb/c@2\n"
does | contents -m a -> 0 nothing
run | -R i -s r contents -m b/c -> 0 "dir group=bin mode=0755 owner=root path=usr\n"
# by their stems, and not by the names of the files
remove | var/pkg/packages/a ->
remove | var/pkg/packages/b%2Fc ->
put | var/pkg/packages/a%2Fb | package 2%0aversion 1%0a ->
put | var/pkg/packages/a-b | package 2%0aversion 2%0a ->
run | -R i -s r list -> 0 "a-b@2\na/b@1\n"
remove | var/pkg/packages/a%2Fb ->
remove | var/pkg/packages/a-b ->
# the text of a package
dir | var/pkg/packages/a ->
does | list -> 1 bad image var/pkg/packages/a line 0
put | var/pkg/packages/a | ->
does | list -> 1 bad image var/pkg/packages/a line 1
put | var/pkg/packages/a | package 2 ->
does | list -> 1 bad image var/pkg/packages/a line 1
put | var/pkg/packages/a | package 1%0aversion 1%0a ->
does | list -> 1 bad image var/pkg/packages/a line 1
put | var/pkg/packages/a | package 2%0a ->
does | list -> 1 bad image var/pkg/packages/a line 2
put | var/pkg/packages/a | package 2%0aversion 1 ->
does | list -> 1 bad image var/pkg/packages/a line 2
put | var/pkg/packages/a | package 2%0aversion -%0a ->
does | list -> 1 bad image var/pkg/packages/a line 2
put | var/pkg/packages/a | package 2%0aversion 01%0a ->
does | list -> 1 bad image var/pkg/packages/a line 2
put | var/pkg/packages/a | package 2%0aversion 1%0abad ->
does | list -> 1 bad image var/pkg/packages/a line 3
put | var/pkg/packages/a | package 2%0aversion 1%0adir path=usr owner=root group=bin mode=0755 ->
run | -R i -s r list -> 0 "a@1\n"
run | -R i -s r contents -m a -> 0 "dir group=bin mode=0755 owner=root path=usr\n"
put | var/pkg/packages/a | package 2%0aversion 1%0a%0a# none%0adir%0a ->
does | list -> 1 bad image var/pkg/packages/a line 5
# the names of their files
remove | var/pkg/packages/a ->
put | var/pkg/packages/A%2f | package 2%0aversion 1%0a ->
does | list -> 1 bad image var/pkg/packages/A%252f line 0
remove | var/pkg/packages/A%2f ->
put | var/pkg/packages/-a | package 2%0aversion 1%0a ->
does | list -> 1 bad image var/pkg/packages/-a line 0
remove | var/pkg/packages/-a ->
put | var/pkg/packages/a%2 | package 2%0aversion 1%0a ->
does | list -> 1 bad image var/pkg/packages/a%252 line 0
remove | var/pkg/packages/a%2 ->
put | var/pkg/packages/%61 | package 2%0aversion 1%0a ->
does | list -> 1 bad image var/pkg/packages/%2561 line 0
remove | var/pkg/packages/%61 ->
put | var/pkg/packages/a%FF | package 2%0aversion 1%0a ->
does | list -> 1 bad image var/pkg/packages/a%25FF line 0
remove | var/pkg/packages/a%FF ->
put | var/pkg/packages/a%2F | package 2%0aversion 1%0a ->
does | list -> 1 bad image var/pkg/packages/a%252F line 0
remove | var/pkg/packages/a%2F ->
# one behind the other, and before the lists
put | var/pkg/packages/a | package 2%0aversion 1%0a ->
put | var/pkg/packages/b | package 1%0a ->
does | list -> 1 bad image var/pkg/packages/b line 1
put | var/pkg/packages/a | package 1%0a ->
dir | var/pkg/packages/b ->
does | list -> 1 bad image var/pkg/packages/a line 1
remove | var/pkg/packages/b ->
remove | var/pkg/avoid ->
does | list -> 1 bad image var/pkg/packages/a line 1
# a folder that holds names that are no paths, one that isn't there, and something else than one
foreign | var/pkg/packages ->
does | list -> 1 bad image var/pkg/packages line 0
put | var/pkg/avoid | ->
remove | var/pkg/packages/a ->
does | list -> 1 bad image var/pkg/packages line 0
remove | var/pkg/packages ->
does | list -> 1 bad image var/pkg/packages line 0
remove | var/pkg/avoid ->
does | list -> 1 bad image var/pkg/packages line 0
put | var/pkg/avoid | ->
put | var/pkg/packages | text ->
does | list -> 1 bad image var/pkg/packages line 0
dir | var/pkg/packages ->
does | list -> 0 nothing
# what the other format has isn't looked at
put | var/pkg/installed | a%0a ->
put | var/pkg/manifests/x | bad%0a ->
does | list -> 0 nothing
foreign | var/pkg/manifests ->
does | list -> 0 nothing
"#;

// Records that are written.
const WRITTEN: &str = r#"
# the first format, which becomes the second; an index is made anew of what is installed
put | var/pkg/image | image 1%0apublisher test%0aactuator %252Fbin%252Fecho%0avariant arch i386%0afacet doc true%0a ->
put | var/pkg/installed | a@1%0aa-b@2%0aa/b@1.2,3-4:20240101T000000Z%0a ->
put | var/pkg/avoid | x%0ay/z%0a ->
put | var/pkg/freeze | a@1%0a ->
put | var/pkg/mediators | m 1 -%0a ->
put | var/pkg/history | 20240102T030405Z install a%0a ->
put | var/pkg/index | index 1%0a ->
put | var/pkg/manifests/a | ->
put | var/pkg/manifests/a%2Fb | dir group=bin mode=0755 owner=root path=usr%0a ->
put | var/pkg/manifests/a-b | ->
does | update-format -> 0 done
look | var/pkg/image -> file 644 "image 2\npublisher test\nactuator %2Fbin%2Fecho\nvariant arch i386\nfacet doc true\n"
look | var/pkg/packages/a -> file 644 "package 2\nversion 1\n"
look | var/pkg/packages/a%2Fb -> file 644 "package 2\nversion 1.2,3-4:20240101T000000Z\ndir group=bin mode=0755 owner=root path=usr\n"
look | var/pkg/packages/a-b -> file 644 "package 2\nversion 2\n"
look | var/pkg/avoid -> file 644 "x\ny/z\n"
look | var/pkg/freeze -> file 644 "a@1\n"
look | var/pkg/mediators -> file 644 "m 1 -\n"
look | var/pkg/history -> file 644 "20240102T030405Z install a\n20240102T030405Z update-format\n"
look | var/pkg/index -> file 644 "index 1\nusr path dir usr a/b\n"
run | -R i -s r list -> 0 "a@1\na-b@2\na/b@1.2,3-4:20240101T000000Z\n"
# the second format: each command writes its record and the history, and keeps what else stands in them
remove | var ->
does | image-create -p test -> 0 done
put | var/pkg/image | image 2%0apublisher test%0aorigin b free%0aorigin test sticky%0aactuator %252Fbin%252Fecho%0avariant arch i386%0afacet doc true%0afacet locale.%252A false%0a ->
put | var/pkg/avoid | x%0ay/z%0a ->
put | var/pkg/freeze | a@1%0a ->
put | var/pkg/mediators | m 1 -%0an - x%0a ->
put | var/pkg/history | 20240102T030405Z install a%0a20240102T030406Z update%0a ->
put | var/pkg/index | index 1%0ax path file x a%0a ->
put | var/pkg/packages/a | package 2%0aversion 1%0a ->
put | var/pkg/packages/a%2Fb | package 2%0aversion 1.2,3-4:20240101T000000Z%0adir group=bin mode=0755 owner=root path=usr%0a ->
put | var/pkg/packages/a-b | package 2%0aversion 2%0a ->
run | -R i -s r list -> 0 "a@1\na-b@2\na/b@1.2,3-4:20240101T000000Z\n"
run | -R i -s r history -> 0 "20240102T030405Z install a\n20240102T030406Z update\n"
run | -R i -s r search x -> 0 "path file a x\n"
does | rebuild-index -> 0 done
look | var/pkg/index -> file 644 "index 1\nusr path dir usr a/b\n"
run | -R i -s r search usr -> 0 "path dir a/b usr\n"
does | avoid zz -> 0 done
does | freeze z@1 -> 0 done
does | set-mediator -I y z -> 0 done
does | change-facet facet.z=true -> 0 done
look | var/pkg/image -> file 644 "image 2\npublisher test\norigin b free\norigin test sticky\nactuator %2Fbin%2Fecho\nvariant arch i386\nfacet doc true\nfacet facet.z true\nfacet locale.%2A false\n"
look | var/pkg/avoid -> file 644 "x\ny/z\nzz\n"
look | var/pkg/freeze -> file 644 "a@1\nz@1\n"
look | var/pkg/mediators -> file 644 "m 1 -\nn - x\nz - y\n"
look | var/pkg/history -> file 644 "20240102T030405Z install a\n20240102T030406Z update\n20240102T030405Z rebuild-index\n20240102T030405Z avoid zz\n20240102T030405Z freeze z%401\n20240102T030405Z set-mediator -I y z\n20240102T030405Z change-facet facet.z%3Dtrue\n"
look | var/pkg/index -> file 644 "index 1\nusr path dir usr a/b\n"
does | rebuild-index -> 4 nothing to do
run | -R i -s r list -> 0 "a@1\na-b@2\na/b@1.2,3-4:20240101T000000Z\n"
# any number of requests is read, and a thousand are kept
put | var/pkg/history | 20230101T000000Z one%0a(20240102T030405Z install hello%0a*998) ->
does | unavoid zz -> 0 done
look | var/pkg/history -> file 644 "20230101T000000Z one\n(20240102T030405Z install hello\n*998)20240102T030405Z unavoid zz\n"
put | var/pkg/history | 20230101T000000Z one%0a20230101T000001Z two%0a(20240102T030405Z install hello%0a*999) ->
does | list -> 0 a/b@1.2,3-4:20240101T000000Z
does | avoid zz -> 0 done
look | var/pkg/history -> file 644 "(20240102T030405Z install hello\n*999)20240102T030405Z avoid zz\n"
"#;

// Each call that is made fails in its turn, and there is none behind them.
const FAULTS: &str = r#"
put | var/pkg/image | image 1%0apublisher test%0a ->
put | var/pkg/installed | ->
put | var/pkg/avoid | ->
put | var/pkg/freeze | ->
put | var/pkg/mediators | ->
put | var/pkg/history | ->
dir | var/pkg/manifests ->
put | var/pkg/installed | a@1%0a ->
put | var/pkg/manifests/a | # none%0a ->
with | -R i -s r list | folder 1 -> 1 "folder fault: unchanged\n"
with | -R i -s r list | folder 2 -> 1 "folder fault: unchanged\n"
with | -R i -s r list | folder 3 -> 1 "folder fault: unchanged\n"
with | -R i -s r list | folder 4 -> 1 "folder fault: unchanged\n"
with | -R i -s r list | folder 5 -> 1 "folder fault: unchanged\n"
with | -R i -s r list | folder 6 -> 1 "folder fault: unchanged\n"
with | -R i -s r list | folder 7 -> 1 "folder fault: unchanged\n"
with | -R i -s r list | folder 8 -> 1 "folder fault: unchanged\n"
with | -R i -s r list | folder 9 -> 1 "folder fault: unchanged\n"
with | -R i -s r list | folder 10 -> 1 "folder fault: unchanged\n"
with | -R i -s r list | folder 11 -> 1 "folder fault: unchanged\n"
with | -R i -s r list | folder 12 -> 1 "folder fault: unchanged\n"
with | -R i -s r list | folder 13 -> 1 "folder fault: unchanged\n"
with | -R i -s r list | folder 14 -> 1 "folder fault: unchanged\n"
with | -R i -s r list | folder 15 -> 1 "folder fault: unchanged\n"
with | -R i -s r list | folder 16 -> 1 "folder fault: unchanged\n"
with | -R i -s r list | folder 17 -> 1 "folder fault: unchanged\n"
with | -R i -s r list | folder 18 -> 1 "folder fault: unchanged\n"
with | -R i -s r list | folder 19 -> 0 "a@1\n"
remove | var ->
does | image-create -p test -> 0 done
put | var/pkg/history | ->
put | var/pkg/packages/a | package 2%0aversion 1%0a ->
with | -R i -s r list | folder 1 -> 1 "folder fault: unchanged\n"
with | -R i -s r list | folder 2 -> 1 "folder fault: unchanged\n"
with | -R i -s r list | folder 3 -> 1 "folder fault: unchanged\n"
with | -R i -s r list | folder 4 -> 1 "folder fault: unchanged\n"
with | -R i -s r list | folder 5 -> 1 "folder fault: unchanged\n"
with | -R i -s r list | folder 6 -> 1 "folder fault: unchanged\n"
with | -R i -s r list | folder 7 -> 1 "folder fault: unchanged\n"
with | -R i -s r list | folder 8 -> 1 "folder fault: unchanged\n"
with | -R i -s r list | folder 9 -> 1 "folder fault: unchanged\n"
with | -R i -s r list | folder 10 -> 1 "folder fault: unchanged\n"
with | -R i -s r list | folder 11 -> 1 "folder fault: unchanged\n"
with | -R i -s r list | folder 12 -> 1 "folder fault: unchanged\n"
with | -R i -s r list | folder 13 -> 1 "folder fault: unchanged\n"
with | -R i -s r list | folder 14 -> 1 "folder fault: unchanged\n"
with | -R i -s r list | folder 15 -> 1 "folder fault: unchanged\n"
with | -R i -s r list | folder 16 -> 1 "folder fault: unchanged\n"
with | -R i -s r list | folder 17 -> 1 "folder fault: unchanged\n"
with | -R i -s r list | folder 18 -> 1 "folder fault: unchanged\n"
with | -R i -s r list | folder 19 -> 0 "a@1\n"
# a search reads the file `image` and the index
put | var/pkg/index | index 1%0ax path file x a%0a ->
with | -R i -s r search x | folder 1 -> 1 "folder fault: unchanged\n"
with | -R i -s r search x | folder 2 -> 1 "folder fault: unchanged\n"
with | -R i -s r search x | folder 3 -> 1 "folder fault: unchanged\n"
with | -R i -s r search x | folder 4 -> 1 "folder fault: unchanged\n"
with | -R i -s r search x | folder 5 -> 1 "folder fault: unchanged\n"
with | -R i -s r search x | folder 6 -> 1 "folder fault: unchanged\n"
with | -R i -s r search x | folder 7 -> 1 "folder fault: unchanged\n"
with | -R i -s r search x | folder 8 -> 1 "folder fault: unchanged\n"
with | -R i -s r search x | folder 9 -> 1 "folder fault: unchanged\n"
with | -R i -s r search x | folder 10 -> 1 "folder fault: unchanged\n"
with | -R i -s r search x | folder 11 -> 1 "folder fault: unchanged\n"
with | -R i -s r search x | folder 12 -> 1 "folder fault: unchanged\n"
with | -R i -s r search x | folder 13 -> 0 "path file a x\n"
"#;

#[test]
fn each_record_is_read_and_written(rt: HostRuntime) {
    let alloc = rt.alloc();
    for (count, table) in [
        (131u32, IMAGE),
        (60u32, FIRST),
        (84u32, SECOND),
        (57u32, WRITTEN),
        (65u32, FAULTS),
    ] {
        let mut world = World::new(alloc, bare(&rt, alloc));
        let rows = rows_told(&rt, alloc, &mut world, table);
        assert!(rt; rows == count, "{rows} rows in place of {count}");
    }
}
