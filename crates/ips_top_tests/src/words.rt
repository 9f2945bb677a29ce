//! Words that are understood and words at fault, the help, and reports as a whole.

use crate::packages::bare;
use crate::runs::rows_told;
use crate::world::World;

// A word at fault is told by its place. The image holds nothing.
const FAULTS: &str = r#"
# the leading words
run | -R -> 2 "usage: word 1: missing\n"
run | -R i -> 2 "usage: word 2: missing\n"
run | -R i r -> 2 "usage: word 2: unknown\n"
run | -R i -s -> 2 "usage: word 3: missing\n"
run | -R i -s r -> 2 "usage: word 4: missing\n"
run | -R i -s r --help -> 2 "usage: word 4: unknown\n"
run | -s r -R i fix -> 2 "usage: word 0: unknown\n"
run | frob -> 2 "usage: word 0: unknown\n"
run | --help fix -> 2 "usage: word 1: extra\n"
run | --version --version -> 2 "usage: word 1: extra\n"
run | fix -> 2 "usage: word 1: missing\n"
run | fix fix -> 2 "usage: word 1: unknown\n"
run | fix --help x -> 2 "usage: word 2: extra\n"
run | --Help -> 2 "usage: word 0: unknown\n"
run | -R i -s r install entire@1 r/inc@1 --accept -> 2 "usage: word 7: unknown\n"
# each place of `install --search-limit 5 --accept a b`
does | install --search-limit -> 2 usage: word 6: missing
does | install --search-limit 0 a -> 2 usage: word 6: bad value
does | install --search-limit 05 a -> 2 usage: word 6: bad value
does | install --search-limit 18446744073709551616 a -> 2 usage: word 6: bad value
does | install --search-limit x a -> 2 usage: word 6: bad value
does | install --search-limit 5 -> 2 usage: word 7: missing
does | install --search-limit 5 --frob a -> 2 usage: word 7: unknown
does | install --search-limit 5 @1 -> 2 usage: word 7: bad value
does | install --search-limit 5 --search-limit 6 a -> 2 usage: word 7: repeated
does | install --search-limit 5 --accept -> 2 usage: word 8: missing
does | install --search-limit 5 --accept --accept a -> 2 usage: word 8: repeated
does | install --search-limit 5 --accept --frob a -> 2 usage: word 8: unknown
does | install --search-limit 5 --accept @1 -> 2 usage: word 8: bad value
does | install --search-limit 5 --accept a -x -> 2 usage: word 9: unknown
does | install --search-limit 5 --accept a b@ -> 2 usage: word 9: bad value
does | install --search-limit 5 --accept a b -c -> 2 usage: word 10: unknown
does | install --search-limit 5 --accept a b c@ -> 2 usage: word 10: bad value
does | install --reject -> 2 usage: word 6: missing
does | install --reject @ a -> 2 usage: word 6: bad value
does | install -p x a -> 2 usage: word 5: unknown
does | install - -> 2 usage: word 5: unknown
does | install @1 -> 2 usage: word 5: bad value
# each place of `image-create -p test --variant variant.a=b`
does | image-create -> 2 usage: word 5: missing
does | image-create x -> 2 usage: word 5: unknown
does | image-create --accept -> 2 usage: word 5: unknown
does | image-create --variant -> 2 usage: word 6: missing
does | image-create --variant variant.a -> 2 usage: word 6: bad value
does | image-create --variant variant.=b -> 2 usage: word 6: bad value
does | image-create --variant variant.a= -> 2 usage: word 6: bad value
does | image-create --variant variant.a=b -> 2 usage: word 7: missing
does | image-create --variant variant.a=b x -> 2 usage: word 7: unknown
does | image-create -p -> 2 usage: word 6: missing
does | image-create -p -x -> 2 usage: word 6: bad value
does | image-create -p (a*256) -> 2 usage: word 6: bad value
does | image-create -p test -p test -> 2 usage: word 7: repeated
does | image-create -p test x -> 2 usage: word 7: extra
does | image-create -p test -x -> 2 usage: word 7: unknown
does | image-create -p test --variant -> 2 usage: word 8: missing
does | image-create -p test --variant variant.a -> 2 usage: word 8: bad value
does | image-create -p test --variant variant.a=b x -> 2 usage: word 9: extra
does | image-create -p test --variant variant.a=b --frob -> 2 usage: word 9: unknown
does | image-create -p test --variant variant.a=b -p t -> 2 usage: word 9: repeated
does | image-create -p test --facet facet.a=none -> 2 usage: word 8: bad value
does | image-create -p test --facet facet.=true -> 2 usage: word 8: bad value
does | image-create -p test --facet a=true -> 2 usage: word 8: bad value
does | image-create -p test --actuator x --actuator y -> 2 usage: word 9: repeated
does | image-create -p test --actuator <empty> -> 2 usage: word 8: bad value
# each place of `set-mediator -V 1 -I x python`
does | set-mediator -> 2 usage: word 5: missing
does | set-mediator python -> 2 usage: word 5: unknown
does | set-mediator -V -> 2 usage: word 6: missing
does | set-mediator -V 1,2 python -> 2 usage: word 6: bad value
does | set-mediator -V 1-2 python -> 2 usage: word 6: bad value
does | set-mediator -V 01 python -> 2 usage: word 6: bad value
does | set-mediator -V <empty> python -> 2 usage: word 6: bad value
does | set-mediator -V 1 -> 2 usage: word 7: missing
does | set-mediator -V 1 -V 2 python -> 2 usage: word 7: repeated
does | set-mediator -V 1 --accept -> 2 usage: word 7: unknown
does | set-mediator -V 1 <empty> -> 2 usage: word 7: bad value
does | set-mediator -V 1 python perl -> 2 usage: word 8: extra
does | set-mediator -V 1 -I -> 2 usage: word 8: missing
does | set-mediator -V 1 -I - python -> 2 usage: word 8: bad value
does | set-mediator -V 1 -I <empty> python -> 2 usage: word 8: bad value
does | set-mediator -V 1 -I x -> 2 usage: word 9: missing
does | set-mediator -V 1 -I x <empty> -> 2 usage: word 9: bad value
does | unset-mediator <empty> -> 2 usage: word 5: bad value
does | set-mediator -V 1 -I x --accept -> 2 usage: word 9: unknown
does | set-mediator -V 1 -I x -I y python -> 2 usage: word 9: repeated
does | set-mediator -V 1 -I x python perl -> 2 usage: word 10: extra
does | set-mediator -V 1 -I x python -V -> 2 usage: word 10: extra
# operands that set one name
does | change-facet facet.a=true facet.a=false -> 2 usage: word 6: repeated
does | freeze x@1 y@1 x@2 -> 2 usage: word 7: repeated
# operands of other forms
does | freeze x -> 2 usage: word 5: bad value
does | freeze pkg:/x@1 -> 2 usage: word 5: bad value
does | freeze pkg://p/x@1 -> 2 usage: word 5: bad value
does | avoid x@1 -> 2 usage: word 5: bad value
does | avoid pkg:/x -> 2 usage: word 5: bad value
does | avoid a* -> 2 usage: word 5: bad value
does | gen 0 -> 2 usage: word 5: bad value
does | gen 2001 -> 2 usage: word 5: bad value
does | gen 1 1 -> 2 usage: word 6: extra
does | contents a b -> 2 usage: word 6: extra
does | contents a -m -> 2 usage: word 6: extra
does | fix x -> 2 usage: word 5: extra
does | fix -x -> 2 usage: word 5: unknown
does | set-publisher --sticky --non-sticky b -> 2 usage: word 6: repeated
does | set-publisher (a*256) -> 2 usage: word 5: bad value
"#;

// Words that are understood: what they set is seen in the records.
const UNDERSTOOD: &str = r#"
# any word may follow a leading one; what needs no image
does | image-create -p test --actuator -x -> 0 done
run | -R -s -s -R fix -> 4 "nothing to do\n"
run | --version -> 0 "pkg 0.1\n"
does | gen 1 -> 0 gen 1: packages 2, steps 7, findings 0
# the value of an option may begin with a dash
look | var/pkg/image -> file 644 "image 2\npublisher test\nactuator -x\n"
# of two options of one name the second is kept
begin ->
does | image-create -p t --facet facet.a=true --facet facet.a=false -> 0 done
look | var/pkg/image -> file 644 "image 2\npublisher t\nfacet facet.a false\n"
begin ->
does | image-create --variant variant.b=1 --variant variant.a=2 -p t -> 0 done
look | var/pkg/image -> file 644 "image 2\npublisher t\nvariant variant.a 2\nvariant variant.b 1\n"
begin ->
does | image-create -p t --facet facet.*=FaLsE -> 0 done
look | var/pkg/image -> file 644 "image 2\npublisher t\nfacet facet.%2A false\n"
begin ->
does | image-create -p (a*255) -> 0 done
look | var/pkg/image -> file 644 "image 2\npublisher (a*255)\n"
# facets in any case of letters, variants, mediators and publishers
begin ->
does | image-create -p test -> 0 done
does | change-facet facet.a=TRUE facet.b=False facet.c=nONe -> 0 done
look | var/pkg/image -> file 644 "image 2\npublisher test\nfacet facet.a true\nfacet facet.b false\n"
does | change-facet facet.a=true facet.b=none -> 0 done
look | var/pkg/image -> file 644 "image 2\npublisher test\nfacet facet.a true\n"
does | change-facet --accept facet.a=none -> 0 done
look | var/pkg/image -> file 644 "image 2\npublisher test\n"
does | change-variant variant.arch=i386 -> 0 done
does | change-variant variant.a=b=c -> 0 done
look | var/pkg/image -> file 644 "image 2\npublisher test\nvariant variant.a b%3Dc\nvariant variant.arch i386\n"
does | change-variant --accept variant.a=b -> 0 done
look | var/pkg/image -> file 644 "image 2\npublisher test\nvariant variant.a b\nvariant variant.arch i386\n"
does | set-mediator -V 3.9 python -> 0 done
look | var/pkg/mediators -> file 644 "python 3.9 -\n"
does | set-mediator -I gnu python -> 0 done
look | var/pkg/mediators -> file 644 "python - gnu\n"
does | unset-mediator python -> 0 done
look | var/pkg/mediators -> file 644 ""
does | set-publisher b -> 0 done
look | var/pkg/image -> file 644 "image 2\npublisher test\norigin test sticky\norigin b sticky\nvariant variant.a b\nvariant variant.arch i386\n"
does | set-publisher --non-sticky b -> 0 done
look | var/pkg/image -> file 644 "image 2\npublisher test\norigin test sticky\norigin b free\nvariant variant.a b\nvariant variant.arch i386\n"
does | set-publisher --search-first --sticky b -> 0 done
look | var/pkg/image -> file 644 "image 2\npublisher test\norigin b sticky\norigin test sticky\nvariant variant.a b\nvariant variant.arch i386\n"
does | unset-publisher b -> 0 done
look | var/pkg/image -> file 644 "image 2\npublisher test\norigin test sticky\nvariant variant.a b\nvariant variant.arch i386\n"
# stems and freezes
does | avoid x x -> 0 done
look | var/pkg/avoid -> file 644 "x\n"
does | avoid a/b -> 0 done
look | var/pkg/avoid -> file 644 "a/b\nx\n"
does | unavoid a/b -> 0 done
look | var/pkg/avoid -> file 644 "x\n"
does | freeze x@1 y@2-1 -> 0 done
look | var/pkg/freeze -> file 644 "x@1\ny@2-1\n"
does | unfreeze x -> 0 done
look | var/pkg/freeze -> file 644 "y@2-1\n"
does | list -> 0 nothing
does | verify -> 0 ok
does | fix -> 4 nothing to do
does | rebuild-index -> 0 done
does | update-format -> 4 nothing to do
# the history quotes the words from the command on; what is no command isn't in it
does | frob -> 2 usage: word 4: unknown
run | -R i -s r history -> 0 "20240102T030405Z image-create -p test\n20240102T030405Z change-facet facet.a%3DTRUE facet.b%3DFalse facet.c%3DnONe\n20240102T030405Z change-facet facet.a%3Dtrue facet.b%3Dnone\n20240102T030405Z change-facet --accept facet.a%3Dnone\n20240102T030405Z change-variant variant.arch%3Di386\n20240102T030405Z change-variant variant.a%3Db%3Dc\n20240102T030405Z change-variant --accept variant.a%3Db\n20240102T030405Z set-mediator -V 3.9 python\n20240102T030405Z set-mediator -I gnu python\n20240102T030405Z unset-mediator python\n20240102T030405Z set-publisher b\n20240102T030405Z set-publisher --non-sticky b\n20240102T030405Z set-publisher --search-first --sticky b\n20240102T030405Z unset-publisher b\n20240102T030405Z avoid x x\n20240102T030405Z avoid a%2Fb\n20240102T030405Z unavoid a%2Fb\n20240102T030405Z freeze x%401 y%402-1\n20240102T030405Z unfreeze x\n20240102T030405Z rebuild-index\n"
"#;

// Words of packages, with their options.
const PACKAGES: &str = r#"
# packages, where one has a license that must be accepted
does | image-create -p test -> 0 done
package | entire@1 | license $abc license=L must-accept=true ->
package | entire@2 | set name=info value=x ->
package | r/inc@1 | set name=info value=x ->
package | r/inc@2 | set name=info value=x ->
package | inc@1 | file $abc path=bash $file ->
package | h@1%2C5.11-1 | set name=info value=x ->
catalog | entire 1 2; r/inc 1 2; inc 1; h 1,5.11-1 ->
does | install entire@1 r/inc@1 -> 6 license needed: entire L
does | install --accept entire@1 r/inc@1 -> 0 done
does | install --accept pkg:/h@1,5.11-1 -> 0 done
does | install pkg:/inc -> 0 done
run | -R i -s r list -> 0 "entire@1\nh@1,5.11-1\ninc@1\nr/inc@1\n"
run | -R i -s r contents -m entire -> 0 "license a9993e364706816aba3e25717850c26c9cd0d89d license=L must-accept=true\n"
run | -R i -s r contents -m ent* -> 0 "license a9993e364706816aba3e25717850c26c9cd0d89d license=L must-accept=true\n"
run | -R i -s r contents pkg:/inc -> 0 "bash\n"
does | rebuild-index -> 0 done
run | -R i -s r search *sh -> 0 "path file inc bash\n"
does | update entire */inc -> 0 done
run | -R i -s r list -> 0 "entire@2\nh@1,5.11-1\ninc@1\nr/inc@2\n"
does | uninstall pkg:/inc -> 0 done
run | -R i -s r list -> 0 "entire@2\nh@1,5.11-1\nr/inc@2\n"
does | uninstall entire inc -> 0 done
does | install --accept entire@1 -> 0 done
does | install r/inc@1 -> 0 done
does | update */inc -> 0 done
run | -R i -s r list -> 0 "entire@1\nh@1,5.11-1\nr/inc@2\n"
does | update -> 0 done
run | -R i -s r list -> 0 "entire@2\nh@1,5.11-1\nr/inc@2\n"
run | -R i -s r history -> 0 "20240102T030405Z image-create -p test\n20240102T030405Z install --accept entire%401 r%2Finc%401\n20240102T030405Z install --accept pkg%3A%2Fh%401%2C5.11-1\n20240102T030405Z install pkg%3A%2Finc\n20240102T030405Z rebuild-index\n20240102T030405Z update entire %2A%2Finc\n20240102T030405Z uninstall pkg%3A%2Finc\n20240102T030405Z uninstall entire inc\n20240102T030405Z install --accept entire%401\n20240102T030405Z install r%2Finc%401\n20240102T030405Z update %2A%2Finc\n20240102T030405Z update\n"
# what is rejected isn't chosen, whatever its version, and a limit is a number
package | c@1 | depend fmri=a fmri=b fmri=d type=require-any ->
package | a@1 | set name=info value=x ->
package | b@1 | set name=info value=x ->
package | b@2 | set name=info value=x ->
package | d@1 | set name=info value=x ->
catalog | c 1; a 1; b 1 2; d 1 ->
does | install --search-limit 1 --reject d --reject b@2 c -> 1 search limit 1 spent
does | install --search-limit 18446744073709551615 --reject d --reject b@2 c -> 0 done
run | -R i -s r list -> 0 "a@1\nc@1\nentire@2\nh@1,5.11-1\nr/inc@2\n"
does | uninstall c a -> 0 done
does | install --search-limit 18446744073709551615 c -> 0 done
run | -R i -s r list -> 0 "c@1\nd@1\nentire@2\nh@1,5.11-1\nr/inc@2\n"
"#;

// The same options in other orders do the same.
const ORDERS: &str = r#"
# options stand before operands, in any order
does | image-create -p test --variant variant.a=b --facet facet.c=true --actuator /bin/x -> 0 done
look | var/pkg/image -> file 644 "image 2\npublisher test\nactuator %2Fbin%2Fx\nvariant variant.a b\nfacet facet.c true\n"
begin ->
does | image-create --variant variant.a=b -p test --facet facet.c=true --actuator /bin/x -> 0 done
look | var/pkg/image -> file 644 "image 2\npublisher test\nactuator %2Fbin%2Fx\nvariant variant.a b\nfacet facet.c true\n"
begin ->
does | image-create --facet facet.c=true --actuator /bin/x -p test --variant variant.a=b -> 0 done
look | var/pkg/image -> file 644 "image 2\npublisher test\nactuator %2Fbin%2Fx\nvariant variant.a b\nfacet facet.c true\n"
begin ->
does | image-create --actuator /bin/x --variant variant.a=b --facet facet.c=true -p test -> 0 done
look | var/pkg/image -> file 644 "image 2\npublisher test\nactuator %2Fbin%2Fx\nvariant variant.a b\nfacet facet.c true\n"
begin ->
does | image-create -p test -> 0 done
package | a@1 | set name=info value=x ->
package | a@2 | license $abc license=L must-accept=true; depend fmri=w fmri=x type=require-any ->
package | b@1 | set name=info value=x ->
package | w@1 | set name=info value=x ->
package | x@1 | set name=info value=x ->
catalog | a 1 2; b 1; w 1; x 1 ->
does | install --search-limit 7 --reject x a b -> 6 license needed: a L
does | install --accept --reject x --search-limit 7 a b -> 0 done
run | -R i -s r list -> 0 "a@2\nb@1\nw@1\n"
does | uninstall --search-limit 7 a b w -> 0 done
does | install --accept --search-limit 7 --reject x a b -> 0 done
run | -R i -s r list -> 0 "a@2\nb@1\nw@1\n"
does | uninstall --search-limit 7 a b w -> 0 done
does | install --reject x --accept --search-limit 7 a b -> 0 done
run | -R i -s r list -> 0 "a@2\nb@1\nw@1\n"
does | uninstall --search-limit 7 a b w -> 0 done
does | install --reject x --search-limit 7 --accept a b -> 0 done
run | -R i -s r list -> 0 "a@2\nb@1\nw@1\n"
does | uninstall --search-limit 7 a b w -> 0 done
does | install --search-limit 7 --accept --reject x a b -> 0 done
run | -R i -s r list -> 0 "a@2\nb@1\nw@1\n"
does | uninstall --search-limit 7 a b w -> 0 done
does | install --search-limit 7 --reject x --accept a b -> 0 done
run | -R i -s r list -> 0 "a@2\nb@1\nw@1\n"
does | uninstall --search-limit 7 a b w -> 0 done
does | install a@1 -> 0 done
does | update --accept --reject x --search-limit 7 a -> 0 done
run | -R i -s r list -> 0 "a@2\nw@1\n"
does | uninstall --search-limit 7 a w -> 0 done
does | install a@1 -> 0 done
does | update --accept --search-limit 7 --reject x a -> 0 done
run | -R i -s r list -> 0 "a@2\nw@1\n"
does | uninstall --search-limit 7 a w -> 0 done
does | install a@1 -> 0 done
does | update --reject x --accept --search-limit 7 a -> 0 done
run | -R i -s r list -> 0 "a@2\nw@1\n"
does | uninstall --search-limit 7 a w -> 0 done
does | install a@1 -> 0 done
does | update --reject x --search-limit 7 --accept a -> 0 done
run | -R i -s r list -> 0 "a@2\nw@1\n"
does | uninstall --search-limit 7 a w -> 0 done
does | install a@1 -> 0 done
does | update --search-limit 7 --accept --reject x a -> 0 done
run | -R i -s r list -> 0 "a@2\nw@1\n"
does | uninstall --search-limit 7 a w -> 0 done
does | install a@1 -> 0 done
does | update --search-limit 7 --reject x --accept a -> 0 done
run | -R i -s r list -> 0 "a@2\nw@1\n"
does | uninstall --search-limit 7 a w -> 0 done
does | set-mediator -V 1.2 -I gnu python -> 0 done
look | var/pkg/mediators -> file 644 "python 1.2 gnu\n"
does | unset-mediator python -> 0 done
does | set-mediator -I gnu -V 1.2 python -> 0 done
look | var/pkg/mediators -> file 644 "python 1.2 gnu\n"
does | set-publisher --search-first --non-sticky b -> 0 done
look | var/pkg/image -> file 644 "image 2\npublisher test\norigin b free\norigin test sticky\n"
does | unset-publisher b -> 0 done
does | set-publisher --non-sticky --search-first b -> 0 done
look | var/pkg/image -> file 644 "image 2\npublisher test\norigin b free\norigin test sticky\n"
does | unset-publisher b -> 0 done
does | set-publisher --sticky --search-first b -> 0 done
look | var/pkg/image -> file 644 "image 2\npublisher test\norigin b sticky\norigin test sticky\n"
does | unset-publisher b -> 0 done
does | set-publisher --search-first --sticky b -> 0 done
look | var/pkg/image -> file 644 "image 2\npublisher test\norigin b sticky\norigin test sticky\n"
does | unset-publisher b -> 0 done
"#;

// The help of a command and the whole.
const HELP: &str = r#"
run | image-create --help -> 0 "usage: pkg -R <image> -s <repository> <command>\n       pkg --help | --version | <command> --help\n  image-create -p <publisher> [--variant variant.<name>=<value>].. [--facet facet.<name>=true|false].. [--actuator <name>]\n      make an image\nexit status: 0 done, 1 refused, failed or damaged, 2 bad words, 4 nothing to do, 6 license needed, 7 another pkg at work, 99 out of memory\n"
run | fix --help -> 0 "usage: pkg -R <image> -s <repository> <command>\n       pkg --help | --version | <command> --help\n  fix\n      finish a change that was stopped; where none was, repair what verify finds\nexit status: 0 done, 1 refused, failed or damaged, 2 bad words, 4 nothing to do, 6 license needed, 7 another pkg at work, 99 out of memory\n"
run | --help -> 0 "usage: pkg -R <image> -s <repository> <command>\n       pkg --help | --version | <command> --help\n  image-create -p <publisher> [--variant variant.<name>=<value>].. [--facet facet.<name>=true|false].. [--actuator <name>]\n      make an image\n  install [--accept] [--reject <pattern>].. [--search-limit <number>] <pattern> ...\n      install packages, or newer versions of them\n  update [--accept] [--reject <pattern>].. [--search-limit <number>] [ <pattern> ]...\n      update packages, all of them where none is named\n  uninstall [--search-limit <number>] <pattern> ...\n      remove packages\n  fix\n      finish a change that was stopped; where none was, repair what verify finds\n  verify\n      tell what differs from the packages\n  list\n      show the installed packages\n  contents [-m] <pattern>\n      show the paths that an installed package delivers; -m shows its manifest\n  history\n      show which commands changed the image\n  search <word>\n      show where a word stands in the installed packages; * and ? are wildcards\n  rebuild-index\n      make the index that search reads\n  change-facet [--accept] facet.<name>=true|false|none ...\n      set facets, or take their settings away\n  change-variant [--accept] variant.<name>=<value>\n      set a variant\n  set-mediator [-V <version>] [-I <text>] <name>\n      choose among mediated links by -V, by -I or by both: one has to stand\n  unset-mediator <name>\n      leave the choice among mediated links to the packages\n  avoid <stem> ...\n      keep group dependencies from installing these packages\n  unavoid <stem> ...\n      take packages from the avoid list\n  freeze <stem>@<version> ...\n      keep packages at versions\n  unfreeze <stem> ...\n      let frozen packages go\n  set-publisher [--search-first] [--sticky | --non-sticky] <publisher>\n      put a publisher into the list, or change its place and stickiness; packages come from the image's own alone\n  unset-publisher <publisher>\n      take a publisher from the list\n  update-format\n      move the image's records to the present format\n  gen <number>\n      try the program on a repository of so many packages, in memory\n  mogrify -d <folder> <rules> <manifest>\n      print what the rules make of the manifest, both files of the folder; these words stand alone, without -R and -s\n  send -s <repository> -d <folder> create <publisher>\n      make a repository of the publisher, without packages\n  send -s <repository> -d <folder> publish <name> <manifest>\n      publish the version that the name tells; its manifest and contents are in the folder; these words stand in just this order, without -R\nexit status: 0 done, 1 refused, failed or damaged, 2 bad words, 4 nothing to do, 6 license needed, 7 another pkg at work, 99 out of memory\n"
"#;

// Whole reports.
const REPORTS: &str = r#"
# what stands in the way of a command
does | image-create -p test -> 0 done
package | p@1 | depend type=frob fmri=x ->
catalog | p 1; x/a 1; y/a 1 ->
run | -R i -s r install a -> 1 "ambiguous a: x/a y/a\n"
run | -R i -s r install b* -> 1 "no match b*\n"
run | -R i -s r install p -> 1 "bad depend p@1 line 1\n"
stock | publisher/test/catalog/catalog.base.C | {"test": ->
run | -R i -s r install p -> 1 "bad catalog\n"
crowd | 20001 ->
run | -R i -s r install p -> 1 "too large: 20001\n"
lose | pkg5.repository ->
run | -R i -s r install p -> 1 "no repository\n"
stock | pkg5.repository | [repository]%0aversion = 4%0a ->
catalog | p 1; q 1 ->
package | p@1 | user username=p1 group=bin uid=70 ->
put | etc/passwd | a:b%0a ->
run | -R i -s r install p -> 1 "bad account line passwd 1\n"
remove | etc ->
# each license that is needed
package | p@1 | license $abc license=CDDL must-accept=true; license $none license=MIT must-accept=true ->
run | -R i -s r install p -> 6 "license needed: p CDDL\nlicense needed: p MIT\n"
# what was tried, absence among it
package | q@1 | set name=info value=x ->
package | p@1 | depend fmri=q type=require; depend fmri=q type=exclude ->
run | -R i -s r install p -> 1 "no solution\nstem 0 p 1\nstem 1 q - 1\nrefutation 2\n0.0 | 1 | t0 t1\n- | 0 | n0\n"
# blanks of paths are quoted
package | p@1 | file $abc path="a b" $file ->
other | a b ->
run | -R i -s r install p -> 1 "unmovable a%20b\n"
remove | a b ->
package | p@1 | dir path="a b" group=bin mode=0755 owner=nobody9 ->
run | -R i -s r install p -> 1 "unknown owner nobody9 of a%20b\n"
package | p@1 | dir path="var/pkg/a b" $dir ->
run | -R i -s r install p -> 1 "reserved var/pkg/a%20b\n"
put | var/pkg/packages/a b | x ->
run | -R i -s r list -> 1 "bad image var/pkg/packages/a%20b line 0\n"
remove | var/pkg/packages/a b ->
# each sort of damage
package | p@1 | file $abc path="m i" $file; dir path="w k" $dir; file $abc path="w c" $file; file $abc path="w m" $file; link path="w t" target=x; file $abc path="s a" $file; hardlink path="n s" target="s a" ->
does | install p -> 0 done
remove | m i ->
put | w k | x ->
put | w c | x ->
mode | w m | 600 ->
link | w t | y ->
put | n s | abc ->
run | -R i -s r verify -> 1 "missing m%20i\nnot same n%20s\nwrong content w%20c\nwrong kind w%20k\nwrong mode w%20m\nwrong target w%20t\ndamaged 6\n"
does | fix -> 0 done
run | -R i -s r verify -> 0 "ok\n"
does | uninstall p -> 0 done
# what was changed: each sort of step, and packages that come, change and go
package | u@1 | dir path=mode $dir ->
package | u@2 | dir path=mode group=bin mode=0700 owner=root; depend fmri=n type=require ->
package | o@1 | dir path=gone $dir ->
package | o@2 | set name=pkg.obsolete value=true ->
package | n@1 | license $abc license=CDDL must-display=true; dir path=fresh $dir; link path=link target=x; file $abc path=put $file; hardlink path=hard target=put ->
catalog | u 1; o 1 ->
does | install u o -> 0 done
catalog | u 1 2; o 1 2; n 1 ->
run | -R i -s r update -> 0 "license: n CDDL\ninstall 1, update 1, remove 1\nsteps: gone 2, fresh 2, mode 1, put 6, link 1, hard 1\ndone\n"
# a report that isn't taken ends the run with 1
with | -R i -s r fix | sink 1 -> 1 part ""
run | -R i -s r fix -> 4 "nothing to do\n"
# actuators, and what is left of a change
begin ->
does | image-create -p test --actuator /bin/svc -> 0 done
package | p@1 | dir path=p $dir ; driver name=d disable_fmri=svc:/b ->
catalog | p 1 ->
does | install p -> 0 done
status | 3 ->
run | -R i -s r uninstall p -> 1 "actuator failed before 3: /bin/svc disable svc:/b\n"
run | -R i -s r fix -> 4 "nothing to do\n"
status | 0 ->
with | -R i -s r uninstall p | spawner 1 -> 1 "spawn fault before\n"
put | var/pkg/journal | journal 1%0afresh 0755 opt%0afrob%0aend 2%0a ->
put | var/pkg/gate | ->
run | -R i -s r list -> 1 "unfinished: run fix\n"
run | -R i -s r fix -> 1 "bad journal line 3\n"
put | var/pkg/journal | journal 1%0afresh 0755 opt%0aend 1%0a ->
run | -R i -s r fix -> 0 "recovered: new image\n"
put | var/pkg/image | image 1%0apublisher test%0a ->
put | var/pkg/installed | ->
run | -R i -s r fix -> 1 "old format: run update-format\n"
"#;

#[test]
fn words_are_understood_or_told_by_their_place(rt: HostRuntime) {
    let alloc = rt.alloc();
    for (count, table) in [
        (101u32, FAULTS),
        (61u32, UNDERSTOOD),
        (42u32, PACKAGES),
        (79u32, ORDERS),
    ] {
        let mut world = World::new(alloc, bare(&rt, alloc));
        let rows = rows_told(&rt, alloc, &mut world, table);
        assert!(rt; rows == count, "{rows} rows in place of {count}");
    }
}

#[test]
fn help_and_reports_are_told_whole(rt: HostRuntime) {
    let alloc = rt.alloc();
    for (count, table) in [(3u32, HELP), (76u32, REPORTS)] {
        let mut world = World::new(alloc, bare(&rt, alloc));
        let rows = rows_told(&rt, alloc, &mut world, table);
        assert!(rt; rows == count, "{rows} rows in place of {count}");
    }
}
