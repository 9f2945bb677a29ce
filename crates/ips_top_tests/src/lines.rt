//! What is read or refused by its line: manifests, catalogs and the index.

use crate::packages::bare;
use crate::runs::rows_told;
use crate::world::World;

// Lines of manifests that are actions.
const ACTIONS: &str = r#"
does | image-create -p test -> 0 done
# the attributes stand by their keys, and values between quotes where they need them; a path stands without the `/` before it
put | var/pkg/packages/p | package 2%0aversion 1%0aset value="a \"b\" c" name=pkg.summary%0aset name=x value=b value=a value=''%0aset name=path path=//usr value=1%0adir path=/usr mode=755 owner=root group=bin%0adir path=///usr/bin mode=0755 owner=root group=bin%0a%09 dir%09mode=0755 x=2 path=a owner=root group=bin x=1 a.b=c%20%0afile a9993e364706816aba3e25717850c26c9cd0d89d path=f mode=1 owner='' group=g%0alink path=l target='a b' payload=x%0adriver name='a\' b\\c\d'%0asignature value=x%0a ->
run | -R i -s r contents -m p -> 0 "set name=pkg.summary value=\"a \\\"b\\\" c\"\nset name=x value=b value=a value=\"\"\nset name=path path=//usr value=1\ndir group=bin mode=755 owner=root path=usr\ndir group=bin mode=0755 owner=root path=usr/bin\ndir a.b=c group=bin mode=0755 owner=root path=a x=2 x=1\nfile a9993e364706816aba3e25717850c26c9cd0d89d group=g mode=1 owner=\"\" path=f\nlink path=l payload=x target=\"a b\"\ndriver name=\"a' b\\\\c\\\\d\"\nsignature value=x\n"
# a path of 960 bytes has three `/` between four parts
put | var/pkg/packages/p | package 2%0aversion 1%0adir group=g mode=1 owner=o path=/(a*239)/(a*239)/(a*239)/(a*240)%0adir group=g mode=1 owner=o path=/(a*255)/(a*240)%0a ->
run | -R i -s r contents -m p -> 0 "dir group=g mode=1 owner=o path=(a*239)/(a*239)/(a*239)/(a*240)\ndir group=g mode=1 owner=o path=(a*255)/(a*240)\n"
# the lines of an installed package of each kind, as they are kept
put | var/pkg/packages/p | package 2%0aversion 1%0aset name=a%0aset name=a value=2 value=1%0aset facet.x=all facet.x=true name=a other=b%0a ->
run | -R i -s r contents -m p -> 0 "set name=a\nset name=a value=2 value=1\nset facet.x=all facet.x=true name=a other=b\n"
put | var/pkg/packages/p | package 2%0aversion 1%0adepend fmri=a type=require%0adepend fmri=b fmri=a type=require-any%0adepend fmri=a predicate=b type=conditional%0a ->
run | -R i -s r contents -m p -> 0 "depend fmri=a type=require\ndepend fmri=b fmri=a type=require-any\ndepend fmri=a predicate=b type=conditional\n"
put | var/pkg/packages/p | package 2%0aversion 1%0adir group=g mode=7777 owner=o path=a%0adir group=g mode=07777 owner=o path=a%0adir group=g mode=0 owner="" path=a/..b%0a ->
run | -R i -s r contents -m p -> 0 "dir group=g mode=7777 owner=o path=a\ndir group=g mode=07777 owner=o path=a\ndir group=g mode=0 owner=\"\" path=a/..b\n"
put | var/pkg/packages/p | package 2%0aversion 1%0afile ba7816bf8f01cfea414140de5dae2223b00361a396177a9cb410ff61f20015ad group=g mode=1 owner=o path=f%0afile ba7816bf8f01cfea414140de5dae2223b00361a396177a9cb410ff61f20015ad group=g mode=1 overlay=allow owner=o path=f preserve=renamenew%0afile ba7816bf8f01cfea414140de5dae2223b00361a396177a9cb410ff61f20015ad group=g mode=1 overlay=true owner=o path=f preserve=install-only%0a ->
run | -R i -s r contents -m p -> 0 "file ba7816bf8f01cfea414140de5dae2223b00361a396177a9cb410ff61f20015ad group=g mode=1 owner=o path=f\nfile ba7816bf8f01cfea414140de5dae2223b00361a396177a9cb410ff61f20015ad group=g mode=1 overlay=allow owner=o path=f preserve=renamenew\nfile ba7816bf8f01cfea414140de5dae2223b00361a396177a9cb410ff61f20015ad group=g mode=1 overlay=true owner=o path=f preserve=install-only\n"
put | var/pkg/packages/p | package 2%0aversion 1%0afile a9993e364706816aba3e25717850c26c9cd0d89d group=g mode=1 owner=o path=f%0a ->
run | -R i -s r contents -m p -> 0 "file a9993e364706816aba3e25717850c26c9cd0d89d group=g mode=1 owner=o path=f\n"
put | var/pkg/packages/p | package 2%0aversion 1%0alink path=a target=/../x%0alink mediator=m mediator-implementation=i mediator-priority=site mediator-version=18446744073709551615.0 path=a target=b%0alink mediator=m mediator-priority=vendor path=a target=b%0a ->
run | -R i -s r contents -m p -> 0 "link path=a target=/../x\nlink mediator=m mediator-implementation=i mediator-priority=site mediator-version=18446744073709551615.0 path=a target=b\nlink mediator=m mediator-priority=vendor path=a target=b\n"
put | var/pkg/packages/p | package 2%0aversion 1%0alink path=a target=(a*4095)%0a ->
run | -R i -s r contents -m p -> 0 "link path=a target=(a*4095)\n"
put | var/pkg/packages/p | package 2%0aversion 1%0ahardlink path=bin/b target=a%0ahardlink path=bin/b target=../a%0ahardlink mediator=m mediator-version=1 path=b target=/bin/../a%0ahardlink path=usr/bin/b target=..%0a ->
run | -R i -s r contents -m p -> 0 "hardlink path=bin/b target=a\nhardlink path=bin/b target=../a\nhardlink mediator=m mediator-version=1 path=b target=/bin/../a\nhardlink path=usr/bin/b target=..\n"
put | var/pkg/packages/p | package 2%0aversion 1%0auser group=svc username=svc%0auser gcos-field="A User" group=svc group-list=b group-list=a home-dir=/ login-shell=/bin/sh password=*LK* uid=4294967295 username=svc%0a ->
run | -R i -s r contents -m p -> 0 "user group=svc username=svc\nuser gcos-field=\"A User\" group=svc group-list=b group-list=a home-dir=/ login-shell=/bin/sh password=*LK* uid=4294967295 username=svc\n"
put | var/pkg/packages/p | package 2%0aversion 1%0agroup groupname=svc%0agroup gid=4294967295 groupname=svc%0a ->
run | -R i -s r contents -m p -> 0 "group groupname=svc\ngroup gid=4294967295 groupname=svc\n"
put | var/pkg/packages/p | package 2%0aversion 1%0adriver name=a%0adriver alias=pci1 alias=pci0 facet=x facet.x=all name=a%0a ->
run | -R i -s r contents -m p -> 0 "driver name=a\ndriver alias=pci1 alias=pci0 facet=x facet.x=all name=a\n"
put | var/pkg/packages/p | package 2%0aversion 1%0alicense a9993e364706816aba3e25717850c26c9cd0d89d license=a/b%0alicense a9993e364706816aba3e25717850c26c9cd0d89d license=a must-accept=true must-display=false%0a ->
run | -R i -s r contents -m p -> 0 "license a9993e364706816aba3e25717850c26c9cd0d89d license=a/b\nlicense a9993e364706816aba3e25717850c26c9cd0d89d license=a must-accept=true must-display=false\n"
put | var/pkg/packages/p | package 2%0aversion 1%0alicense a9993e364706816aba3e25717850c26c9cd0d89d license=(a*255)%0a ->
run | -R i -s r contents -m p -> 0 "license a9993e364706816aba3e25717850c26c9cd0d89d license=(a*255)\n"
put | var/pkg/packages/p | package 2%0aversion 1%0alegacy pkg=SUNWx%0alegacy name=X pkg=SUNWx%0a ->
run | -R i -s r contents -m p -> 0 "legacy pkg=SUNWx\nlegacy name=X pkg=SUNWx\n"
put | var/pkg/packages/p | package 2%0aversion 1%0asignature value=x%0asignature ba7816bf8f01cfea414140de5dae2223b00361a396177a9cb410ff61f20015ad value=x%0a ->
run | -R i -s r contents -m p -> 0 "signature value=x\nsignature ba7816bf8f01cfea414140de5dae2223b00361a396177a9cb410ff61f20015ad value=x\n"
remove | var/pkg/packages/p ->
# one of characters of several bytes, and of many
catalog | p 1 ->
package | p@1 | set name=é value=(v*70000) value=日本 ->
does | install p -> 0 done
look | var/pkg/packages/p -> file 644 "package 2\nversion 1\nset name=é value=(v*70000) value=日本\n"
does | uninstall p -> 0 done
# where the target of a hardlink leads
package | p@1 | file $abc path=usr/bin/a $file; file $old path=usr/lib/a $file; file $new path=a $file; file $none path=etc/a $file; file $long_abc path=c/..b $file; hardlink path=usr/bin/b target=a; hardlink path=usr/bin/c target=./../lib//a; hardlink path=usr/bin/d target=../../a; hardlink path=usr/bin/e target=/etc/./x/../a; hardlink path=b target=c/..b ->
does | install p -> 0 done
same | usr/bin/b | usr/bin/a -> true
same | usr/bin/c | usr/lib/a -> true
same | usr/bin/d | a -> true
same | usr/bin/e | etc/a -> true
same | b | c/..b -> true
"#;

// Lines that are no action: of each kind one for each way in which it can be bad.
const FAULTS: &str = r#"
does | image-create -p test -> 0 done
catalog | p 1 ->
# a quote that is left open, names that are none, and what is no word
package | p@1 | set name='x ->
does | install p -> 1 bad manifest p@1 line 1
package | p@1 | frob a=b ->
does | install p -> 1 bad manifest p@1 line 1
stock | publisher/test/pkg/p/1 | %20Dir payload a=b%0a ->
does | install p -> 1 bad manifest p@1 line 1
package | p@1 | dir=x ->
does | install p -> 1 bad manifest p@1 line 1
package | p@1 | set name=a value= ->
does | install p -> 1 bad manifest p@1 line 1
package | p@1 | set name=b "c"=d ->
does | install p -> 1 bad manifest p@1 line 1
stock | publisher/test/pkg/p/1 | set %09 abc name=x%0a ->
does | install p -> 1 bad manifest p@1 line 1
# a path of 961 bytes, a last part of 241, and a part of 256
package | p@1 | dir group=g mode=1 owner=o path=/(a*240)/(a*239)/(a*239)/(a*240) ->
does | install p -> 1 bad manifest p@1 line 1
package | p@1 | dir group=g mode=1 owner=o path=/(a*256)/a ->
does | install p -> 1 bad manifest p@1 line 1
package | p@1 | dir group=g mode=1 owner=o path=/a/(a*241) ->
does | install p -> 1 bad manifest p@1 line 1
# sets
package | p@1 | set value=a ->
does | install p -> 1 bad manifest p@1 line 1
package | p@1 | set name=a name=b ->
does | install p -> 1 bad manifest p@1 line 1
package | p@1 | set word name=a ->
does | install p -> 1 bad manifest p@1 line 1
package | p@1 | set name=a facet.x=maybe ->
does | install p -> 1 bad manifest p@1 line 1
package | p@1 | set name=a facet.x=true facet.x=false ->
does | install p -> 1 bad manifest p@1 line 1
# dependencies
package | p@1 | depend type=require ->
does | install p -> 1 bad manifest p@1 line 1
package | p@1 | depend fmri=a ->
does | install p -> 1 bad manifest p@1 line 1
package | p@1 | depend fmri=a type=x type=y ->
does | install p -> 1 bad manifest p@1 line 1
package | p@1 | depend fmri=a type=x predicate=y predicate=y ->
does | install p -> 1 bad manifest p@1 line 1
package | p@1 | depend word fmri=a type=require ->
does | install p -> 1 bad manifest p@1 line 1
# directories
package | p@1 | dir path=../etc/passwd mode=1 owner=o group=g ->
does | install p -> 1 bad manifest p@1 line 1
package | p@1 | dir path=/ mode=1 owner=o group=g ->
does | install p -> 1 bad manifest p@1 line 1
package | p@1 | dir path='' mode=1 owner=o group=g ->
does | install p -> 1 bad manifest p@1 line 1
package | p@1 | dir path=a//b mode=1 owner=o group=g ->
does | install p -> 1 bad manifest p@1 line 1
package | p@1 | dir path=a/ mode=1 owner=o group=g ->
does | install p -> 1 bad manifest p@1 line 1
package | p@1 | dir path=a/./b mode=1 owner=o group=g ->
does | install p -> 1 bad manifest p@1 line 1
stock | publisher/test/pkg/p/1 | dir path=a%00 mode=1 owner=o group=g%0a ->
does | install p -> 1 bad manifest p@1 line 1
package | p@1 | dir path=a path=a mode=1 owner=o group=g ->
does | install p -> 1 bad manifest p@1 line 1
package | p@1 | dir mode=1 owner=o group=g ->
does | install p -> 1 bad manifest p@1 line 1
package | p@1 | dir path=a mode=17777 owner=o group=g ->
does | install p -> 1 bad manifest p@1 line 1
package | p@1 | dir path=a mode=000777 owner=o group=g ->
does | install p -> 1 bad manifest p@1 line 1
package | p@1 | dir path=a mode=8 owner=o group=g ->
does | install p -> 1 bad manifest p@1 line 1
package | p@1 | dir path=a mode='' owner=o group=g ->
does | install p -> 1 bad manifest p@1 line 1
package | p@1 | dir path=a mode=1 mode=1 owner=o group=g ->
does | install p -> 1 bad manifest p@1 line 1
package | p@1 | dir path=a owner=o group=g ->
does | install p -> 1 bad manifest p@1 line 1
package | p@1 | dir path=a mode=1 group=g ->
does | install p -> 1 bad manifest p@1 line 1
package | p@1 | dir path=a mode=1 owner=o owner=o group=g ->
does | install p -> 1 bad manifest p@1 line 1
package | p@1 | dir path=a mode=1 owner=o ->
does | install p -> 1 bad manifest p@1 line 1
package | p@1 | dir path=a mode=1 owner=o group=g group=g ->
does | install p -> 1 bad manifest p@1 line 1
package | p@1 | dir word path=a mode=1 owner=o group=g ->
does | install p -> 1 bad manifest p@1 line 1
# files
package | p@1 | file $long_abc mode=1 owner=o group=g ->
does | install p -> 1 bad manifest p@1 line 1
package | p@1 | file $long_abc path=.. mode=1 owner=o group=g ->
does | install p -> 1 bad manifest p@1 line 1
package | p@1 | file $long_abc path=f path=f mode=1 owner=o group=g ->
does | install p -> 1 bad manifest p@1 line 1
package | p@1 | file $long_abc path=f owner=o group=g ->
does | install p -> 1 bad manifest p@1 line 1
package | p@1 | file $long_abc path=f mode=x owner=o group=g ->
does | install p -> 1 bad manifest p@1 line 1
package | p@1 | file $long_abc path=f mode=1 mode=1 owner=o group=g ->
does | install p -> 1 bad manifest p@1 line 1
package | p@1 | file $long_abc path=f mode=1 group=g ->
does | install p -> 1 bad manifest p@1 line 1
package | p@1 | file $long_abc path=f mode=1 owner=o owner=o group=g ->
does | install p -> 1 bad manifest p@1 line 1
package | p@1 | file $long_abc path=f mode=1 owner=o ->
does | install p -> 1 bad manifest p@1 line 1
package | p@1 | file $long_abc path=f mode=1 owner=o group=g group=g ->
does | install p -> 1 bad manifest p@1 line 1
package | p@1 | file $long_abc path=f mode=1 owner=o group=g preserve=sometimes ->
does | install p -> 1 bad manifest p@1 line 1
package | p@1 | file $long_abc path=f mode=1 owner=o group=g preserve=true preserve=true ->
does | install p -> 1 bad manifest p@1 line 1
package | p@1 | file $long_abc path=f mode=1 owner=o group=g overlay=no ->
does | install p -> 1 bad manifest p@1 line 1
package | p@1 | file $long_abc path=f mode=1 owner=o group=g overlay=allow overlay=true ->
does | install p -> 1 bad manifest p@1 line 1
package | p@1 | file path=f mode=1 owner=o group=g ->
does | install p -> 1 bad manifest p@1 line 1
package | p@1 | file abc path=f mode=1 owner=o group=g ->
does | install p -> 1 bad manifest p@1 line 1
package | p@1 | file A9993E364706816ABA3E25717850C26C9CD0D89D path=f mode=1 owner=o group=g ->
does | install p -> 1 bad manifest p@1 line 1
package | p@1 | file a9993e364706816aba3e25717850c26c9cd0d89 path=f mode=1 owner=o group=g ->
does | install p -> 1 bad manifest p@1 line 1
# links
package | p@1 | link target=a ->
does | install p -> 1 bad manifest p@1 line 1
package | p@1 | link path=../a target=b ->
does | install p -> 1 bad manifest p@1 line 1
package | p@1 | link path=a path=a target=b ->
does | install p -> 1 bad manifest p@1 line 1
package | p@1 | link path=a ->
does | install p -> 1 bad manifest p@1 line 1
package | p@1 | link path=a target='' ->
does | install p -> 1 bad manifest p@1 line 1
stock | publisher/test/pkg/p/1 | link path=a target=%00%0a ->
does | install p -> 1 bad manifest p@1 line 1
package | p@1 | link path=a target=b target=c ->
does | install p -> 1 bad manifest p@1 line 1
package | p@1 | link path=a target=b mediator=m mediator=m ->
does | install p -> 1 bad manifest p@1 line 1
package | p@1 | link path=a target=b mediator-version=1.02 ->
does | install p -> 1 bad manifest p@1 line 1
package | p@1 | link path=a target=b mediator-version=1. ->
does | install p -> 1 bad manifest p@1 line 1
package | p@1 | link path=a target=b mediator-version='' ->
does | install p -> 1 bad manifest p@1 line 1
package | p@1 | link path=a target=b mediator-version=18446744073709551616 ->
does | install p -> 1 bad manifest p@1 line 1
package | p@1 | link path=a target=b mediator-version=1 mediator-version=1 ->
does | install p -> 1 bad manifest p@1 line 1
package | p@1 | link path=a target=b mediator-implementation=i mediator-implementation=j ->
does | install p -> 1 bad manifest p@1 line 1
package | p@1 | link path=a target=b mediator-priority=user ->
does | install p -> 1 bad manifest p@1 line 1
package | p@1 | link path=a target=b mediator-priority=site mediator-priority=site ->
does | install p -> 1 bad manifest p@1 line 1
package | p@1 | link word path=a target=b ->
does | install p -> 1 bad manifest p@1 line 1
# a target of one byte more than it may have
package | p@1 | link path=a target=(a*4096) ->
does | install p -> 1 bad manifest p@1 line 1
# hardlinks
package | p@1 | hardlink target=a ->
does | install p -> 1 bad manifest p@1 line 1
package | p@1 | hardlink path=../b target=a ->
does | install p -> 1 bad manifest p@1 line 1
package | p@1 | hardlink path=b path=b target=a ->
does | install p -> 1 bad manifest p@1 line 1
package | p@1 | hardlink path=bin/b ->
does | install p -> 1 bad manifest p@1 line 1
package | p@1 | hardlink path=bin/b target=../../a ->
does | install p -> 1 bad manifest p@1 line 1
package | p@1 | hardlink path=bin/b target=../../bin/a ->
does | install p -> 1 bad manifest p@1 line 1
package | p@1 | hardlink path=b target=.. ->
does | install p -> 1 bad manifest p@1 line 1
package | p@1 | hardlink path=bin/b target=.. ->
does | install p -> 1 bad manifest p@1 line 1
package | p@1 | hardlink path=bin/b target=/ ->
does | install p -> 1 bad manifest p@1 line 1
package | p@1 | hardlink path=bin/b target=/.. ->
does | install p -> 1 bad manifest p@1 line 1
package | p@1 | hardlink path=b target=a target=a ->
does | install p -> 1 bad manifest p@1 line 1
package | p@1 | hardlink path=b target=a mediator=m mediator=m ->
does | install p -> 1 bad manifest p@1 line 1
package | p@1 | hardlink path=b target=a mediator-version=x ->
does | install p -> 1 bad manifest p@1 line 1
package | p@1 | hardlink path=b target=a mediator-version=1 mediator-version=1 ->
does | install p -> 1 bad manifest p@1 line 1
package | p@1 | hardlink path=b target=a mediator-implementation=i mediator-implementation=j ->
does | install p -> 1 bad manifest p@1 line 1
package | p@1 | hardlink path=b target=a mediator-priority=user ->
does | install p -> 1 bad manifest p@1 line 1
package | p@1 | hardlink path=b target=a mediator-priority=site mediator-priority=site ->
does | install p -> 1 bad manifest p@1 line 1
package | p@1 | hardlink word path=b target=a ->
does | install p -> 1 bad manifest p@1 line 1
# users
package | p@1 | user group=svc ->
does | install p -> 1 bad manifest p@1 line 1
package | p@1 | user username='' group=svc ->
does | install p -> 1 bad manifest p@1 line 1
package | p@1 | user username=a:b group=svc ->
does | install p -> 1 bad manifest p@1 line 1
package | p@1 | user username=a,b group=svc ->
does | install p -> 1 bad manifest p@1 line 1
package | p@1 | user username=#a group=svc ->
does | install p -> 1 bad manifest p@1 line 1
package | p@1 | user username=a username=a group=svc ->
does | install p -> 1 bad manifest p@1 line 1
package | p@1 | user username=svc ->
does | install p -> 1 bad manifest p@1 line 1
package | p@1 | user username=a group=+svc ->
does | install p -> 1 bad manifest p@1 line 1
package | p@1 | user username=a group=g group=h ->
does | install p -> 1 bad manifest p@1 line 1
package | p@1 | user username=a group=g uid=4294967296 ->
does | install p -> 1 bad manifest p@1 line 1
package | p@1 | user username=a group=g uid=01 ->
does | install p -> 1 bad manifest p@1 line 1
package | p@1 | user username=a group=g uid=-1 ->
does | install p -> 1 bad manifest p@1 line 1
package | p@1 | user username=a group=g uid='' ->
does | install p -> 1 bad manifest p@1 line 1
package | p@1 | user username=a group=g uid=1 uid=1 ->
does | install p -> 1 bad manifest p@1 line 1
package | p@1 | user username=a group=g group-list=x group-list=-y ->
does | install p -> 1 bad manifest p@1 line 1
package | p@1 | user username=a group=g gcos-field=a:b ->
does | install p -> 1 bad manifest p@1 line 1
package | p@1 | user username=a group=g gcos-field=a gcos-field=a ->
does | install p -> 1 bad manifest p@1 line 1
package | p@1 | user username=a group=g home-dir=: ->
does | install p -> 1 bad manifest p@1 line 1
package | p@1 | user username=a group=g home-dir=/ home-dir=/ ->
does | install p -> 1 bad manifest p@1 line 1
package | p@1 | user username=a group=g login-shell=a:b ->
does | install p -> 1 bad manifest p@1 line 1
package | p@1 | user username=a group=g login-shell=a login-shell=a ->
does | install p -> 1 bad manifest p@1 line 1
package | p@1 | user username=a group=g password=a:b ->
does | install p -> 1 bad manifest p@1 line 1
package | p@1 | user username=a group=g password=a password=a ->
does | install p -> 1 bad manifest p@1 line 1
package | p@1 | user word username=a group=g ->
does | install p -> 1 bad manifest p@1 line 1
# groups
package | p@1 | group gid=0 ->
does | install p -> 1 bad manifest p@1 line 1
package | p@1 | group groupname=-a ->
does | install p -> 1 bad manifest p@1 line 1
package | p@1 | group groupname=a groupname=a ->
does | install p -> 1 bad manifest p@1 line 1
package | p@1 | group groupname=a gid=4294967296 ->
does | install p -> 1 bad manifest p@1 line 1
package | p@1 | group groupname=a gid=x ->
does | install p -> 1 bad manifest p@1 line 1
package | p@1 | group groupname=a gid=1 gid=1 ->
does | install p -> 1 bad manifest p@1 line 1
package | p@1 | group word groupname=a ->
does | install p -> 1 bad manifest p@1 line 1
# drivers
package | p@1 | driver alias=a ->
does | install p -> 1 bad manifest p@1 line 1
package | p@1 | driver name=a name=b ->
does | install p -> 1 bad manifest p@1 line 1
package | p@1 | driver word name=a ->
does | install p -> 1 bad manifest p@1 line 1
# licenses
package | p@1 | license $abc must-accept=true ->
does | install p -> 1 bad manifest p@1 line 1
package | p@1 | license $abc license='' ->
does | install p -> 1 bad manifest p@1 line 1
package | p@1 | license $abc license=. ->
does | install p -> 1 bad manifest p@1 line 1
package | p@1 | license $abc license=.. ->
does | install p -> 1 bad manifest p@1 line 1
package | p@1 | license $abc license=a license=b ->
does | install p -> 1 bad manifest p@1 line 1
package | p@1 | license $abc license=a must-accept=yes ->
does | install p -> 1 bad manifest p@1 line 1
package | p@1 | license $abc license=a must-accept=true must-accept=true ->
does | install p -> 1 bad manifest p@1 line 1
package | p@1 | license $abc license=a must-display=all ->
does | install p -> 1 bad manifest p@1 line 1
package | p@1 | license $abc license=a must-display=true must-display=true ->
does | install p -> 1 bad manifest p@1 line 1
package | p@1 | license license=a ->
does | install p -> 1 bad manifest p@1 line 1
package | p@1 | license a license=a ->
does | install p -> 1 bad manifest p@1 line 1
package | p@1 | license $abc license=(a*256) ->
does | install p -> 1 bad manifest p@1 line 1
# legacy packages
package | p@1 | legacy name=X ->
does | install p -> 1 bad manifest p@1 line 1
package | p@1 | legacy pkg='' ->
does | install p -> 1 bad manifest p@1 line 1
package | p@1 | legacy pkg=. ->
does | install p -> 1 bad manifest p@1 line 1
package | p@1 | legacy pkg=.. ->
does | install p -> 1 bad manifest p@1 line 1
package | p@1 | legacy pkg=(a*256) ->
does | install p -> 1 bad manifest p@1 line 1
package | p@1 | legacy pkg=a pkg=b ->
does | install p -> 1 bad manifest p@1 line 1
package | p@1 | legacy word pkg=a ->
does | install p -> 1 bad manifest p@1 line 1
# signatures
package | p@1 | signature a ->
does | install p -> 1 bad manifest p@1 line 1
package | p@1 | signature facet.x=maybe ->
does | install p -> 1 bad manifest p@1 line 1
# where a target leads to no path
package | p@1 | hardlink path=usr/bin/b target=../../.. ->
does | install p -> 1 bad manifest p@1 line 1
package | p@1 | hardlink path=usr/bin/b target=../../../usr/bin/a ->
does | install p -> 1 bad manifest p@1 line 1
package | p@1 | hardlink path=usr/bin/b target=/.. ->
does | install p -> 1 bad manifest p@1 line 1
package | p@1 | hardlink path=usr/bin/b target=../.. ->
does | install p -> 1 bad manifest p@1 line 1
stock | publisher/test/pkg/p/1 | hardlink path=b target=a%00%0a ->
does | install p -> 1 bad manifest p@1 line 1
"#;

// Lines of manifests.
const MANIFESTS: &str = r#"
does | image-create -p test -> 0 done
catalog | p 1 ->
# lines are joined and skipped
put | var/pkg/packages/p | package 2%0aversion 1%0aset name=a value=b%0a ->
run | -R i -s r contents -m p -> 0 "set name=a value=b\n"
put | var/pkg/packages/p | package 2%0aversion 1%0a%0a %09%0a# c%0a %09# d \%0aset name=a%0aset name=e ->
run | -R i -s r contents -m p -> 0 "set name=e\n"
put | var/pkg/packages/p | package 2%0aversion 1%0a# c%0aset \%0a  name=a \%0avalue=b%0aset name=e%0a ->
run | -R i -s r contents -m p -> 0 "set name=a value=b\nset name=e\n"
put | var/pkg/packages/p | package 2%0aversion 1%0aset name=a value=b\ ->
run | -R i -s r contents -m p -> 0 "set name=a value=b\n"
put | var/pkg/packages/p | package 2%0aversion 1%0aset name=a value=b\%0a ->
run | -R i -s r contents -m p -> 0 "set name=a value=b\n"
put | var/pkg/packages/p | package 2%0aversion 1%0aset na\%0ame=a ->
run | -R i -s r contents -m p -> 0 "set name=a\n"
put | var/pkg/packages/p | package 2%0aversion 1%0a ->
run | -R i -s r contents -m p -> 0 ""
remove | var/pkg/packages/p ->
# and numbered: an action by its first line
stock | publisher/test/pkg/p/1 | depend type=no fmri=a%0a ->
does | install p -> 1 bad depend p@1 line 1
stock | publisher/test/pkg/p/1 | %0a %09%0a# c%0a %09# d \%0adepend type=no fmri=a%0aset name=e%0a ->
does | install p -> 0 done
does | uninstall p -> 0 done
stock | publisher/test/pkg/p/1 | # c%0adepend \%0a  type=no \%0afmri=a%0aset name=e%0a ->
does | install p -> 1 bad depend p@1 line 2
stock | publisher/test/pkg/p/1 | depend type=no fmri=a\ ->
does | install p -> 1 bad depend p@1 line 1
stock | publisher/test/pkg/p/1 | depend type=no fmri=a\%0a ->
does | install p -> 1 bad depend p@1 line 1
stock | publisher/test/pkg/p/1 | depend ty\%0ape=no fmri=a ->
does | install p -> 1 bad depend p@1 line 1
# the first fault is told with its line; of a byte that is no text the one on which it stands
stock | publisher/test/pkg/p/1 | set name=a%0a%ff%0a ->
does | install p -> 1 bad manifest p@1 line 2
stock | publisher/test/pkg/p/1 | set \%0aname=a \%0avalue=%c3\%0a%a9%0a ->
does | install p -> 1 bad manifest p@1 line 3
stock | publisher/test/pkg/p/1 | # %ff%0abad ->
does | install p -> 1 bad manifest p@1 line 1
stock | publisher/test/pkg/p/1 | bad%0a%ff%0a ->
does | install p -> 1 bad manifest p@1 line 1
stock | publisher/test/pkg/p/1 | # c%0a%0aset \%0a name=a b%0a%ff%0a ->
does | install p -> 1 bad manifest p@1 line 3
stock | publisher/test/pkg/p/1 | set name=a%0aset name="b%0a ->
does | install p -> 1 bad manifest p@1 line 2
stock | publisher/test/pkg/p/1 | set name=a%0a\%0aset%0a ->
does | install p -> 1 bad manifest p@1 line 2
stock | publisher/test/pkg/p/1 | set name=a%0a%0abad x%0a ->
does | install p -> 1 bad manifest p@1 line 3
# an obsolete package is no candidate
catalog | o1 1; o2 1; o3 1; o4 1; o5 1 ->
package | o1@1 | set name=pkg.obsolete value=true ->
package | o2@1 | set name=pkg.obsolete value=false value=true ->
package | o3@1 | set name=pkg.obsolete value=false ->
package | o4@1 | set name=pkg.renamed value=true ->
package | o5@1 | set name=pkg.obsolete ->
run | -R i -s r install o* -> 1 "no solution\nstem 0 o1\nstem 1 o2\nstem 2 o3 1\nstem 3 o4 1\nstem 4 o5 1\nrefutation 2\n- | 0 | -\n"
"#;

// Catalogs.
const CATALOGS: &str = r#"
does | image-create -p test -> 0 done
# stems stand by their bytes, and the versions of each ascend
stock | publisher/test/catalog/catalog.base.C | {"other": 1, "test": {"web/server": [{"version": "2"}, {"size": 3, "version": "1.10"}, {"version": "1.9-1"}, {"version": "1.9"}], "hello": [{"version": "1,5.11-1:20240102T030405Z"}], "empty": [], "Zed": [{"version": "0"}]}} ->
package | web/server@2 | set name=info value=x ->
package | web/server@1.10 | set name=info value=x ->
package | web/server@1.9-1 | set name=info value=x ->
package | web/server@1.9 | set name=info value=x ->
package | hello@1%2C5.11-1%3A20240102T030405Z | set name=info value=x ->
package | Zed@0 | set name=info value=x ->
run | -R i -s r install * -> 1 "no solution\nstem 0 Zed 0\nstem 1 empty\nstem 2 hello 1,5.11-1:20240102T030405Z\nstem 3 web/server 2 1.10 1.9-1 1.9\nrefutation 2\n- | 1 | -\n"
does | install hell -> 1 no match hell
# one version, none and no publisher
package | hello@1 | depend fmri=hello type=exclude ->
package | a@1 | depend fmri=a type=exclude ->
package | a@2 | depend fmri=a type=exclude ->
stock | publisher/test/catalog/catalog.base.C | {"test": {"hello": [{"version": "1"}]}} ->
run | -R i -s r install * -> 1 "no solution\nstem 0 hello 1\nrefutation 2\n- | 0 | t0\n"
stock | publisher/test/catalog/catalog.base.C | {"test": {}} ->
does | install * -> 1 no match *
stock | publisher/test/catalog/catalog.base.C | {} ->
does | install * -> 1 no match *
stock | publisher/test/catalog/catalog.base.C | {"Test": 5, "_SIGNATURE": {"sha-1": "0"}} ->
does | install * -> 1 no match *
# the later of two equal keys
stock | publisher/test/catalog/catalog.base.C | {"test": {"a": [{"version": "1"}], "a": [{"version": "2"}]}} ->
run | -R i -s r install * -> 1 "no solution\nstem 0 a 2\nrefutation 2\n- | 0 | t0\n"
stock | publisher/test/catalog/catalog.base.C | {"test": {"b": []}, "test": {"a": [{"version": "2"}]}} ->
run | -R i -s r install * -> 1 "no solution\nstem 0 a 2\nrefutation 2\n- | 0 | t0\n"
stock | publisher/test/catalog/catalog.base.C | {"test": {"a": [{"version": "1", "version": "2"}]}} ->
run | -R i -s r install * -> 1 "no solution\nstem 0 a 2\nrefutation 2\n- | 0 | t0\n"
stock | publisher/test/catalog/catalog.base.C | {"test": {"a": 1, "\u0061": [{"version": "2"}]}} ->
run | -R i -s r install * -> 1 "no solution\nstem 0 a 2\nrefutation 2\n- | 0 | t0\n"
# a fault of the earlier one isn't told
stock | publisher/test/catalog/catalog.base.C | {"test": 5, "test": {"b": [], "a": [{"version": "x"}], "a": [{"version": 1, "version": "2"}]}} ->
run | -R i -s r install * -> 1 "no solution\nstem 0 a 2\nstem 1 b\nrefutation 2\n- | 0 | t0\n"
stock | publisher/test/catalog/catalog.base.C | {"test": {"a": [{"version": "1"}]}, "test": {"b": []}} ->
run | -R i -s r install * -> 1 "no solution\nstem 0 b\nrefutation 2\n- | 0 | -\n"
# what is no JSON
stock | publisher/test/catalog/catalog.base.C | ->
does | install a -> 1 bad catalog
stock | publisher/test/catalog/catalog.base.C | {"test": {"hello": [{"version": "1" ->
does | install a -> 1 bad catalog
stock | publisher/test/catalog/catalog.base.C | {"test": {}} x ->
does | install a -> 1 bad catalog
stock | publisher/test/catalog/catalog.base.C | {'test': {}} ->
does | install a -> 1 bad catalog
# also what isn't looked at has to be JSON
stock | publisher/test/catalog/catalog.base.C | {"x": 1e999} ->
does | install a -> 1 bad catalog
stock | publisher/test/catalog/catalog.base.C | {"x": "\ud800"} ->
does | install a -> 1 bad catalog
stock | publisher/test/catalog/catalog.base.C | {"x": [[], {"y": [-1e999]}], "test": 5} ->
does | install a -> 1 bad catalog
stock | publisher/test/catalog/catalog.base.C | {"test": {"a": 1e999}} ->
does | install a -> 1 bad catalog
stock | publisher/test/catalog/catalog.base.C | {"test": {"a": [{"size": 1e999, "version": "x"}]}} ->
does | install a -> 1 bad catalog
stock | publisher/test/catalog/catalog.base.C | {"test": {"a": [{"version": 1e999}]}} ->
does | install a -> 1 bad catalog
stock | publisher/test/catalog/catalog.base.C | {"test": {"a": [{"version": "1", "x": [}]}} ->
does | install a -> 1 bad catalog
stock | publisher/test/catalog/catalog.base.C | %20 ->
does | install a -> 1 bad catalog
# nested too deeply, and just not
stock | publisher/test/catalog/catalog.base.C | ([*200)(]*200) ->
does | install a -> 1 bad catalog
stock | publisher/test/catalog/catalog.base.C | {"x": ([*127)(]*127)} ->
does | install a -> 1 bad catalog
stock | publisher/test/catalog/catalog.base.C | {"x": ([*126)(]*126)} ->
does | install a -> 1 no match a
stock | publisher/test/catalog/catalog.base.C | {"test": {"a": [{"x": ([*124)(]*124), "version": "x"}]}} ->
does | install a -> 1 bad catalog
stock | publisher/test/catalog/catalog.base.C | {"test": {"a": [{"x": ([*123)(]*123), "version": "x"}]}} ->
does | install a -> 1 bad catalog
stock | publisher/test/catalog/catalog.base.C | {"test": {"a": [{"x": ([*123)(]*123), "version": "2"}]}} ->
does | install a -> 1 - | 0 | t0
# a key that is no UTF-8
stock | publisher/test/catalog/catalog.base.C | {"%ff":1} ->
does | install a -> 1 bad catalog
# a top value, a publisher, a stem and entries of another shape, and keys that are no stems
stock | publisher/test/catalog/catalog.base.C | [] ->
does | install a -> 1 bad catalog
stock | publisher/test/catalog/catalog.base.C | null ->
does | install a -> 1 bad catalog
stock | publisher/test/catalog/catalog.base.C | "test" ->
does | install a -> 1 bad catalog
stock | publisher/test/catalog/catalog.base.C | {"test": []} ->
does | install a -> 1 bad catalog
stock | publisher/test/catalog/catalog.base.C | {"test": null} ->
does | install a -> 1 bad catalog
stock | publisher/test/catalog/catalog.base.C | {"test": {"hello": {}}} ->
does | install a -> 1 bad catalog
stock | publisher/test/catalog/catalog.base.C | {"test": {"hello": "1"}} ->
does | install a -> 1 bad catalog
stock | publisher/test/catalog/catalog.base.C | {"test": {"": []}} ->
does | install a -> 1 bad catalog
stock | publisher/test/catalog/catalog.base.C | {"test": {"_x": []}} ->
does | install a -> 1 bad catalog
stock | publisher/test/catalog/catalog.base.C | {"test": {"a//b": []}} ->
does | install a -> 1 bad catalog
stock | publisher/test/catalog/catalog.base.C | {"test": {"/a": []}} ->
does | install a -> 1 bad catalog
stock | publisher/test/catalog/catalog.base.C | {"test": {"a~1": []}} ->
does | install a -> 1 bad catalog
stock | publisher/test/catalog/catalog.base.C | {"test": {"pkg:/a": []}} ->
does | install a -> 1 bad catalog
stock | publisher/test/catalog/catalog.base.C | {"test": {"a@1": []}} ->
does | install a -> 1 bad catalog
stock | publisher/test/catalog/catalog.base.C | {"test": {"a*": []}} ->
does | install a -> 1 bad catalog
stock | publisher/test/catalog/catalog.base.C | {"test": {"größe": []}} ->
does | install a -> 1 bad catalog
stock | publisher/test/catalog/catalog.base.C | {"test": {"a/b": [1]}} ->
does | install a -> 1 bad catalog
stock | publisher/test/catalog/catalog.base.C | {"test": {"a": [{"version": "1"}, []]}} ->
does | install a -> 1 bad catalog
stock | publisher/test/catalog/catalog.base.C | {"test": {"a": [{"version": 1}]}} ->
does | install a -> 1 bad catalog
stock | publisher/test/catalog/catalog.base.C | {"test": {"a": [{"version": "1"}, {"Version": "1"}]}} ->
does | install a -> 1 bad catalog
stock | publisher/test/catalog/catalog.base.C | {"test": {"a": [{}]}} ->
does | install a -> 1 bad catalog
stock | publisher/test/catalog/catalog.base.C | {"test": {"a": [{"version": "0"}, {"version": "1"}, {"version": "2"}, {"version": "3"}, {"version": "4"}, {"version": "5"}, {"version": "6"}, {"version": "7"}, {"version": "8"}, {"version": "9"}, {"version": "10"}, {"version": "11"}, 3]}} ->
does | install a -> 1 bad catalog
stock | publisher/test/catalog/catalog.base.C | {"test": {"(a*256)": []}} ->
does | install a -> 1 bad catalog
stock | publisher/test/catalog/catalog.base.C | {"test": {"(a*255)": []}} ->
does | install a -> 1 no match a
# versions that are none or stand twice
stock | publisher/test/catalog/catalog.base.C | {"test": {"a": [{"version": ""}]}} ->
does | install a -> 1 bad catalog
stock | publisher/test/catalog/catalog.base.C | {"test": {"a": [{"version": "1.x"}]}} ->
does | install a -> 1 bad catalog
stock | publisher/test/catalog/catalog.base.C | {"test": {"a": [{"version": "1"}, {"version": "1:2024"}]}} ->
does | install a -> 1 bad catalog
stock | publisher/test/catalog/catalog.base.C | {"test": {"a/b": [{"version": "01"}]}} ->
does | install a -> 1 bad catalog
stock | publisher/test/catalog/catalog.base.C | {"test": {"a": [{"version": "1"}, {"version": "1"}]}} ->
does | install a -> 1 bad catalog
stock | publisher/test/catalog/catalog.base.C | {"test": {"a": [{"version": "1,2-3"}, {"version": "\u0031,2-3"}]}} ->
does | install a -> 1 bad catalog
stock | publisher/test/catalog/catalog.base.C | {"test": {"a": [{"version": "2"}, {"version": "1"}, {"version": "3"}, {"version": "1"}, {"version": "2"}]}} ->
does | install a -> 1 bad catalog
"#;

// Texts of the index, and what it holds.
const INDEXES: &str = r#"
does | image-create -p test -> 0 done
# what was printed is read
put | var/pkg/index | index 1%0a ->
does | search * -> 1 no match *
put | var/pkg/index | index 1%0ausr path dir usr hello%0a ->
run | -R i -s r search * -> 0 "path dir hello usr\n"
put | var/pkg/index | index 1%0aa%252Fb path link a%252Fb s%0ab path link a%252Fb s%0a ->
run | -R i -s r search * -> 0 "path link s a/b\npath link s a/b\n"
put | var/pkg/index | index 1%0aa%2520b value set a%2520b s%0ac value set c s%0an name set n s%0a ->
run | -R i -s r search * -> 0 "value set s a b\nvalue set s c\nname set s n\n"
put | var/pkg/index | index 1%0a0123456789012345678901234567890123456789 payload license 0123456789012345678901234567890123456789 s%0alic license license lic s%0a ->
run | -R i -s r search * -> 0 "payload license s 0123456789012345678901234567890123456789\nlicense license s lic\n"
put | var/pkg/index | index 1%0ax name driver x b%0ax name set x b%0ax path dir x b%0ax path link x a%0ax path link x b%0a ->
run | -R i -s r search * -> 0 "name driver b x\nname set b x\npath dir b x\npath link a x\npath link b x\n"
# texts may be long, and have characters of several bytes
put | var/pkg/index | index 1%0a(v*70000) name driver (v*70000) s%0a ->
does | search x -> 1 no match x
put | var/pkg/index | index 1%0aa%252F%25E6%2597%25A5 path dir a%252F%25E6%2597%25A5 s%0a%25E6%2597%25A5 path dir a%252F%25E6%2597%25A5 s%0a ->
run | -R i -s r search * -> 0 "path dir s a/日\npath dir s a/日\n"
# a text may be empty, between two blanks
put | var/pkg/index | index 1%0a%20name set %20s%0a ->
run | -R i -s r search * -> 0 "name set s \n"
put | var/pkg/index | index 1%0a%20value set %20s%0aa%252F path dir a%252F s%0a ->
run | -R i -s r search * -> 0 "value set s \npath dir s a/\n"
# the first line tells the form, and a line that no newline ends is none
put | var/pkg/index | ->
does | search x -> 1 bad image var/pkg/index line 1
put | var/pkg/index | index 1 ->
does | search x -> 1 bad image var/pkg/index line 1
put | var/pkg/index | index 2%0a ->
does | search x -> 1 bad image var/pkg/index line 1
put | var/pkg/index | index 1%20%0a ->
does | search x -> 1 bad image var/pkg/index line 1
put | var/pkg/index | usr path dir usr hello%0a ->
does | search x -> 1 bad image var/pkg/index line 1
put | var/pkg/index | index 1%0ausr path dir usr hello ->
does | search x -> 1 bad image var/pkg/index line 2
put | var/pkg/index | index 1%0ausr path dir usr hello%0ax path ->
does | search x -> 1 bad image var/pkg/index line 3
# a row has five words
put | var/pkg/index | index 1%0a%0a ->
does | search x -> 1 bad image var/pkg/index line 2
put | var/pkg/index | index 1%0ausr path dir usr%0a ->
does | search x -> 1 bad image var/pkg/index line 2
put | var/pkg/index | index 1%0ausr path dir usr hello more%0a ->
does | search x -> 1 bad image var/pkg/index line 2
put | var/pkg/index | index 1%0ausr path dir  usr hello%0a ->
does | search x -> 1 bad image var/pkg/index line 2
# the kind has the index
put | var/pkg/index | index 1%0ausr path dirs usr hello%0a ->
does | search x -> 1 bad image var/pkg/index line 2
put | var/pkg/index | index 1%0ausr name dir usr hello%0a ->
does | search x -> 1 bad image var/pkg/index line 2
put | var/pkg/index | index 1%0ausr value dir usr hello%0a ->
does | search x -> 1 bad image var/pkg/index line 2
put | var/pkg/index | index 1%0ausr payload dir usr hello%0a ->
does | search x -> 1 bad image var/pkg/index line 2
put | var/pkg/index | index 1%0ausr  signature usr hello%0a ->
does | search x -> 1 bad image var/pkg/index line 2
# token and value are quoted in the one way, and are texts; the token is the value, or the last part of a path
put | var/pkg/index | index 1%0a%2575sr path dir %2575sr hello%0a ->
does | search x -> 1 bad image var/pkg/index line 2
put | var/pkg/index | index 1%0aa%252fb path dir a%252fb hello%0a ->
does | search x -> 1 bad image var/pkg/index line 2
put | var/pkg/index | index 1%0a%25FF name set %25FF s%0a ->
does | search x -> 1 bad image var/pkg/index line 2
put | var/pkg/index | index 1%0ab path dir usr hello%0a ->
does | search x -> 1 bad image var/pkg/index line 2
put | var/pkg/index | index 1%0ab name driver a%252Fb hello%0a ->
does | search x -> 1 bad image var/pkg/index line 2
put | var/pkg/index | index 1%0aa path dir a%252Fb hello%0a ->
does | search x -> 1 bad image var/pkg/index line 2
# the stem is one
put | var/pkg/index | index 1%0ausr path dir usr%0a ->
does | search x -> 1 bad image var/pkg/index line 2
put | var/pkg/index | index 1%0ausr path dir usr %20%0a ->
does | search x -> 1 bad image var/pkg/index line 2
put | var/pkg/index | index 1%0ausr path dir usr -a%0a ->
does | search x -> 1 bad image var/pkg/index line 2
put | var/pkg/index | index 1%0ausr path dir usr a@1%0a ->
does | search x -> 1 bad image var/pkg/index line 2
put | var/pkg/index | index 1%0ausr path dir usr a%252Fb%0a ->
does | search x -> 1 bad image var/pkg/index line 2
# rows ascend, each once
put | var/pkg/index | index 1%0ausr path dir usr hello%0ausr path dir usr hello%0a ->
does | search x -> 1 bad image var/pkg/index line 3
put | var/pkg/index | index 1%0ausr path dir usr hello%0abin path dir bin hello%0a ->
does | search x -> 1 bad image var/pkg/index line 3
put | var/pkg/index | index 1%0abin path dir bin hello%0ausr path dir usr hello%0abin path dir bin hello%0a ->
does | search x -> 1 bad image var/pkg/index line 4
remove | var/pkg/index ->
# an index of nothing, made anew
does | rebuild-index -> 0 done
look | var/pkg/index -> file 644 "index 1\n"
# a package's rows are replaced, or go with it; those of others stay
package | a@1 | driver name=x; driver name=z ->
package | a@2 | driver name=y ->
package | a@3 | driver name=xa; driver name=xb; driver name=x; driver name=y ->
package | b@1 | driver name=x; dir path=x $dir ->
catalog | a 1 2 3; b 1 ->
does | install a@1 b -> 0 done
look | var/pkg/index -> file 644 "index 1\nx name driver x a\nx name driver x b\nx path dir x b\nz name driver z a\n"
does | update a@2 -> 0 done
look | var/pkg/index -> file 644 "index 1\nx name driver x b\nx path dir x b\ny name driver y a\n"
# what a pattern finds
does | update a@3 -> 0 done
run | -R i -s r search x -> 0 "name driver a x\nname driver b x\npath dir b x\n"
run | -R i -s r search x? -> 0 "name driver a xa\nname driver a xb\n"
run | -R i -s r search *x* -> 0 "name driver a x\nname driver b x\npath dir b x\nname driver a xa\nname driver a xb\n"
does | search XA -> 1 no match XA
does | uninstall a -> 0 done
look | var/pkg/index -> file 644 "index 1\nx name driver x b\nx path dir x b\n"
"#;

#[test]
fn lines_of_manifests_are_read(rt: HostRuntime) {
    let alloc = rt.alloc();
    for (count, table) in [(48u32, ACTIONS), (53u32, MANIFESTS)] {
        let mut world = World::new(alloc, bare(&rt, alloc));
        let rows = rows_told(&rt, alloc, &mut world, table);
        assert!(rt; rows == count, "{rows} rows in place of {count}");
    }
}

#[test]
fn lines_that_are_no_action_are_told(rt: HostRuntime) {
    let alloc = rt.alloc();
    let mut world = World::new(alloc, bare(&rt, alloc));
    let rows = rows_told(&rt, alloc, &mut world, FAULTS);
    assert!(rt; rows == 310, "{rows} rows");
}

#[test]
fn catalogs_and_indexes_are_read(rt: HostRuntime) {
    let alloc = rt.alloc();
    for (count, table) in [(133u32, CATALOGS), (100u32, INDEXES)] {
        let mut world = World::new(alloc, bare(&rt, alloc));
        let rows = rows_told(&rt, alloc, &mut world, table);
        assert!(rt; rows == count, "{rows} rows in place of {count}");
    }
}
