//! What settings, dependencies, mediators, accounts and actuators ask for.

use crate::packages::bare;
use crate::runs::rows_told;
use crate::world::World;

// What variants and facets take.
const SETTINGS: &str = r#"
# of two values of a variant the later one counts
does | image-create -p test --variant variant.arch=sparc --variant variant.opensolaris.zone=global --variant variant.arch=i386 --facet facet.locale.*=false --facet facet.locale.fr=true -> 0 done
look | var/pkg/image -> file 644 "image 2\npublisher test\nvariant variant.arch i386\nvariant variant.opensolaris.zone global\nfacet facet.locale.%2A false\nfacet facet.locale.fr true\n"
# two values are never both the variant's, and one that isn't set is `false`; one of the facets that are `true` is enough, but each that is `all` is needed
package | t@1 | dir path=a $dir; dir path=b $dir variant.arch=i386; dir path=c $dir variant.arch=sparc; dir path=d $dir variant.arch=i386 variant.arch=sparc; dir path=e $dir variant.debug=false; dir path=f $dir variant.debug=true; dir path=g $dir facet.doc=true; dir path=h $dir facet.locale.de=true; dir path=i $dir facet.locale.de=all; dir path=j $dir facet.locale.fr=all facet.doc=all; dir path=k $dir facet.locale.de=all facet.doc=all; dir path=l $dir facet.locale.de=true facet.doc=true; dir path=m $dir facet.locale.de=true facet.locale.it=true; dir path=n $dir facet.doc=true facet.locale.de=all; dir path=o $dir facet.locale.de=true facet.doc=all; dir path=p $dir facet.locale.de=true facet.locale.de=all; dir path=q $dir variant.arch=sparc facet.doc=true; dir path=r $dir other=facet.locale.de; dir path=s $dir variant.arc=false; file $abc path=t $file facet.doc=true facet.locale.de=all ->
catalog | t 1; f 1 ->
does | install t -> 0 done
run | -R i -s r contents t -> 0 "a\nb\ne\ng\nj\nl\nr\ns\n"
# a longer pattern decides
does | change-facet facet.locale.de=true -> 0 done
run | -R i -s r contents t -> 0 "a\nb\ne\ng\nh\ni\nj\nk\nl\nm\nn\no\np\nr\ns\nt\n"
does | change-variant variant.debug=true -> 0 done
look | var/pkg/image -> file 644 "image 2\npublisher test\nvariant variant.arch i386\nvariant variant.debug true\nvariant variant.opensolaris.zone global\nfacet facet.locale.%2A false\nfacet facet.locale.de true\nfacet facet.locale.fr true\n"
run | -R i -s r contents t -> 0 "a\nb\nf\ng\nh\ni\nj\nk\nl\nm\nn\no\np\nr\ns\nt\n"
# the longest pattern decides; of two of one length that match `*` is less than `m`
remove | var ->
does | image-create -p test --facet facet.*=false --facet facet.locale.*=false --facet facet.locale.de=true --facet facet.doc.*n=true --facet facet.doc.m*=false --facet facet.dev?l=true --facet facet.*.pdf=true -> 0 done
look | var/pkg/image -> file 644 "image 2\npublisher test\nfacet facet.%2A false\nfacet facet.%2A.pdf true\nfacet facet.dev%3Fl true\nfacet facet.doc.%2An true\nfacet facet.doc.m%2A false\nfacet facet.locale.%2A false\nfacet facet.locale.de true\n"
package | f@1 | dir path=a $dir facet.locale.de=true; dir path=b $dir facet.locale.de_DE=true; dir path=c $dir facet.locale.=true; dir path=d $dir facet.locale=true; dir path=e $dir facet.doc.man=true; dir path=f $dir facet.doc.mp=true; dir path=g $dir facet.devel=true; dir path=h $dir facet.dev?l=true; dir path=i $dir facet.doc.pdf=true; dir path=j $dir other.doc=true ->
does | install f -> 0 done
run | -R i -s r contents f -> 0 "a\ne\nh\ni\nj\n"
does | change-facet facet.locale.de=none facet.never=none -> 0 done
look | var/pkg/image -> file 644 "image 2\npublisher test\nfacet facet.%2A false\nfacet facet.%2A.pdf true\nfacet facet.dev%3Fl true\nfacet facet.doc.%2An true\nfacet facet.doc.m%2A false\nfacet facet.locale.%2A false\n"
run | -R i -s r contents f -> 0 "e\nh\ni\nj\n"
"#;

// Dependencies that hold or fail.
const SENTENCES: &str = r#"
does | image-create -p test -> 0 done
package | a@1 | set name=info value=x ->
package | a@1.9 | set name=info value=x ->
package | a@2 | set name=info value=x ->
package | a@2.1 | set name=info value=x ->
package | a@2.5-1 | set name=info value=x ->
package | a@3 | set name=info value=x ->
package | a@7 | set name=info value=x ->
package | b@1 | set name=info value=x ->
package | b@2 | set name=info value=x ->
# in each of these images `h` has dependencies that all hold, and each version of `n` has one that fails, whichever is chosen
# nothing
catalog | h 1 ->
package | h@1 | depend type=optional fmri=a; depend type=optional fmri=a@2; depend type=incorporate fmri=a; depend type=incorporate fmri=a@2; depend type=conditional predicate=b fmri=a; depend type=parent fmri=a@9; depend type=origin fmri=a@2 ->
does | install h -> 0 done
does | uninstall h -> 0 done
# b@1
catalog | b 1; h 1 ->
package | h@1 | depend type=exclude fmri=a; depend type=conditional predicate=b@2 fmri=a@3; depend type=require-any fmri=a@2 fmri=b; depend type=group-any fmri=a@2 fmri=b ->
does | install h b -> 0 done
does | uninstall h b -> 0 done
package | n@1 | depend type=require fmri=a ->
package | n@2 | depend type=require-any fmri=a ->
package | n@3 | depend type=group fmri=a ->
package | n@4 | depend type=conditional predicate=b fmri=a ->
catalog | b 1; n 1 2 3 4 ->
does | install n b -> 1 - | 0 | n1 n2 n3 n4
# a@1; a group takes any version, and an origin asks only what was there before
catalog | a 1; h 1 ->
package | h@1 | depend type=require fmri=a; depend type=optional fmri=a; depend type=group fmri=a@9; depend type=parent fmri=a fmri=b; depend type=origin fmri=a@2; depend type=exclude fmri=a@2 ->
does | install h a -> 0 done
does | uninstall h a -> 0 done
package | n@1 | depend type=optional fmri=a@2 ->
package | n@2 | depend type=incorporate fmri=a@2 ->
package | n@3 | depend type=exclude fmri=a ->
package | n@4 | depend type=require-any fmri=a@2 fmri=b ->
package | n@5 | depend type=group-any fmri=a@2 fmri=b ->
catalog | a 1; n 1 2 3 4 5 ->
does | install n a -> 1 - | 0 | n1 n3 n4 n5 n6
# a@1.9
package | n@1 | depend type=require fmri=pkg:/a@2 ->
catalog | a 1.9; n 1 ->
does | install n a -> 1 - | 0 | n0
# a@2, of whatever publisher
catalog | a 2; h 1 ->
package | h@1 | depend type=require fmri=pkg://other/a@2; depend type=require-any fmri=a@2 fmri=b; depend type=group-any fmri=a@2 fmri=b ->
does | install h a -> 0 done
does | uninstall h a -> 0 done
package | n@1 | depend type=exclude fmri=a@2 ->
catalog | a 2; n 1 ->
does | install n a -> 1 - | 0 | n0
# a greater version is new enough
catalog | a 2.1; h 1 ->
package | h@1 | depend type=require fmri=a@2 ->
does | install h a -> 0 done
does | uninstall h a -> 0 done
# a@3; a greater version isn't a refinement
catalog | a 3; h 1 ->
package | h@1 | depend type=optional fmri=a@2 ->
does | install h a -> 0 done
does | uninstall h a -> 0 done
package | n@1 | depend type=incorporate fmri=a@2 ->
catalog | a 3; n 1 ->
does | install n a -> 1 - | 0 | n0
catalog | a 7; h 1 ->
package | h@1 | depend type=incorporate fmri=a ->
does | install h a -> 0 done
does | uninstall h a -> 0 done
catalog | a 2.5-1; h 1 ->
package | h@1 | depend type=incorporate fmri=a@2 ->
does | install h a -> 0 done
does | uninstall h a -> 0 done
# a and b
catalog | a 1; b 1; h 1 ->
package | h@1 | depend type=conditional predicate=b fmri=a ->
does | install h a b -> 0 done
does | uninstall h a b -> 0 done
package | n@1 | depend type=conditional predicate=b@2 fmri=a@3 ->
catalog | a 2; b 2; n 1 ->
does | install n a b -> 1 - | 0 | n1
catalog | a 3; b 2; h 1 ->
package | h@1 | depend type=conditional predicate=b@2 fmri=a@3 ->
does | install h a b -> 0 done
does | uninstall h a b -> 0 done
# what was installed before is asked, and no more than that; one on the image that the system runs from is no matter of this one
put | var/pkg/packages/a | package 2%0aversion 1%0a ->
package | n@1 | depend type=origin fmri=a@2 ->
catalog | a 1 2; n 1 ->
does | install n a@2 -> 1 - | 0 | t0
package | n@2 | depend type=origin fmri=a@2 root-image=false ->
package | n@3 | depend type=origin fmri=a@2 root-image=TRUE ->
catalog | a 1; n 1 2 3 ->
does | install --reject a n -> 1 - | 0 | t0 t1 t2
catalog | a 1; h 1 ->
package | h@1 | depend type=origin fmri=a; depend type=origin fmri=a@2 root-image=true; depend type=origin fmri=a@2 root-image=false root-image=true ->
put | var/pkg/packages/a | package 2%0aversion 1%0a ->
does | install --reject a h -> 0 done
does | list -> 0 h@1
does | uninstall h -> 0 done
catalog | a 1 2; h 1 ->
package | h@1 | depend type=origin fmri=a@2 ->
put | var/pkg/packages/a | package 2%0aversion 2%0a ->
does | install --reject a h -> 0 done
does | list -> 0 h@1
does | uninstall h -> 0 done
# being spared is no matter but for a group dependency, and of a group of several all have to be
put | var/pkg/avoid | a%0a ->
catalog | h 1 ->
package | h@1 | depend type=group fmri=a ->
does | install h -> 0 done
does | uninstall h -> 0 done
package | n@1 | depend type=require fmri=a ->
package | n@2 | depend type=group fmri=b ->
package | n@3 | depend type=group-any fmri=a@2 fmri=b ->
catalog | n 1 2 3 ->
does | install n -> 1 - | 0 | n1 n2 n3
put | var/pkg/avoid | b%0a ->
package | n@1 | depend type=group-any fmri=a@2 fmri=b ->
catalog | n 1 ->
does | install n -> 1 - | 0 | n1
put | var/pkg/avoid | a%0ab%0a ->
catalog | h 1 ->
package | h@1 | depend type=group-any fmri=a@2 fmri=b ->
does | install h -> 0 done
does | uninstall h -> 0 done
put | var/pkg/avoid | ->
# what a dependency wants comes into reach, dependency by dependency
package | h@1 | depend type=require fmri=a; depend type=optional fmri=o; depend type=incorporate fmri=i@1; depend type=exclude fmri=x; depend fmri=c predicate=b type=conditional; depend type=require-any fmri=r3 fmri=r1 fmri=r2; depend type=group fmri=g/h; depend type=group-any fmri=g3 fmri=g1 fmri=g2; depend type=parent fmri=p fmri=q; depend type=origin fmri=e ->
catalog | h 1 ->
run | -R i -s r install h -> 1 "no solution\nstem 0 h 1\nstem 1 a -\nstem 2 c -\nstem 3 r3 -\nstem 4 r1 -\nstem 5 r2 -\nstem 6 g/h -\nstem 7 g3 -\nstem 8 g1 -\nstem 9 g2 -\nrefutation 2\n0.0 | 1 | t0\n- | 0 | n0\n"
"#;

// Actions that are no dependencies.
const DEPENDENCIES: &str = r#"
does | image-create -p test --variant variant.arch=i386 -> 0 done
catalog | p 1 ->
package | p@1 | depend type=Require fmri=a ->
does | install p -> 1 bad depend p@1 line 1
package | p@1 | depend type=Origin fmri=a ->
does | install p -> 1 bad depend p@1 line 1
package | p@1 | set name=a; depend type=group_any fmri=a fmri=b ->
does | install p -> 1 bad depend p@1 line 2
# more than one FMRI
package | p@1 | depend type=group fmri=a fmri=a ->
does | install p -> 1 bad depend p@1 line 1
package | p@1 | depend type=conditional predicate=b fmri=a fmri=c ->
does | install p -> 1 bad depend p@1 line 1
package | p@1 | depend type=origin fmri=a fmri=b ->
does | install p -> 1 bad depend p@1 line 1
# no predicate, or one too many
package | p@1 | depend type=require-any predicate=b fmri=a ->
does | install p -> 1 bad depend p@1 line 1
package | p@1 | depend type=group-any predicate=b fmri=a ->
does | install p -> 1 bad depend p@1 line 1
package | p@1 | depend type=origin predicate=b fmri=a ->
does | install p -> 1 bad depend p@1 line 1
# what is no FMRI
package | p@1 | depend type=require fmri=a@1.x ->
does | install p -> 1 bad depend p@1 line 1
package | p@1 | depend type=conditional predicate=a@ fmri=a ->
does | install p -> 1 bad depend p@1 line 1
package | p@1 | depend type=require-any fmri=a fmri=* ->
does | install p -> 1 bad depend p@1 line 1
package | p@1 | depend type=parent fmri=/a ->
does | install p -> 1 bad depend p@1 line 1
# the first such line, by its first physical line
stock | publisher/test/pkg/p/1 | depend type=require fmri=a%0a# c%0a%0adepend \%0atype=no fmri=a%0adepend type=no fmri=a%0a ->
does | install p -> 1 bad depend p@1 line 4
# a line that isn't taken isn't judged
package | p@1 | depend type=no fmri=a variant.arch=sparc; depend type=no fmri=b variant.arch=i386 ->
does | install p -> 1 bad depend p@1 line 2
# none is bad here
package | p@1 | depend type=origin fmri=a; depend type=no fmri=a variant.arch=sparc; set name=depend type=no ->
does | install p -> 0 done
does | uninstall p -> 0 done
package | p@1 | set name=a; depend type=group-any fmri=a fmri=b ->
does | install p -> 1 - | 0 | n1
"#;

// Links of mediators.
const MEDIATIONS: &str = r#"
does | image-create -p test -> 0 done
catalog | p 1 ->
# the vendor's comes before a greater version, the site's before both; the priority is the greatest of a mediation's links
# versions by number, and none is least; no implementation first, then the least
package | p@1 | link mediator=m0 path=m0 target=0 mediator-version=2.7 mediator-priority=vendor; link mediator=m0 path=m0 target=1 mediator-version=3.9; link mediator=m0 path=m0 target=2 mediator-version=3.10; link mediator=m0 path=m0 target=3; link mediator=m1 path=m1 target=0 mediator-version=2.7 mediator-priority=vendor; link mediator=m1 path=m1 target=1 mediator-version=3.9; link mediator=m1 path=m1 target=2 mediator-version=1 mediator-priority=site; link mediator=m2 path=m2/path target=0 mediator-version=3.9; link mediator=m2 path=m2/path target=1 mediator-version=2.7 mediator-priority=vendor; link mediator=m2 path=m2/path target=2 mediator-version=3.10; link mediator=m2 path=m2/site target=3 mediator-version=3.9 mediator-priority=site; link mediator=m3 path=m3 target=0 mediator-version=3.9; link mediator=m3 path=m3 target=1 mediator-version=3.10; link mediator=m3 path=m3 target=2; link mediator=m4 path=m4 target=0 mediator-version=3.10 mediator-implementation=pypy; link mediator=m4 path=m4 target=1 mediator-version=3.10 mediator-implementation=cpy; link mediator=m5 path=m5 target=0 mediator-version=3.10 mediator-implementation=pypy; link mediator=m5 path=m5 target=1 mediator-version=3.10; link mediator=m5 path=m5 target=2 mediator-version=3.10 mediator-implementation=cpy ->
does | install p -> 0 done
look | m0 -> link "0"
look | m1 -> link "2"
look | m2/path -> link "0"
look | m2/site -> link "3"
look | m3 -> link "1"
look | m4 -> link "1"
look | m5 -> link "1"
does | uninstall p -> 0 done
# what is set leaves those that fit
package | p@1 | link mediator=s0 path=s0 target=0 mediator-version=2.7 mediator-priority=vendor; link mediator=s0 path=s0 target=1 mediator-version=3.9; link mediator=s0 path=s0 target=2 mediator-version=3.10 mediator-implementation=pypy; link mediator=s0 path=s0 target=3 mediator-version=3.10 mediator-implementation=cpy; link mediator=s0 path=s0 target=4; link mediator=s1 path=s1 target=0 mediator-version=2.7 mediator-priority=vendor; link mediator=s1 path=s1 target=1 mediator-version=3.9; link mediator=s1 path=s1 target=2 mediator-version=3.10 mediator-implementation=pypy; link mediator=s1 path=s1 target=3 mediator-version=3.10 mediator-implementation=cpy; link mediator=s1 path=s1 target=4; link mediator=s2 path=s2 target=0 mediator-version=2.7 mediator-priority=vendor; link mediator=s2 path=s2 target=1 mediator-version=3.9; link mediator=s2 path=s2 target=2 mediator-version=3.10 mediator-implementation=pypy; link mediator=s2 path=s2 target=3 mediator-version=3.10 mediator-implementation=cpy; link mediator=s2 path=s2 target=4; link mediator=s3 path=s3 target=0 mediator-version=2.7 mediator-priority=vendor; link mediator=s3 path=s3 target=1 mediator-version=3.9; link mediator=s3 path=s3 target=2 mediator-version=3.10 mediator-implementation=pypy; link mediator=s3 path=s3 target=3 mediator-version=3.10 mediator-implementation=cpy; link mediator=s3 path=s3 target=4; link mediator=s4 path=s4 target=0 mediator-version=2.7 mediator-priority=vendor; link mediator=s4 path=s4 target=1 mediator-version=3.9; link mediator=s4 path=s4 target=2 mediator-version=3.10 mediator-implementation=pypy; link mediator=s4 path=s4 target=3 mediator-version=3.10 mediator-implementation=cpy; link mediator=s4 path=s4 target=4; link mediator=s5 path=s5 target=0 mediator-version=2.7 mediator-priority=vendor; link mediator=s5 path=s5 target=1 mediator-version=3.9; link mediator=s5 path=s5 target=2 mediator-version=3.10 mediator-implementation=pypy; link mediator=s5 path=s5 target=3 mediator-version=3.10 mediator-implementation=cpy; link mediator=s5 path=s5 target=4; link mediator=s6 path=s6 target=0 mediator-version=2.7 mediator-priority=vendor; link mediator=s6 path=s6 target=1 mediator-version=3.9; link mediator=s6 path=s6 target=2 mediator-version=3.10 mediator-implementation=pypy; link mediator=s6 path=s6 target=3 mediator-version=3.10 mediator-implementation=cpy; link mediator=s6 path=s6 target=4; link mediator=s7 path=s7 target=0 mediator-version=2.7 mediator-priority=vendor; link mediator=s7 path=s7 target=1 mediator-version=3.9; link mediator=s7 path=s7 target=2 mediator-version=3.10 mediator-implementation=pypy; link mediator=s7 path=s7 target=3 mediator-version=3.10 mediator-implementation=cpy; link mediator=s7 path=s7 target=4 ->
put | var/pkg/mediators | s0 3.9 -%0as1 3.10 -%0as2 3.10 pypy%0as3 - pypy%0as4 - -%0as5 4.0 -%0as6 3.9 pypy%0as7 3.9-1 -%0a ->
does | install p -> 0 done
look | s0 -> link "1"
look | s1 -> link "3"
look | s2 -> link "2"
look | s3 -> link "2"
look | s4 -> link "0"
look | s5 -> absent
look | s6 -> absent
look | s7 -> absent
does | uninstall p -> 0 done
# two links are of one mediation by version and implementation, whatever their priorities
package | p@1 | link mediator=t0 path=t0/a target=x mediator-version=2.7 mediator-priority=vendor; link mediator=t0 path=t0/b target=y mediator-version=2.7; link mediator=t1 path=t1/a target=x mediator-version=3.9; link mediator=t1 path=t1/b target=y mediator-version=3.10; link mediator=t2 path=t2/a target=x mediator-version=3.10; link mediator=t2 path=t2/b target=y mediator-version=3.10 mediator-implementation=pypy; link mediator=t3 path=t3/a target=x mediator-version=3.10 mediator-implementation=pypy; link mediator=t3 path=t3/b target=y mediator-version=3.10 mediator-implementation=cpy; link mediator=t4 path=t4/a target=x; link mediator=t4 path=t4/b target=y; link mediator=t5 path=t5/a target=x; link mediator=t5 path=t5/b target=y mediator-version=3.9 ->
does | install p -> 0 done
look | t0/a -> link "x"
look | t0/b -> link "y"
look | t1/a -> absent
look | t1/b -> link "y"
look | t2/a -> link "x"
look | t2/b -> absent
look | t3/a -> absent
look | t3/b -> link "y"
look | t4/a -> link "x"
look | t4/b -> link "y"
look | t5/a -> absent
look | t5/b -> link "y"
"#;

// Account files.
const ACCOUNTS: &str = r#"
does | image-create -p test -> 0 done
catalog | p 2 ->
# a group and its user where no file stands
package | p@2 | group groupname=svc gid=70; user username=svc uid=70 group=svc ->
does | install p -> 0 done
look | etc/passwd -> file 644 "svc:x:70:70:& User:/:\n"
look | etc/shadow -> file 400 "svc:*LK*:::::::\n"
look | etc/group -> file 644 "svc::70:\n"
remove | var/pkg/packages/p ->
# another user wants the number
put | var/pkg/packages/p | package 2%0aversion 1%0auser username=svc uid=70 group=svc%0a ->
package | p@2 | user username=svc uid=70 group=svc; user username=tvc uid=70 group=svc ->
does | update -> 1 id taken 70
remove | var/pkg/packages/p ->
# a line that isn't one of its file: passwd before shadow before group
put | etc/passwd | a:b ->
put | etc/shadow | ->
put | etc/group | ->
package | p@2 | user username=svc group=bin ->
does | install p -> 1 bad account line passwd 1
put | etc/passwd | #%0aa:b ->
put | etc/shadow | c ->
put | etc/group | d ->
does | install p -> 1 bad account line passwd 2
put | etc/passwd | ->
put | etc/shadow | #%0a%0ac ->
does | install p -> 1 bad account line shadow 3
put | etc/shadow | ->
put | etc/group | g::007: ->
does | install p -> 1 bad account line group 1
put | etc/group | g::4294967296: ->
does | install p -> 1 bad account line group 1
# a number that is another name's is told before a group that has none, and that one where no number is taken
put | etc/passwd | a:x:1:1::/:%0a ->
put | etc/group | ->
package | p@2 | user username=b group=none; user username=c uid=1 group=bin ->
does | install p -> 1 id taken 1
put | etc/passwd | ->
package | p@2 | user username=b group=none ->
does | install p -> 1 unknown owner none of etc/group
# without a number: that of the line that stands, else the least free one
put | etc/passwd | a:x:1:1::/:%0ab:x:3:1::/:%0a ->
package | p@2 | user username=c group=bin ->
does | install p -> 0 done
look | etc/passwd -> file 644 "a:x:1:1::/:\nb:x:3:1::/:\nc:x:2:2:& User:/:\n"
look | etc/shadow -> file 644 "c:*LK*:::::::\n"
remove | var/pkg/packages/p ->
put | etc/passwd | a:x:7:1::/:%0a ->
put | etc/shadow | a:p:::::::%0a ->
package | p@2 | user username=a group=bin home-dir=/a login-shell=/sh password=q ->
does | install p -> 0 done
look | etc/passwd -> file 644 "a:x:7:2:& User:/a:/sh\n"
look | etc/shadow -> file 644 "a:p:::::::\n"
remove | var/pkg/packages/p ->
# a line without its newline is rewritten so, and gets it where another is added
put | etc/passwd | a:x:1:1::/: ->
put | etc/shadow | a:p::::::: ->
package | p@2 | user username=a group=bin ->
does | install p -> 0 done
look | etc/passwd -> file 644 "a:x:1:2:& User:/:"
look | etc/shadow -> file 644 "a:p:::::::"
remove | var/pkg/packages/p ->
put | etc/passwd | a:x:1:1::/: ->
package | p@2 | user username=b uid=9 group=bin ->
does | install p -> 0 done
look | etc/passwd -> file 644 "a:x:1:1::/:\nb:x:9:2:& User:/:\n"
look | etc/shadow -> file 644 "a:p:::::::\nb:*LK*:::::::\n"
remove | var/pkg/packages/p ->
# lines that speak of no one are kept
put | etc/passwd | +a%0a#b:x%0a%0a-c:::::: ->
put | etc/shadow | ->
put | etc/group | +g ->
package | p@2 | user username=a group=bin ->
does | install p -> 0 done
look | etc/passwd -> file 644 "+a\n#b:x\n\n-c::::::\na:x:1:2:& User:/:\n"
look | etc/shadow -> file 644 "a:*LK*:::::::\n"
look | etc/group -> file 644 "+g"
remove | var/pkg/packages/p ->
# a user in three groups goes; a group keeps its line when its last member goes
put | etc/passwd | u:x:5:2::/:%0a ->
put | etc/shadow | u:p:::::::%0a ->
put | etc/group | g::1:u%0ah::2:v,u%0ai::3:u,w%0aj::4:v ->
put | var/pkg/packages/p | package 2%0aversion 1%0auser username=u group=bin group-list=g group-list=h group-list=i%0a ->
does | uninstall p -> 0 done
look | etc/passwd -> file 644 ""
look | etc/shadow -> file 644 ""
look | etc/group -> file 644 "g::1:\nh::2:v\ni::3:w\nj::4:v"
remove | var/pkg/packages/p ->
# a group goes with all its lines
put | etc/group | g::1:a%0ah::2:%0ag::3: ->
put | var/pkg/packages/p | package 2%0aversion 1%0agroup groupname=g%0a ->
does | uninstall p -> 0 done
look | etc/group -> file 644 "h::2:\n"
remove | var/pkg/packages/p ->
# a user becomes the last member of each of its groups that has a line, once
put | etc/group | g::1:a%0ah::2:%0ai::3:u,a ->
package | p@2 | user username=u group=g group-list=g group-list=h group-list=i group-list=none ->
does | install p -> 0 done
look | etc/passwd -> file 644 "u:x:1:1:& User:/:\n"
look | etc/shadow -> file 644 "u:*LK*:::::::\n"
look | etc/group -> file 644 "g::1:a,u\nh::2:u\ni::3:u,a"
remove | var/pkg/packages/p ->
# a group that stands keeps its members and its number
put | etc/passwd | ->
put | etc/shadow | ->
put | etc/group | g:x:8:a,b%0a ->
package | p@2 | group groupname=g ->
does | install p -> 0 done
look | etc/group -> file 644 "g::8:a,b\n"
remove | var/pkg/packages/p ->
# two users of one number that stand: what the edit isn't about isn't judged, and a user keeps no number that is another's
put | etc/passwd | a:x:1:1::/:%0ab:x:1:1::/:%0a ->
put | etc/shadow | a:p:::::::%0ab:p:::::::%0a ->
put | etc/group | ->
package | p@2 | user username=c group=bin ->
does | install p -> 0 done
look | etc/passwd -> file 644 "a:x:1:1::/:\nb:x:1:1::/:\nc:x:2:2:& User:/:\n"
look | etc/shadow -> file 644 "a:p:::::::\nb:p:::::::\nc:*LK*:::::::\n"
remove | var/pkg/packages/p ->
put | etc/passwd | a:x:1:1::/:%0ab:x:1:1::/:%0a ->
put | etc/shadow | ->
package | p@2 | user username=a group=bin ->
does | install p -> 1 id taken 1
# a number that a user gives up is free for the next, and users come by the bytes of their names
put | etc/passwd | a:x:1:1::/:%0a ->
package | p@2 | user username=b group=bin; user username=a uid=9 group=bin ->
does | install p -> 0 done
look | etc/passwd -> file 644 "a:x:9:2:& User:/:\nb:x:1:2:& User:/:\n"
look | etc/shadow -> file 644 "a:*LK*:::::::\nb:*LK*:::::::\n"
remove | var/pkg/packages/p ->
put | etc/passwd | ->
put | etc/shadow | ->
package | p@2 | user username=c group=bin; user username=a group=bin; user username=b group=bin ->
does | install p -> 0 done
look | etc/passwd -> file 644 "a:x:1:2:& User:/:\nb:x:2:2:& User:/:\nc:x:3:2:& User:/:\n"
look | etc/shadow -> file 644 "a:*LK*:::::::\nb:*LK*:::::::\nc:*LK*:::::::\n"
remove | var/pkg/packages/p ->
# two of one name clash
put | etc/passwd | ->
put | etc/shadow | ->
package | p@2 | user username=a uid=3 group=bin; user username=a uid=3 group=bin home-dir=/x ->
does | install p -> 1 clash a p:1 p:2
look | etc/passwd -> file 644 ""
look | etc/shadow -> file 644 ""
# a number falls free below one that is free, and behind all numbers that are used the next is given
put | etc/passwd | a:x:1:1::/:%0ab:x:2:1::/:%0a ->
put | etc/shadow | ->
package | p@2 | user username=a uid=7 group=bin; user username=c group=bin; user username=d group=bin ->
does | install p -> 0 done
look | etc/passwd -> file 644 "a:x:7:2:& User:/:\nb:x:2:1::/:\nc:x:1:2:& User:/:\nd:x:3:2:& User:/:\n"
look | etc/shadow -> file 644 "a:*LK*:::::::\nc:*LK*:::::::\nd:*LK*:::::::\n"
remove | var/pkg/packages/p ->
# of several lines of a name the first is rewritten
put | etc/passwd | a:x:1:1::/:%0aa:x:2:1::/:%0a ->
put | etc/shadow | ->
package | p@2 | user username=a group=bin ->
does | install p -> 0 done
look | etc/passwd -> file 644 "a:x:1:2:& User:/:\na:x:2:1::/:\n"
look | etc/shadow -> file 644 "a:*LK*:::::::\n"
remove | var/pkg/packages/p ->
# a group that gets another number keeps its members, and a new user joins behind them
put | etc/passwd | ->
put | etc/shadow | ->
put | etc/group | g::8:a,b%0a ->
package | p@2 | group groupname=g gid=9; user username=c group=g group-list=g ->
does | install p -> 0 done
look | etc/passwd -> file 644 "c:x:1:9:& User:/:\n"
look | etc/shadow -> file 644 "c:*LK*:::::::\n"
look | etc/group -> file 644 "g::9:a,b,c\n"
remove | var/pkg/packages/p ->
# a line that stays asks for nothing
put | etc/passwd | ->
put | etc/shadow | ->
put | etc/group | ->
put | var/pkg/packages/p | package 2%0aversion 1%0auser username=a group=none%0a ->
package | p@2 | user username=a group=none ->
does | update -> 0 done
remove | var/pkg/packages/p ->
# groups come before users, each by the bytes of their names
package | p@2 | user username=b group=b; user username=a group=b; group groupname=b; group groupname=a ->
does | install p -> 0 done
look | etc/passwd -> file 644 "a:x:1:2:& User:/:\nb:x:2:2:& User:/:\n"
look | etc/shadow -> file 644 "a:*LK*:::::::\nb:*LK*:::::::\n"
look | etc/group -> file 644 "a::1:\nb::2:\n"
remove | var/pkg/packages/p ->
# owners have numbers
remove | etc ->
put | etc/passwd | root:x:7:1::/:%0aroot:x:8:1::/:%0a ->
put | etc/group | g::9: ->
package | p@2 | group groupname=z; dir path=d group=g mode=0755 owner=root ->
does | install p -> 0 done
look | var/pkg/owners -> file 644 "7 9 root g d\n"
remove | var/pkg/packages/p ->
remove | etc ->
package | p@2 | dir path=d group=tty mode=0755 owner=root ->
does | install p -> 0 done
look | var/pkg/owners -> file 644 "0 7 root tty d\n"
remove | var/pkg/packages/p ->
package | p@2 | dir path=d group=mail mode=0755 owner=adm ->
does | install p -> 0 done
look | var/pkg/owners -> file 644 "4 6 adm mail d\n"
remove | var/pkg/packages/p ->
package | p@2 | dir path=d group=root mode=0755 owner=mail ->
does | install p -> 1 unknown owner mail of d
package | p@2 | dir path=d group=none mode=0755 owner=none ->
does | install p -> 1 unknown owner none of d
package | p@2 | dir path=d group=daemon mode=0755 owner=root ->
does | install p -> 1 unknown owner daemon of d
"#;

// What the actuator of an image is run with, and records.
const ACTUATORS: &str = r#"
does | image-create -p test --actuator run -> 0 done
catalog | p 2 ->
# a service is started again behind the change
package | p@2 | driver name=d restart_fmri=svc:/a ->
does | install p -> 0 done
ran | -> "run\0restart\0svc:/a\0\n"
remove | var/pkg/packages/p ->
put | var/pkg/packages/p | package 2%0aversion 1%0adriver name=d restart_fmri=svc:/a%0a ->
does | uninstall p -> 0 done
ran | -> "run\0restart\0svc:/a\0\n"
# a service is run once for each verb, by bytes
package | p@2 | driver name=d restart_fmri=svc:/b restart_fmri=svc:/a; driver name=e restart_fmri=svc:/a ->
does | install p -> 0 done
ran | -> "run\0restart\0svc:/a\0\nrun\0restart\0svc:/b\0\n"
remove | var/pkg/packages/p ->
package | p@2 | driver name=d restart_fmri=svc:/a refresh_fmri=svc:/a ->
does | install p -> 0 done
ran | -> "run\0refresh\0svc:/a\0\nrun\0restart\0svc:/a\0\n"
remove | var/pkg/packages/p ->
# what is suspended is enabled behind the change
put | var/pkg/packages/p | package 2%0aversion 1%0adriver name=d suspend_fmri=svc:/a%0a ->
does | uninstall p -> 0 done
ran | -> "run\0suspend\0svc:/a\0\nrun\0enable\0svc:/a\0\n"
# an action that goes disables, unless another of its kind and name comes
put | var/pkg/packages/p | package 2%0aversion 1%0adriver name=d disable_fmri=svc:/a%0a ->
does | uninstall p -> 0 done
ran | -> "run\0disable\0svc:/a\0\n"
put | var/pkg/packages/p | package 2%0aversion 1%0adriver name=d disable_fmri=svc:/a%0a ->
package | p@2 | driver name=e ->
does | update -> 0 done
ran | -> "run\0disable\0svc:/a\0\n"
remove | var/pkg/packages/p ->
put | var/pkg/packages/p | package 2%0aversion 1%0adriver name=d disable_fmri=svc:/a%0a ->
package | p@2 | driver name=d ->
does | update -> 0 done
ran | -> ""
remove | var/pkg/packages/p ->
package | p@2 | driver name=d disable_fmri=svc:/a ->
does | install p -> 0 done
ran | -> ""
remove | var/pkg/packages/p ->
# what is disabled isn't run with another verb
put | var/pkg/packages/p | package 2%0aversion 1%0adriver name=d disable_fmri=svc:/a suspend_fmri=svc:/a restart_fmri=svc:/b%0a ->
does | uninstall p -> 0 done
ran | -> "run\0disable\0svc:/a\0\nrun\0restart\0svc:/b\0\n"
# a line that stays asks for nothing
put | var/pkg/packages/p | package 2%0aversion 1%0adriver name=d restart_fmri=svc:/a%0a ->
package | p@2 | driver name=d restart_fmri=svc:/a ->
does | update -> 0 done
ran | -> ""
remove | var/pkg/packages/p ->
# all run, in order, where each ends with 0
package | p@2 | driver name=d ->
does | install p -> 0 done
ran | -> ""
remove | var/pkg/packages/p ->
package | p@2 | driver name=d restart_fmri=a ->
does | install p -> 0 done
ran | -> "run\0restart\0a\0\n"
remove | var/pkg/packages/p ->
package | p@2 | driver name=d restart_fmri=a restart_fmri=b restart_fmri=c ->
does | install p -> 0 done
ran | -> "run\0restart\0a\0\nrun\0restart\0b\0\nrun\0restart\0c\0\n"
remove | var/pkg/packages/p ->
# the first that ends with another status ends the list; it ran, and what stands behind it didn't
status | 1 ->
does | install p -> 1 actuator failed after 1: run restart a
ran | -> "run\0restart\0a\0\n"
status | 0 ->
remove | var/pkg/packages/p ->
# one that can't be run ends the list, and didn't run
with | -R i -s r install p | spawner 1 -> 1 "spawn fault after\n"
ran | -> ""
remove | var/pkg/packages/p ->
with | -R i -s r install p | spawner 2 -> 1 "spawn fault after\n"
ran | -> "run\0restart\0a\0\n"
remove | var/pkg/packages/p ->
with | -R i -s r install p | spawner 3 -> 1 "spawn fault after\n"
ran | -> "run\0restart\0a\0\nrun\0restart\0b\0\n"
remove | var/pkg/packages/p ->
with | -R i -s r install p | spawner 4 -> 0 "install 1, update 0, remove 0\nsteps: gone 0, fresh 0, mode 0, put 2, link 0, hard 0\ndone\n"
ran | -> "run\0restart\0a\0\nrun\0restart\0b\0\nrun\0restart\0c\0\n"
remove | var/pkg/packages/p ->
package | p@2 | driver name=d restart_fmri=a restart_fmri=b restart_fmri=c(c*980) ->
does | install p -> 1 spawn fault after
ran | -> "run\0restart\0a\0\nrun\0restart\0b\0\n"
remove | var/pkg/packages/p ->
# which comes first is told
package | p@2 | driver name=d restart_fmri=a restart_fmri=b restart_fmri=c ->
status | 5 ->
with | -R i -s r install p | spawner 2 -> 1 "actuator failed after 5: run restart a\n"
ran | -> "run\0restart\0a\0\n"
status | 0 ->
remove | var/pkg/packages/p ->
status | 5 ->
with | -R i -s r install p | spawner 1 -> 1 "spawn fault after\n"
ran | -> ""
status | 0 ->
remove | var/pkg/packages/p ->
# drivers are recorded by their lines, owners and licenses by quoted names, and legacy packages where they were looked for
put | etc/passwd | nobody:x:4294967295:0::/:%0awho:x:70:1::/:%0a ->
put | etc/group | grp::71:%0aroot::0:%0a ->
package | p@2 | group groupname=grp gid=71; driver name=b; driver name=a; set name=n value=v; driver name=b; dir path=usr/share group=sys mode=0755 owner=root; dir path="a b" group=grp mode=0755 owner=who; dir path=x group=root mode=0755 owner=nobody; legacy pkg=SUNWa vendor=V name=A version=1; legacy pkg=SUNWb ->
package | a/b+c@1 | license $abc license="GPL v2" ->
package | hello@1 | license $abc license=lic ->
catalog | p 2; a/b+c 1; hello 1 ->
does | install p a/b+c hello -> 0 done
look | var/pkg/drivers -> file 644 "driver name=a\ndriver name=b\n"
look | var/pkg/owners -> file 644 "70 71 who grp a%20b\n0 3 root sys usr/share\n4294967295 0 nobody root x\n"
look | var/pkg/license/hello/lic -> file 644 "abc"
look | var/pkg/license/a%2Fb%2Bc/GPL%20v2 -> file 644 "abc"
look | var/sadm/pkg/SUNWa/pkginfo -> file 644 "PKG=SUNWa\nNAME=A\nVERSION=1\nVENDOR=V\n"
look | var/sadm/pkg/SUNWb/pkginfo -> file 644 "PKG=SUNWb\n"
"#;

#[test]
fn settings_and_dependencies_decide(rt: HostRuntime) {
    let alloc = rt.alloc();
    for (count, table) in [
        (20u32, SETTINGS),
        (118u32, SENTENCES),
        (37u32, DEPENDENCIES),
        (38u32, MEDIATIONS),
    ] {
        let mut world = World::new(alloc, bare(&rt, alloc));
        let rows = rows_told(&rt, alloc, &mut world, table);
        assert!(rt; rows == count, "{rows} rows in place of {count}");
    }
}

#[test]
fn accounts_and_actuators_follow(rt: HostRuntime) {
    let alloc = rt.alloc();
    for (count, table) in [(188u32, ACCOUNTS), (102u32, ACTUATORS)] {
        let mut world = World::new(alloc, bare(&rt, alloc));
        let rows = rows_told(&rt, alloc, &mut world, table);
        assert!(rt; rows == count, "{rows} rows in place of {count}");
    }
}
