//! How runs end, and what becomes of one that is stopped, or of which a call fails.

use crate::packages::bare;
use crate::rows::{column, row_of};
use crate::runs::{rows_told, told};
use crate::world::*;
use std::alloc::Global;
use std::process::Abort;

// What a run leaves, as it ends in one way or the other.
const ENDINGS: &str = r#"
# where no image was made nothing else is made either
does | install p -> 1 no image
look | var -> absent
# something else than a directory stands where the directories of the records are to be made
put | var | x ->
run | -R i -s r image-create -p test -> 1 "bad image var line 0\n"
look | var -> file 644 "x"
remove | var ->
put | var/pkg | x ->
run | -R i -s r image-create -p test -> 1 "bad image var/pkg line 0\n"
look | var/pkg -> file 644 "x"
# they are made where nothing stands, and the repository isn't asked
remove | var/pkg ->
with | -R i -s r image-create -p test --actuator run | source 1 -> 0 "install 0, update 0, remove 0\nsteps: gone 0, fresh 3, mode 0, put 7, link 0, hard 0\ndone\n"
look | var/pkg/image -> file 644 "image 2\npublisher test\nactuator run\n"
remove | var ->
dir | var ->
dir | var/pkg ->
does | image-create -p test --actuator run -> 0 done
look | var/pkg -> dir 755
# what stands at the gate is left there
put | var/pkg/journal | x ->
put | var/pkg/gate | 1 ->
does | install p -> 1 unfinished: run fix
does | list -> 1 unfinished: run fix
does | image-create -p test -> 1 unfinished: run fix
does | fix -> 1 bad journal line 1
look | var/pkg/gate -> file 644 "1"
look | var/pkg/journal -> file 644 "x"
remove | var/pkg/gate ->
remove | var/pkg/journal ->
# actuators before a change and behind it
package | p@1 | file $abc path=p $file; driver name=p1 disable_fmri=svc:/a ->
package | p@2 | file $none path=p $file; driver name=p2 restart_fmri=svc:/b ->
package | q@1 | file $abc path=q $file; driver name=q1 disable_fmri=svc:/c ->
package | q@2 | file $none path=q $file; driver name=q2 restart_fmri=svc:/d ->
package | r@1 | file $abc path=r $file ->
package | lost@1 | file $lost path=lost $file ->
package | damaged@1 | file $damaged path=damaged $file ->
catalog | p 1 2; q 1 2; r 1; lost 1; damaged 1 ->
does | install p@1 q@1 -> 0 done
ran | -> ""
does | update q -> 0 done
ran | -> "run\0disable\0svc:/c\0\nrun\0restart\0svc:/d\0\n"
look | q -> file 644 ""
# one before it fails, or can't be run: nothing is changed, and nothing is left of what was staged
status | 3 ->
run | -R i -s r update p -> 1 "actuator failed before 3: run disable svc:/a\n"
ran | -> "run\0disable\0svc:/a\0\n"
look | p -> file 644 "abc"
does | fix -> 4 nothing to do
ran | -> ""
status | 0 ->
with | -R i -s r update p | spawner 1 -> 1 "spawn fault before\n"
ran | -> ""
look | p -> file 644 "abc"
does | fix -> 4 nothing to do
# one behind it can't be run: the image is the new one
with | -R i -s r update p | spawner 2 -> 1 "spawn fault after\n"
ran | -> "run\0disable\0svc:/a\0\n"
look | p -> file 644 ""
does | fix -> 4 nothing to do
# what was left stays behind something shown or refused, and a change takes it away
dir | var/pkg/stage ->
does | list -> 0 q@2
does | contents none -> 1 no match none
look | var/pkg/stage -> dir 755
does | install r -> 0 done
look | var/pkg/stage -> absent
does | fix -> 4 nothing to do
# a fix takes it away, and repairs nothing before the next one
remove | r ->
dir | var/pkg/stage ->
does | fix -> 0 recovered: leftovers cleared
look | var/pkg/stage -> absent
does | verify -> 1 damaged 1
does | fix -> 0 done
look | r -> file 644 "abc"
does | install r -> 4 nothing to do
# a payload that has a fault: nothing is left of what was staged
does | install lost -> 1 payload missing 3333333333333333333333333333333333333333
does | fix -> 4 nothing to do
does | install damaged -> 1 payload damaged cb4cc28df0fdbe0ecf9d9662e294b118092a5735 found c9a2a5540dcfc3ebad99e723223675d3f15edc54
does | fix -> 4 nothing to do
# a call fails: the opening sync, the look at the gate, and one on the repository
with | -R i -s r uninstall r | folder 1 -> 1 "folder fault: unchanged\n"
with | -R i -s r uninstall r | folder 2 -> 1 "folder fault: unchanged\n"
with | -R i -s r list | folder 1 -> 1 "folder fault: unchanged\n"
with | -R i -s r install lost | source 1 -> 1 "source fault\n"
does | fix -> 4 nothing to do
look | r -> file 644 "abc"
"#;

// A story has a mishap and questions, which `,` divides: what the run of a command tells to which the mishap comes (`so`), and what rows of other tables ask.
// It is told for a mishap at the first call, at the second, and so on, each time where it is told otherwise than before, up to the first run to which none comes.

// An image is made; there is one already; something is shown.
const CREATED: &str = r#"
# nothing stands: until the directories are safe, a crash may leave anything at or below them
story | before | so image-create -p test, does fix, look var, look var/pkg, look var/pkg/image -> 1 "folder fault: unchanged\n", 1 no image, absent, absent, absent; 1 "folder fault: unchanged\n", 1 no image, dir 755, dir 755, absent; 1 "folder fault: unfinished\n", 0 recovered: leftovers cleared, dir 755, dir 755, absent; 1 "folder fault: unfinished\n", 0 recovered: new image, dir 755, dir 755, file 644 "image 2\npublisher test\n"; 1 "folder fault: unfinished\n", 0 recovered: leftovers cleared, dir 755, dir 755, file 644 "image 2\npublisher test\n"; 0 "install 0, update 0, remove 0\nsteps: gone 0, fresh 3, mode 0, put 7, link 0, hard 0\ndone\n", 4 nothing to do, dir 755, dir 755, file 644 "image 2\npublisher test\n"
story | after | so image-create -p test, does fix, look var, look var/pkg, look var/pkg/image -> 1 "folder fault: unchanged\n", 1 no image, absent, absent, absent; 1 "folder fault: unchanged\n", 1 no image, dir 755, absent, absent; 1 "folder fault: unchanged\n", 1 no image, dir 755, dir 755, absent; 1 "folder fault: unchanged\n", 0 recovered: leftovers cleared, dir 755, dir 755, absent; 1 "folder fault: unfinished\n", 0 recovered: new image, dir 755, dir 755, file 644 "image 2\npublisher test\n"; 1 "folder fault: unfinished\n", 0 recovered: leftovers cleared, dir 755, dir 755, file 644 "image 2\npublisher test\n"; 1 "folder fault: unfinished\n", 4 nothing to do, dir 755, dir 755, file 644 "image 2\npublisher test\n"; 0 "install 0, update 0, remove 0\nsteps: gone 0, fresh 3, mode 0, put 7, link 0, hard 0\ndone\n", 4 nothing to do, dir 755, dir 755, file 644 "image 2\npublisher test\n"
story | gone | so image-create -p test, does fix, look var, look var/pkg, look var/pkg/image -> 1 "folder fault: unchanged\n", 1 no image, absent, absent, absent; 1 "folder fault: unchanged\n", 1 no image, dir 755, dir 755, absent; 1 "folder fault: unfinished\n", 0 recovered: leftovers cleared, dir 755, dir 755, absent; 1 "folder fault: unfinished\n", 0 recovered: new image, dir 755, dir 755, file 644 "image 2\npublisher test\n"; 1 "folder fault: unfinished\n", 0 recovered: leftovers cleared, dir 755, dir 755, file 644 "image 2\npublisher test\n"; 1 "folder fault: unfinished\n", 4 nothing to do, dir 755, dir 755, file 644 "image 2\npublisher test\n"; 0 "install 0, update 0, remove 0\nsteps: gone 0, fresh 3, mode 0, put 7, link 0, hard 0\ndone\n", 4 nothing to do, dir 755, dir 755, file 644 "image 2\npublisher test\n"
story | junk | so image-create -p test, does fix, look var, look var/pkg, look var/pkg/image -> 1 "folder fault: unchanged\n", 1 no image, absent, absent, absent; 1 "folder fault: unchanged\n", 1 no image, dir 700, absent, absent; 1 "folder fault: unchanged\n", 1 no image, dir 700, dir 700, absent; 1 "folder fault: unchanged\n", 1 no image, dir 755, dir 755, absent; 1 "folder fault: unchanged\n", 0 recovered: leftovers cleared, dir 755, dir 755, absent; 1 "folder fault: unfinished\n", 0 recovered: new image, dir 755, dir 755, file 644 "image 2\npublisher test\n"; 1 "folder fault: unfinished\n", 0 recovered: leftovers cleared, dir 755, dir 755, file 644 "image 2\npublisher test\n"; 0 "install 0, update 0, remove 0\nsteps: gone 0, fresh 3, mode 0, put 7, link 0, hard 0\ndone\n", 4 nothing to do, dir 755, dir 755, file 644 "image 2\npublisher test\n"
story | torn | so image-create -p test, does fix, look var, look var/pkg, look var/pkg/image -> 1 "folder fault: unchanged\n", 1 no image, absent, absent, absent; 1 "folder fault: unchanged\n", 1 no image, dir 755, absent, absent; 1 "folder fault: unchanged\n", 1 no image, dir 755, dir 755, absent; 1 "folder fault: unchanged\n", 0 recovered: leftovers cleared, dir 755, dir 755, absent; 1 "folder fault: unfinished\n", 0 recovered: new image, dir 755, dir 755, file 644 "image 2\npublisher test\n"; 1 "folder fault: unfinished\n", 0 recovered: leftovers cleared, dir 755, dir 755, file 644 "image 2\npublisher test\n"; 1 "folder fault: unfinished\n", 4 nothing to do, dir 755, dir 755, file 644 "image 2\npublisher test\n"; 0 "install 0, update 0, remove 0\nsteps: gone 0, fresh 3, mode 0, put 7, link 0, hard 0\ndone\n", 4 nothing to do, dir 755, dir 755, file 644 "image 2\npublisher test\n"
story | folder | so image-create -p test, does fix, look var, look var/pkg, look var/pkg/image -> 1 "folder fault: unchanged\n", 1 no image, absent, absent, absent; 1 "folder fault: unchanged\n", 1 no image, dir 755, absent, absent; 1 "folder fault: unchanged\n", 1 no image, dir 755, dir 755, absent; 1 "folder fault: unfinished\n", 0 recovered: new image, dir 755, dir 755, file 644 "image 2\npublisher test\n"; 1 "folder fault: unfinished\n", 0 recovered: leftovers cleared, dir 755, dir 755, file 644 "image 2\npublisher test\n"; 1 "folder fault: unfinished\n", 4 nothing to do, dir 755, dir 755, file 644 "image 2\npublisher test\n"; 0 "install 0, update 0, remove 0\nsteps: gone 0, fresh 3, mode 0, put 7, link 0, hard 0\ndone\n", 4 nothing to do, dir 755, dir 755, file 644 "image 2\npublisher test\n"
# `var` stands
dir | var ->
story | before | so image-create -p test, does fix, look var, look var/pkg, look var/pkg/image -> 1 "folder fault: unchanged\n", 1 no image, dir 755, absent, absent; 1 "folder fault: unchanged\n", 1 no image, dir 755, dir 755, absent; 1 "folder fault: unfinished\n", 0 recovered: leftovers cleared, dir 755, dir 755, absent; 1 "folder fault: unfinished\n", 0 recovered: new image, dir 755, dir 755, file 644 "image 2\npublisher test\n"; 1 "folder fault: unfinished\n", 0 recovered: leftovers cleared, dir 755, dir 755, file 644 "image 2\npublisher test\n"; 0 "install 0, update 0, remove 0\nsteps: gone 0, fresh 3, mode 0, put 7, link 0, hard 0\ndone\n", 4 nothing to do, dir 755, dir 755, file 644 "image 2\npublisher test\n"
story | after | so image-create -p test, does fix, look var, look var/pkg, look var/pkg/image -> 1 "folder fault: unchanged\n", 1 no image, dir 755, absent, absent; 1 "folder fault: unchanged\n", 1 no image, dir 755, dir 755, absent; 1 "folder fault: unchanged\n", 0 recovered: leftovers cleared, dir 755, dir 755, absent; 1 "folder fault: unfinished\n", 0 recovered: new image, dir 755, dir 755, file 644 "image 2\npublisher test\n"; 1 "folder fault: unfinished\n", 0 recovered: leftovers cleared, dir 755, dir 755, file 644 "image 2\npublisher test\n"; 1 "folder fault: unfinished\n", 4 nothing to do, dir 755, dir 755, file 644 "image 2\npublisher test\n"; 0 "install 0, update 0, remove 0\nsteps: gone 0, fresh 3, mode 0, put 7, link 0, hard 0\ndone\n", 4 nothing to do, dir 755, dir 755, file 644 "image 2\npublisher test\n"
story | gone | so image-create -p test, does fix, look var, look var/pkg, look var/pkg/image -> 1 "folder fault: unchanged\n", 1 no image, dir 755, absent, absent; 1 "folder fault: unchanged\n", 1 no image, dir 755, dir 755, absent; 1 "folder fault: unfinished\n", 0 recovered: leftovers cleared, dir 755, dir 755, absent; 1 "folder fault: unfinished\n", 0 recovered: new image, dir 755, dir 755, file 644 "image 2\npublisher test\n"; 1 "folder fault: unfinished\n", 0 recovered: leftovers cleared, dir 755, dir 755, file 644 "image 2\npublisher test\n"; 1 "folder fault: unfinished\n", 4 nothing to do, dir 755, dir 755, file 644 "image 2\npublisher test\n"; 0 "install 0, update 0, remove 0\nsteps: gone 0, fresh 3, mode 0, put 7, link 0, hard 0\ndone\n", 4 nothing to do, dir 755, dir 755, file 644 "image 2\npublisher test\n"
story | junk | so image-create -p test, does fix, look var, look var/pkg, look var/pkg/image -> 1 "folder fault: unchanged\n", 1 no image, dir 755, absent, absent; 1 "folder fault: unchanged\n", 1 no image, dir 755, dir 700, absent; 1 "folder fault: unchanged\n", 1 no image, dir 755, dir 755, absent; 1 "folder fault: unchanged\n", 0 recovered: leftovers cleared, dir 755, dir 755, absent; 1 "folder fault: unfinished\n", 0 recovered: new image, dir 755, dir 755, file 644 "image 2\npublisher test\n"; 1 "folder fault: unfinished\n", 0 recovered: leftovers cleared, dir 755, dir 755, file 644 "image 2\npublisher test\n"; 0 "install 0, update 0, remove 0\nsteps: gone 0, fresh 3, mode 0, put 7, link 0, hard 0\ndone\n", 4 nothing to do, dir 755, dir 755, file 644 "image 2\npublisher test\n"
story | torn | so image-create -p test, does fix, look var, look var/pkg, look var/pkg/image -> 1 "folder fault: unchanged\n", 1 no image, dir 755, absent, absent; 1 "folder fault: unchanged\n", 1 no image, dir 755, dir 755, absent; 1 "folder fault: unchanged\n", 0 recovered: leftovers cleared, dir 755, dir 755, absent; 1 "folder fault: unfinished\n", 0 recovered: new image, dir 755, dir 755, file 644 "image 2\npublisher test\n"; 1 "folder fault: unfinished\n", 0 recovered: leftovers cleared, dir 755, dir 755, file 644 "image 2\npublisher test\n"; 1 "folder fault: unfinished\n", 4 nothing to do, dir 755, dir 755, file 644 "image 2\npublisher test\n"; 0 "install 0, update 0, remove 0\nsteps: gone 0, fresh 3, mode 0, put 7, link 0, hard 0\ndone\n", 4 nothing to do, dir 755, dir 755, file 644 "image 2\npublisher test\n"
story | folder | so image-create -p test, does fix, look var, look var/pkg, look var/pkg/image -> 1 "folder fault: unchanged\n", 1 no image, dir 755, absent, absent; 1 "folder fault: unchanged\n", 1 no image, dir 755, dir 755, absent; 1 "folder fault: unfinished\n", 0 recovered: new image, dir 755, dir 755, file 644 "image 2\npublisher test\n"; 1 "folder fault: unfinished\n", 0 recovered: leftovers cleared, dir 755, dir 755, file 644 "image 2\npublisher test\n"; 1 "folder fault: unfinished\n", 4 nothing to do, dir 755, dir 755, file 644 "image 2\npublisher test\n"; 0 "install 0, update 0, remove 0\nsteps: gone 0, fresh 3, mode 0, put 7, link 0, hard 0\ndone\n", 4 nothing to do, dir 755, dir 755, file 644 "image 2\npublisher test\n"
# there is an image already
does | image-create -p test -> 0 done
story | torn | so image-create -p test, does fix -> 1 "folder fault: unchanged\n", 4 nothing to do; 1 "image exists\n", 4 nothing to do
story | folder | so image-create -p test, does fix -> 1 "folder fault: unchanged\n", 4 nothing to do; 1 "image exists\n", 4 nothing to do
# something is shown
story | after | so list, does fix -> 1 "folder fault: unchanged\n", 4 nothing to do; 0 "", 4 nothing to do
story | folder | so list, does fix -> 1 "folder fault: unchanged\n", 4 nothing to do; 0 "", 4 nothing to do
"#;

// A change, without actuators and with them.
const CHANGED: &str = r#"
does | image-create -p test --actuator run -> 0 done
package | p@1 | file $abc path=p $file; driver name=p1 disable_fmri=svc:/a ->
package | p@2 | file $none path=p $file; driver name=p2 restart_fmri=svc:/b ->
catalog | p 1 2 ->
# a change
story | before | so install p@1, does fix, look p -> 1 "folder fault: unchanged\n", 4 nothing to do, absent; 1 "folder fault: unfinished\n", 0 recovered: leftovers cleared, absent; 1 "folder fault: unfinished\n", 0 recovered: new image, file 644 "abc"; 1 "folder fault: unfinished\n", 0 recovered: leftovers cleared, file 644 "abc"; 0 "install 1, update 0, remove 0\nsteps: gone 0, fresh 0, mode 0, put 5, link 0, hard 0\ndone\n", 4 nothing to do, file 644 "abc"
story | after | so install p@1, does fix, look p -> 1 "folder fault: unchanged\n", 4 nothing to do, absent; 1 "folder fault: unchanged\n", 0 recovered: leftovers cleared, absent; 1 "folder fault: unfinished\n", 0 recovered: new image, file 644 "abc"; 1 "folder fault: unfinished\n", 0 recovered: leftovers cleared, file 644 "abc"; 1 "folder fault: unfinished\n", 4 nothing to do, file 644 "abc"; 0 "install 1, update 0, remove 0\nsteps: gone 0, fresh 0, mode 0, put 5, link 0, hard 0\ndone\n", 4 nothing to do, file 644 "abc"
story | gone | so install p@1, does fix, look p -> 1 "folder fault: unchanged\n", 4 nothing to do, absent; 1 "folder fault: unfinished\n", 0 recovered: leftovers cleared, absent; 1 "folder fault: unfinished\n", 0 recovered: new image, file 644 "abc"; 1 "folder fault: unfinished\n", 0 recovered: leftovers cleared, file 644 "abc"; 1 "folder fault: unfinished\n", 4 nothing to do, file 644 "abc"; 0 "install 1, update 0, remove 0\nsteps: gone 0, fresh 0, mode 0, put 5, link 0, hard 0\ndone\n", 4 nothing to do, file 644 "abc"
story | junk | so install p@1, does fix, look p -> 1 "folder fault: unchanged\n", 4 nothing to do, absent; 1 "folder fault: unchanged\n", 0 recovered: leftovers cleared, absent; 1 "folder fault: unfinished\n", 0 recovered: new image, file 644 "abc"; 1 "folder fault: unfinished\n", 0 recovered: leftovers cleared, file 644 "abc"; 0 "install 1, update 0, remove 0\nsteps: gone 0, fresh 0, mode 0, put 5, link 0, hard 0\ndone\n", 4 nothing to do, file 644 "abc"
story | torn | so install p@1, does fix, look p -> 1 "folder fault: unchanged\n", 4 nothing to do, absent; 1 "folder fault: unchanged\n", 0 recovered: leftovers cleared, absent; 1 "folder fault: unfinished\n", 0 recovered: new image, file 644 "abc"; 1 "folder fault: unfinished\n", 0 recovered: leftovers cleared, file 644 "abc"; 1 "folder fault: unfinished\n", 4 nothing to do, file 644 "abc"; 0 "install 1, update 0, remove 0\nsteps: gone 0, fresh 0, mode 0, put 5, link 0, hard 0\ndone\n", 4 nothing to do, file 644 "abc"
# one with actuators before it and behind it
does | install p@1 -> 0 done
story | after | so update, ran, does fix, ran, look p -> 1 "folder fault: unchanged\n", "", 4 nothing to do, "", file 644 "abc"; 1 "folder fault: unchanged\n", "", 0 recovered: leftovers cleared, "", file 644 "abc"; 1 "folder fault: unfinished\n", "run\0disable\0svc:/a\0\n", 0 recovered: new image, "", file 644 ""; 1 "folder fault: unfinished\n", "run\0disable\0svc:/a\0\n", 0 recovered: leftovers cleared, "", file 644 ""; 1 "folder fault: unfinished\n", "run\0disable\0svc:/a\0\n", 4 nothing to do, "", file 644 ""; 0 "install 0, update 1, remove 0\nsteps: gone 0, fresh 0, mode 0, put 4, link 0, hard 0\ndone\n", "run\0disable\0svc:/a\0\nrun\0restart\0svc:/b\0\n", 4 nothing to do, "", file 644 ""
story | folder | so update, ran, does fix, ran, look p -> 1 "folder fault: unchanged\n", "", 4 nothing to do, "", file 644 "abc"; 1 "folder fault: unfinished\n", "run\0disable\0svc:/a\0\n", 0 recovered: new image, "", file 644 ""; 1 "folder fault: unfinished\n", "run\0disable\0svc:/a\0\n", 0 recovered: leftovers cleared, "", file 644 ""; 1 "folder fault: unfinished\n", "run\0disable\0svc:/a\0\n", 4 nothing to do, "", file 644 ""; 0 "install 0, update 1, remove 0\nsteps: gone 0, fresh 0, mode 0, put 4, link 0, hard 0\ndone\n", "run\0disable\0svc:/a\0\nrun\0restart\0svc:/b\0\n", 4 nothing to do, "", file 644 ""
story | spawner | so update, ran, does fix, ran, look p -> 1 "spawn fault before\n", "", 4 nothing to do, "", file 644 "abc"; 1 "spawn fault after\n", "run\0disable\0svc:/a\0\n", 4 nothing to do, "", file 644 ""; 0 "install 0, update 1, remove 0\nsteps: gone 0, fresh 0, mode 0, put 4, link 0, hard 0\ndone\n", "run\0disable\0svc:/a\0\nrun\0restart\0svc:/b\0\n", 4 nothing to do, "", file 644 ""
"#;

// Fixes: of a damage, and of what was left.
const FIXED: &str = r#"
does | image-create -p test --actuator run -> 0 done
package | p@1 | file $abc path=p $file; driver name=p1 disable_fmri=svc:/a ->
package | p@2 | file $none path=p $file; driver name=p2 restart_fmri=svc:/b ->
catalog | p 1 2 ->
does | install p@1 -> 0 done
# a fix that repairs
remove | p ->
story | after | so fix, does fix, look p, does fix -> 1 "folder fault: unchanged\n", 0 done, file 644 "abc", 4 nothing to do; 1 "folder fault: unchanged\n", 0 recovered: leftovers cleared, absent, 0 done; 1 "folder fault: unfinished\n", 0 recovered: new image, file 644 "abc", 4 nothing to do; 1 "folder fault: unfinished\n", 0 recovered: leftovers cleared, file 644 "abc", 4 nothing to do; 1 "folder fault: unfinished\n", 4 nothing to do, file 644 "abc", 4 nothing to do; 0 "install 0, update 0, remove 0\nsteps: gone 0, fresh 0, mode 0, put 2, link 0, hard 0\ndone\n", 4 nothing to do, file 644 "abc", 4 nothing to do
# a fix that takes away what was left
does | fix -> 0 done
put | var/pkg/stage/0 | x ->
story | before | so fix, does fix, look var/pkg/stage, does fix -> 1 "folder fault: unchanged\n", 0 recovered: leftovers cleared, absent, 4 nothing to do; 0 "recovered: leftovers cleared\n", 4 nothing to do, absent, 4 nothing to do
story | after | so fix, does fix, look var/pkg/stage, does fix -> 1 "folder fault: unchanged\n", 0 recovered: leftovers cleared, absent, 4 nothing to do; 1 "folder fault: unchanged\n", 4 nothing to do, absent, 4 nothing to do; 0 "recovered: leftovers cleared\n", 4 nothing to do, absent, 4 nothing to do
story | gone | so fix, does fix, look var/pkg/stage, does fix -> 1 "folder fault: unchanged\n", 0 recovered: leftovers cleared, absent, 4 nothing to do; 1 "folder fault: unchanged\n", 4 nothing to do, absent, 4 nothing to do; 0 "recovered: leftovers cleared\n", 4 nothing to do, absent, 4 nothing to do
story | junk | so fix, does fix, look var/pkg/stage, does fix -> 1 "folder fault: unchanged\n", 0 recovered: leftovers cleared, absent, 4 nothing to do; 0 "recovered: leftovers cleared\n", 4 nothing to do, absent, 4 nothing to do
story | torn | so fix, does fix, look var/pkg/stage, does fix -> 1 "folder fault: unchanged\n", 0 recovered: leftovers cleared, absent, 4 nothing to do; 1 "folder fault: unchanged\n", 4 nothing to do, absent, 4 nothing to do; 0 "recovered: leftovers cleared\n", 4 nothing to do, absent, 4 nothing to do
story | folder | so fix, does fix, look var/pkg/stage, does fix -> 1 "folder fault: unchanged\n", 0 recovered: leftovers cleared, absent, 4 nothing to do; 1 "folder fault: unchanged\n", 4 nothing to do, absent, 4 nothing to do; 0 "recovered: leftovers cleared\n", 4 nothing to do, absent, 4 nothing to do
# two fixes that are stopped, one behind the other
story | before | so fix, so fix, does fix, look var/pkg/stage, does fix -> 1 "folder fault: unchanged\n", 1 "folder fault: unchanged\n", 0 recovered: leftovers cleared, absent, 4 nothing to do; 0 "recovered: leftovers cleared\n", 1 "folder fault: unchanged\n", 4 nothing to do, absent, 4 nothing to do
story | after | so fix, so fix, does fix, look var/pkg/stage, does fix -> 1 "folder fault: unchanged\n", 1 "folder fault: unchanged\n", 0 recovered: leftovers cleared, absent, 4 nothing to do; 1 "folder fault: unchanged\n", 1 "folder fault: unchanged\n", 4 nothing to do, absent, 4 nothing to do; 0 "recovered: leftovers cleared\n", 1 "folder fault: unchanged\n", 4 nothing to do, absent, 4 nothing to do
story | gone | so fix, so fix, does fix, look var/pkg/stage, does fix -> 1 "folder fault: unchanged\n", 1 "folder fault: unchanged\n", 0 recovered: leftovers cleared, absent, 4 nothing to do; 1 "folder fault: unchanged\n", 1 "folder fault: unchanged\n", 4 nothing to do, absent, 4 nothing to do; 0 "recovered: leftovers cleared\n", 1 "folder fault: unchanged\n", 4 nothing to do, absent, 4 nothing to do
story | junk | so fix, so fix, does fix, look var/pkg/stage, does fix -> 1 "folder fault: unchanged\n", 1 "folder fault: unchanged\n", 0 recovered: leftovers cleared, absent, 4 nothing to do; 0 "recovered: leftovers cleared\n", 1 "folder fault: unchanged\n", 4 nothing to do, absent, 4 nothing to do
story | torn | so fix, so fix, does fix, look var/pkg/stage, does fix -> 1 "folder fault: unchanged\n", 1 "folder fault: unchanged\n", 0 recovered: leftovers cleared, absent, 4 nothing to do; 1 "folder fault: unchanged\n", 1 "folder fault: unchanged\n", 4 nothing to do, absent, 4 nothing to do; 0 "recovered: leftovers cleared\n", 1 "folder fault: unchanged\n", 4 nothing to do, absent, 4 nothing to do
"#;

// What is told of the questions of a story, where its mishap comes to this call.
fn part_of(rt: &impl Abort, alloc: Global, world: &mut World, story: &str, call: u64) -> String {
    let mishap = column(story, 1);
    let mut part = String::new(alloc);
    for question in column(story, 2).split(',') {
        let question = question.trim();
        let (verb, what) = question.split_once(' ').unwrap_or((question, ""));
        let row = match verb {
            "so" => format!(in alloc; "with | -R i -s r {what} | {mishap} {call}"),
            _ => format!(in alloc; "{verb} | {what}"),
        };
        let told = told(rt, alloc, world, row.expect(rt, "memory").as_str());
        let between = if part.is_empty() { "" } else { ", " };
        write!(part, "{between}{told}").expect(rt, "memory");
    }
    part
}

// What a story tells, behind which the image is as before.
fn story_told(rt: &impl Abort, alloc: Global, world: &mut World, row: &str) -> String {
    let image = held(rt, alloc, world);
    let mut story = String::new(alloc);
    let mut last = String::new(alloc);
    for call in 1..200u64 {
        let part = part_of(rt, alloc, world, row, call);
        restore(rt, alloc, world, &image);
        if part.as_str() != last.as_str() {
            let between = if story.is_empty() { "" } else { "; " };
            write!(story, "{between}{part}").expect(rt, "memory");
        }
        let is_met = part
            .as_str()
            .split(',')
            .next()
            .unwrap_or("")
            .contains("fault");
        if !is_met {
            return story;
        }
        last = part;
    }
    story
}

// How many rows a table has, stories among them, each of which is told as it says.
fn stories_told(rt: &impl Abort, alloc: Global, world: &mut World, table: &str) -> u32 {
    let mut rows = 0u32;
    for line in table.lines() {
        if let Some((row, want)) = row_of(line) {
            let told = match column(row, 0) {
                "story" => story_told(rt, alloc, world, row),
                _ => told(rt, alloc, world, row),
            };
            assert!(rt; told.as_str() == want, "{row}: {told}, and not {want}");
            rows = rows.saturating_add(1);
        }
    }
    rows
}

#[test]
fn runs_end_in_each_way(rt: HostRuntime) {
    let alloc = rt.alloc();
    let mut world = World::new(alloc, bare(&rt, alloc));
    let rows = rows_told(&rt, alloc, &mut world, ENDINGS);
    assert!(rt; rows == 80, "{rows} rows");
}

#[test]
fn a_creation_that_is_stopped_is_fixed(rt: HostRuntime) {
    let alloc = rt.alloc();
    let mut world = World::new(alloc, bare(&rt, alloc));
    let rows = stories_told(&rt, alloc, &mut world, CREATED);
    assert!(rt; rows == 18, "{rows} rows");
}

#[test]
fn a_change_that_is_stopped_is_fixed(rt: HostRuntime) {
    let alloc = rt.alloc();
    let mut world = World::new(alloc, bare(&rt, alloc));
    let rows = stories_told(&rt, alloc, &mut world, CHANGED);
    assert!(rt; rows == 13, "{rows} rows");
}

#[test]
fn a_fix_that_is_stopped_is_repeated(rt: HostRuntime) {
    let alloc = rt.alloc();
    let mut world = World::new(alloc, bare(&rt, alloc));
    let rows = stories_told(&rt, alloc, &mut world, FIXED);
    assert!(rt; rows == 20, "{rows} rows");
}
