//! The lists and the index of an image: what each file may hold, or its first bad line.

use crate::packages::bare;
use crate::runs::rows_told;
use crate::world::World;

// Files that list one thing a line. What a file holds is seen in what a command adds to it.
const LISTS: &str = r#"
does | image-create -p test -> 0 done
# stems, by their bytes
put | var/pkg/avoid | ->
does | avoid z -> 0 done
look | var/pkg/avoid -> file 644 "z\n"
put | var/pkg/avoid | a%0aa-b%0aa/b%0a ->
does | avoid z -> 0 done
look | var/pkg/avoid -> file 644 "a\na-b\na/b\nz\n"
put | var/pkg/avoid | a/b%0aa-b%0a ->
does | list -> 1 bad image var/pkg/avoid line 2
put | var/pkg/avoid | a%0ab ->
does | list -> 1 bad image var/pkg/avoid line 2
put | var/pkg/avoid | a ->
does | list -> 1 bad image var/pkg/avoid line 1
put | var/pkg/avoid | %0a ->
does | list -> 1 bad image var/pkg/avoid line 1
put | var/pkg/avoid | a%0a%0ab%0a ->
does | list -> 1 bad image var/pkg/avoid line 2
put | var/pkg/avoid | a%0aa%0a ->
does | list -> 1 bad image var/pkg/avoid line 2
put | var/pkg/avoid | b%0aa%0a ->
does | list -> 1 bad image var/pkg/avoid line 2
put | var/pkg/avoid | a b%0a ->
does | list -> 1 bad image var/pkg/avoid line 1
put | var/pkg/avoid | a@1%0a ->
does | list -> 1 bad image var/pkg/avoid line 1
put | var/pkg/avoid | pkg:/a%0a ->
does | list -> 1 bad image var/pkg/avoid line 1
put | var/pkg/avoid | %ff%0a ->
does | list -> 1 bad image var/pkg/avoid line 1
remove | var/pkg/avoid ->
does | list -> 1 bad image var/pkg/avoid line 0
dir | var/pkg/avoid ->
does | list -> 1 bad image var/pkg/avoid line 0
put | var/pkg/avoid | ->
# stems at versions, by the bytes of the stems
put | var/pkg/freeze | ->
does | freeze z@1 -> 0 done
look | var/pkg/freeze -> file 644 "z@1\n"
put | var/pkg/freeze | a@1%0ab/c@1.2,5.11-3:20240102T030405Z%0a ->
does | freeze z@1 -> 0 done
look | var/pkg/freeze -> file 644 "a@1\nb/c@1.2,5.11-3:20240102T030405Z\nz@1\n"
put | var/pkg/freeze | a%0a ->
does | list -> 1 bad image var/pkg/freeze line 1
put | var/pkg/freeze | a@01%0a ->
does | list -> 1 bad image var/pkg/freeze line 1
put | var/pkg/freeze | a@1%0aa@2%0a ->
does | list -> 1 bad image var/pkg/freeze line 2
put | var/pkg/freeze | b@1%0aa@1%0a ->
does | list -> 1 bad image var/pkg/freeze line 2
put | var/pkg/freeze | pkg://test/a@1%0a ->
does | list -> 1 bad image var/pkg/freeze line 1
put | var/pkg/freeze | a@1%0ab@1 ->
does | list -> 1 bad image var/pkg/freeze line 2
put | var/pkg/freeze | %0a ->
does | list -> 1 bad image var/pkg/freeze line 1
put | var/pkg/freeze | a@1 %0a ->
does | list -> 1 bad image var/pkg/freeze line 1
put | var/pkg/freeze | a-b@1%0aa/b@1%0a ->
does | freeze z@1 -> 0 done
look | var/pkg/freeze -> file 644 "a-b@1\na/b@1\nz@1\n"
put | var/pkg/freeze | a/b@1%0aa-b@1%0a ->
does | list -> 1 bad image var/pkg/freeze line 2
put | var/pkg/freeze | %ff%0a ->
does | list -> 1 bad image var/pkg/freeze line 1
remove | var/pkg/freeze ->
does | list -> 1 bad image var/pkg/freeze line 0
dir | var/pkg/freeze ->
does | list -> 1 bad image var/pkg/freeze line 0
put | var/pkg/freeze | ->
# mediators, by the bytes of their names as they are before they are quoted
put | var/pkg/mediators | ->
does | set-mediator -V 1 z -> 0 done
look | var/pkg/mediators -> file 644 "z 1 -\n"
put | var/pkg/mediators | a - -%0ab%252Fc 1.2 x%0a ->
does | set-mediator -V 1 z -> 0 done
look | var/pkg/mediators -> file 644 "a - -\nb%2Fc 1.2 x\nz 1 -\n"
put | var/pkg/mediators | a 3.9 vendor%2520x%0a ->
does | set-mediator -V 1 z -> 0 done
look | var/pkg/mediators -> file 644 "a 3.9 vendor%20x\nz 1 -\n"
put | var/pkg/mediators | a - -%0aa - -%0a ->
does | list -> 1 bad image var/pkg/mediators line 2
put | var/pkg/mediators | b - -%0aa - -%0a ->
does | list -> 1 bad image var/pkg/mediators line 2
put | var/pkg/mediators | a-b - -%0aa%252Fb - -%0a ->
does | set-mediator -V 1 z -> 0 done
look | var/pkg/mediators -> file 644 "a-b - -\na%2Fb - -\nz 1 -\n"
put | var/pkg/mediators | a%252Fb - -%0aa-b - -%0a ->
does | list -> 1 bad image var/pkg/mediators line 2
put | var/pkg/mediators | a - -%0ab - - ->
does | list -> 1 bad image var/pkg/mediators line 2
put | var/pkg/mediators | %0a ->
does | list -> 1 bad image var/pkg/mediators line 1
put | var/pkg/mediators | a  - -%0a ->
does | list -> 1 bad image var/pkg/mediators line 1
put | var/pkg/mediators | a -%0a ->
does | list -> 1 bad image var/pkg/mediators line 1
put | var/pkg/mediators | a - - -%0a ->
does | list -> 1 bad image var/pkg/mediators line 1
put | var/pkg/mediators | a 01 -%0a ->
does | list -> 1 bad image var/pkg/mediators line 1
put | var/pkg/mediators | b/c - -%0a ->
does | list -> 1 bad image var/pkg/mediators line 1
put | var/pkg/mediators | %2561 - -%0a ->
does | list -> 1 bad image var/pkg/mediators line 1
put | var/pkg/mediators | a - %252D%0a ->
does | list -> 1 bad image var/pkg/mediators line 1
put | var/pkg/mediators | a - %0a ->
does | list -> 1 bad image var/pkg/mediators line 1
put | var/pkg/mediators | %ff%0a ->
does | list -> 1 bad image var/pkg/mediators line 1
remove | var/pkg/mediators ->
does | list -> 1 bad image var/pkg/mediators line 0
dir | var/pkg/mediators ->
does | list -> 1 bad image var/pkg/mediators line 0
put | var/pkg/mediators | ->
# requests: the form of a moment is asked for, and not that its day is in the calendar
put | var/pkg/history | ->
run | -R i -s r history -> 0 ""
put | var/pkg/history | 20240102T030405Z install hello%0a20230101T000000Z update%0a ->
run | -R i -s r history -> 0 "20240102T030405Z install hello\n20230101T000000Z update\n"
put | var/pkg/history | 20240102T030405Z install a%252Fb --accept%0a ->
run | -R i -s r history -> 0 "20240102T030405Z install a%2Fb --accept\n"
put | var/pkg/history | 20240102T030405Z%0a ->
does | list -> 1 bad image var/pkg/history line 1
put | var/pkg/history | 20240102T030405Z %0a ->
does | list -> 1 bad image var/pkg/history line 1
put | var/pkg/history | 20241302T030405Z install%0a ->
does | list -> 1 bad image var/pkg/history line 1
put | var/pkg/history | 20240102T246060Z install%0a ->
does | list -> 1 bad image var/pkg/history line 1
put | var/pkg/history | 20240102030405 install%0a ->
does | list -> 1 bad image var/pkg/history line 1
put | var/pkg/history | 1:20240102T030405Z install%0a ->
does | list -> 1 bad image var/pkg/history line 1
put | var/pkg/history | 20240102T030405Z  install%0a ->
does | list -> 1 bad image var/pkg/history line 1
put | var/pkg/history | 20240102T030405Z install %0a ->
does | list -> 1 bad image var/pkg/history line 1
put | var/pkg/history | 20240102T030405Z a/b%0a ->
does | list -> 1 bad image var/pkg/history line 1
put | var/pkg/history | 20240102T030405Z a%252fb%0a ->
does | list -> 1 bad image var/pkg/history line 1
put | var/pkg/history | %0a ->
does | list -> 1 bad image var/pkg/history line 1
put | var/pkg/history | 20240102T030405Z install%0a20240102T030405Z update ->
does | list -> 1 bad image var/pkg/history line 2
put | var/pkg/history | %ff%0a ->
does | list -> 1 bad image var/pkg/history line 1
remove | var/pkg/history ->
does | list -> 1 bad image var/pkg/history line 0
dir | var/pkg/history ->
does | list -> 1 bad image var/pkg/history line 0
put | var/pkg/history | ->
# one file behind the other
remove | var/pkg/avoid ->
remove | var/pkg/freeze ->
remove | var/pkg/mediators ->
remove | var/pkg/history ->
does | list -> 1 bad image var/pkg/avoid line 0
put | var/pkg/avoid | b%0aa%0a ->
put | var/pkg/freeze | a%0a ->
does | list -> 1 bad image var/pkg/avoid line 2
put | var/pkg/avoid | ->
put | var/pkg/mediators | m%0a ->
does | list -> 1 bad image var/pkg/freeze line 1
remove | var/pkg/freeze ->
does | list -> 1 bad image var/pkg/freeze line 0
put | var/pkg/freeze | a@1 ->
does | list -> 1 bad image var/pkg/freeze line 1
put | var/pkg/freeze | ->
put | var/pkg/history | a%0a ->
does | list -> 1 bad image var/pkg/mediators line 1
put | var/pkg/mediators | m - - ->
does | list -> 1 bad image var/pkg/mediators line 1
put | var/pkg/mediators | ->
dir | var/pkg/history ->
does | list -> 1 bad image var/pkg/history line 0
put | var/pkg/history | 20240102T030405Z install a ->
does | list -> 1 bad image var/pkg/history line 1
put | var/pkg/history | ->
does | list -> 0 nothing
# all of them
put | var/pkg/image | image 2%0apublisher test%0aorigin b free%0a ->
put | var/pkg/avoid | a%0ab%0a ->
put | var/pkg/freeze | a@1%0a ->
put | var/pkg/mediators | m - -%0a ->
put | var/pkg/history | 20240102T030405Z install a%0a ->
does | list -> 0 nothing
run | -R i -s r history -> 0 "20240102T030405Z install a\n"
put | var/pkg/avoid | x%0a ->
put | var/pkg/freeze | y@1%0a ->
put | var/pkg/mediators | m 1 -%0a ->
put | var/pkg/history | 20240102T030405Z install a%0a20240102T030406Z uninstall a%0a ->
does | list -> 0 nothing
run | -R i -s r history -> 0 "20240102T030405Z install a\n20240102T030406Z uninstall a\n"
"#;

// The index.
const INDEX: &str = r#"
# no image, whether an index stands or not
does | search * -> 1 no image
put | var/pkg/index | index 1%0a ->
does | search * -> 1 no image
remove | var/pkg/index ->
# an image of the first format that is no more than its file `image`: no other record is looked at
put | var/pkg/image | image 1%0apublisher test%0a ->
does | search * -> 1 no index
put | var/pkg/index | index 1%0a ->
does | search * -> 1 no match *
put | var/pkg/image | image 2%0apublisher test%0a ->
put | var/pkg/index | index 1%0ax path file x a%0a ->
run | -R i -s r search * -> 0 "path file a x\n"
dir | var/pkg/avoid ->
put | var/pkg/index | index 1%0a ->
does | search * -> 1 no match *
# an index that is none, and an image that is none before it
put | var/pkg/index | ->
does | search * -> 1 bad image var/pkg/index line 1
put | var/pkg/index | index 1 ->
does | search * -> 1 bad image var/pkg/index line 1
put | var/pkg/index | index 2%0a ->
does | search * -> 1 bad image var/pkg/index line 1
put | var/pkg/index | index 1%0ax path file y a%0a ->
does | search * -> 1 bad image var/pkg/index line 2
dir | var/pkg/index ->
does | search * -> 1 bad image var/pkg/index line 0
put | var/pkg/image | image 2%0a ->
put | var/pkg/index | index 2%0a ->
does | search * -> 1 bad image var/pkg/image line 2
# all other commands read it behind the other records
remove | var ->
does | image-create -p test -> 0 done
put | var/pkg/index | ->
does | list -> 1 bad image var/pkg/index line 1
put | var/pkg/index | index 1 ->
does | list -> 1 bad image var/pkg/index line 1
put | var/pkg/index | index 2%0a ->
does | list -> 1 bad image var/pkg/index line 1
dir | var/pkg/index ->
does | list -> 1 bad image var/pkg/index line 0
put | var/pkg/index | index 2%0a ->
put | var/pkg/history | a%0a ->
does | list -> 1 bad image var/pkg/history line 1
put | var/pkg/history | ->
put | var/pkg/index | index 1%0a ->
does | list -> 0 nothing
does | rebuild-index -> 4 nothing to do
"#;

#[test]
fn each_list_is_read_line_by_line(rt: HostRuntime) {
    let alloc = rt.alloc();
    for (count, table) in [(190u32, LISTS), (44u32, INDEX)] {
        let mut world = World::new(alloc, bare(&rt, alloc));
        let rows = rows_told(&rt, alloc, &mut world, table);
        assert!(rt; rows == count, "{rows} rows in place of {count}");
    }
}
