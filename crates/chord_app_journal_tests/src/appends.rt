//! What a device has behind writes, cuts and syncs, of which some fail.

use crate::appending::Appending;
use chord_testkit::follow;
use std::test::Fail;

const WRITES: &str = r"
== what is appended stands behind what is there
append abc > Ok; abc of 3, synced 0
append de > Ok; abcde of 5, synced 0

== a write that fails adds nothing
append abc > Ok; abc of 3, synced 0
write fails > Set
append de > the file takes no more: no storage space
append fg > Ok; abcfg of 5, synced 0

== a write in parts adds all of them
write adds 0 > Set
append abc > the file takes no more: write zero

== nor does one that adds a part before it fails
append abc > Ok; abc of 3, synced 0
write adds 2 > Set
append def > the file takes no more: no storage space
append def > Ok; abcdef of 6, synced 0

== a file that could not be cut back takes no more
append abc > Ok; abc of 3, synced 0
write adds 2 > Set
cut fails > Set
append def > the file could not be cut back to its whole commands: no storage space; abcde of 3, synced 0
append gh > the file could not be cut back to its whole commands: other error
";

#[test]
fn all_is_appended_or_nothing(rt: HostRuntime) -> Result<(), Fail> {
    follow::<Appending>(rt.alloc(), WRITES)
}

const SYNCS: &str = r"
== each sync is done
sync > Ok;  of 0, synced 1
append abc > Ok; abc of 3, synced 1
sync > Ok; abc of 3, synced 2

== behind one that failed no other is tried
append abc > Ok; abc of 3, synced 0
sync fails > Set
sync > the file could not be synced: no storage space; abc of 3, synced 1
sync > the file could not be synced: no storage space
append de > Ok; abcde of 5, synced 1
sync > the file could not be synced: no storage space
";

#[test]
fn a_failed_sync_is_not_tried_again(rt: HostRuntime) -> Result<(), Fail> {
    follow::<Appending>(rt.alloc(), SYNCS)
}
