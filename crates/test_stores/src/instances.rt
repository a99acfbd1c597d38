// The lists of followers after each call, empty, full and between, with ample memory. A follower is
// a number here.
ghost use Rattle.std.specs.Prelude.{◌+◌, ◌<◌, IsTrue, length};

use crate::assertions::same;
use compose_eval::Instances;
use std::alloc::{AllocError, Global};
use std::process::Abort;
use std::test::Fail;

fn has_room(instances: &Instances<u64>) -> bool
    ensures { IsTrue result
        → length instances.now.live + length instances.now.idle < instances.now.room }
{
    let spare = (instances.room() as usize).saturating_sub(instances.len());
    instances.idle() < spare
}

// Adds an idle follower if there is room.
fn rest(instances: &mut Instances<u64>, follower: u64) {
    if has_room(instances) {
        instances.rest(follower);
    }
}

// Feeds one that was not idle if there is room and none is fed from the start.
fn put(instances: &mut Instances<u64>, outer: u64, follower: u64) {
    if has_room(instances) && instances.place(outer).is_none() {
        instances.put(outer, follower);
    }
}

// Wakes a follower if one is idle and none is fed from the start.
fn wake(instances: &mut Instances<u64>, outer: u64) {
    if instances.idle() > 0 && instances.place(outer).is_none() {
        instances.wake(outer);
    }
}

// Three followers, fed from 30, 20 and 10.
fn fed(alloc: Global) -> Result<Instances<u64>, AllocError> {
    let mut instances = Instances::new(alloc, 3)?;
    rest(&mut instances, 1);
    rest(&mut instances, 2);
    put(&mut instances, 30, 3);
    rest(&mut instances, 4);
    wake(&mut instances, 20);
    wake(&mut instances, 10);
    wake(&mut instances, 40);
    Ok(instances)
}

// The starts of those that are fed, and these.
fn same_live(rt: &impl Abort, instances: &Instances<u64>, wanted: &[(u64, u64)]) {
    same(rt, instances.len(), wanted.len());
    for i in 0..instances.len() {
        let found = (instances.outer(i), *instances.follower(i));
        same(rt, Some(found), wanted.get(i).copied());
    }
}

fn same_idle(rt: &impl Abort, instances: &Instances<u64>, wanted: &[u64]) {
    same(rt, instances.idle(), wanted.len());
    for i in 0..instances.idle() {
        same(rt, Some(*instances.resting(i)), wanted.get(i).copied());
    }
}

// Writes to the follower that is fed from the start, and to the first idle one.
fn write(instances: &mut Instances<u64>, outer: u64) {
    if let Some(place) = instances.place(outer) {
        *instances.follower_mut(place) = 200;
    }
    if instances.idle() > 0 {
        *instances.resting_mut(0) = 100;
    }
}

#[test]
fn followers_are_woken_and_come_to_rest(rt: HostRuntime) -> Result<(), Fail> {
    let mut instances = fed(rt.alloc())?;
    same_live(&rt, &instances, &[(30, 3), (20, 2), (10, 1)]);
    same_idle(&rt, &instances, &[]);
    instances.keep(|start| start == 20);
    same_live(&rt, &instances, &[(20, 2)]);
    same_idle(&rt, &instances, &[3, 1]);
    write(&mut instances, 20);
    wake(&mut instances, 50);
    same_live(&rt, &instances, &[(20, 200), (50, 1)]);
    same_idle(&rt, &instances, &[100]);
    Ok(())
}
