//! A store of a few sectors.
ghost use Rattle.std.specs.Prelude.{◌≡◌, ◌*◌, length};

use crate::judging::{holds, same_at};
use sector_store::Store;
use std::process::Abort;
use std::test::Fail;

// The sectors hold these bytes, each one all over.
fn hold(rt: &impl Abort, store: &Store, bytes: [u8; 3])
    requires { length store.now ≡ 1536 }
{
    for at in 0..3 {
        let wanted = [bytes[at]; 512];
        same_at(rt, at, store.sector(at).as_slice(), wanted.as_slice());
    }
}

#[test]
fn sectors_are_zero_until_they_are_put(rt: HostRuntime) -> Result<(), Fail> {
    let mut store = Store::open(rt.alloc(), 3)?;
    hold(&rt, &store, [0, 0, 0]);
    store.put(1, &[7; 1024]);
    hold(&rt, &store, [0, 7, 7]);
    holds(&rt, store.same(1, 2));
    holds(&rt, !store.same(0, 1));
    store.put(0, &[7; 512]);
    hold(&rt, &store, [7, 7, 7]);
    holds(&rt, store.same(0, 2));
    Ok(())
}

// Once there are as many different sectors as places, each that is put again has one of its own.
#[test]
fn sectors_are_put_again(rt: HostRuntime) -> Result<(), Fail> {
    let mut store = Store::open(rt.alloc(), 3)?;
    store.put(0, &[1; 512]);
    store.put(0, &[2; 512]);
    store.put(0, &[3; 512]);
    hold(&rt, &store, [3, 0, 0]);
    store.put(1, &[4; 1024]);
    hold(&rt, &store, [3, 4, 4]);
    store.put(1, &[5; 512]);
    hold(&rt, &store, [3, 5, 4]);
    store.put(0, &[5; 512]);
    hold(&rt, &store, [5, 5, 4]);
    holds(&rt, store.same(0, 1));
    store.put(0, &[0; 1536]);
    hold(&rt, &store, [0, 0, 0]);
    Ok(())
}
