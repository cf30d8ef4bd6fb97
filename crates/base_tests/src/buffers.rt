//! A pool of a few small buffers.
use crate::judging::same;
use buf_pool::{Full, Lease, Pool, Reserve};
use std::test::Fail;

#[test]
fn a_lease_is_full_until_buffers_come_back(rt: HostRuntime) -> Result<(), Fail> {
    let mut pool = Pool::open(rt.alloc(), 2, 512)?;
    let both = pool.lease(2)?;
    same(&rt, pool.free(), 0);
    same(&rt, pool.lease(1).err(), Some(Full));
    pool.give_back(both);
    same(&rt, pool.free(), 2);
    let one = pool.lease(1)?;
    same(&rt, pool.free(), 1);
    pool.give_back(one);
    Ok(())
}

#[test]
fn a_lease_is_filled_where_it_is_kept(rt: HostRuntime) -> Result<(), Fail> {
    let mut pool = Pool::open(rt.alloc(), 3, 1)?;
    let mut lease = Lease::empty();
    pool.lease_into(2, &mut lease)?;
    same(&rt, pool.free(), 1);
    pool.return_from(&lease);
    same(&rt, pool.free(), 3);
    pool.lease_into(3, &mut lease)?;
    same(&rt, pool.free(), 0);
    same(&rt, pool.lease(1).err(), Some(Full));
    Ok(())
}

#[test]
fn only_more_than_the_free_are_refused(rt: HostRuntime) -> Result<(), Fail> {
    for (n, free) in [(0, 3), (1, 2), (3, 0), (4, 3), (u32::MAX, 3)] {
        let mut pool = Pool::open(rt.alloc(), 3, 1)?;
        same(&rt, (n, pool.lease(n).is_ok()), (n, n <= 3));
        same(&rt, (n, pool.free()), (n, free));
    }
    Ok(())
}

#[test]
fn a_buffer_goes_out_and_comes_home_with_its_bytes(rt: HostRuntime) -> Result<(), Fail> {
    let mut pool = Pool::open(rt.alloc(), 2, 3)?;
    let lease = pool.lease(2)?;
    let mut buffer = pool.take(&lease, 1);
    assert!(rt; pool.home(&lease, 0));
    same(&rt, pool.home(&lease, 1), false);
    same(&rt, buffer.bytes(), [0, 0, 0].as_slice());
    buffer.bytes_mut().fill(7);
    pool.put(&lease, 1, buffer);
    assert!(rt; pool.home(&lease, 1));
    let again = pool.take(&lease, 1);
    same(&rt, again.bytes(), [7, 7, 7].as_slice());
    pool.put(&lease, 1, again);
    pool.give_back(lease);
    Ok(())
}

#[test]
fn two_leases_have_buffers_of_their_own(rt: HostRuntime) -> Result<(), Fail> {
    let mut pool = Pool::open(rt.alloc(), 2, 1)?;
    let one = pool.lease(1)?;
    let other = pool.lease(1)?;
    let mut mine = pool.take(&one, 0);
    assert!(rt; pool.home(&other, 0));
    mine.bytes_mut().fill(1);
    pool.put(&one, 0, mine);
    let theirs = pool.take(&other, 0);
    same(&rt, theirs.bytes(), [0].as_slice());
    Ok(())
}

#[test]
fn a_reserve_counts_what_has_no_memory(rt: HostRuntime) -> Result<(), Fail> {
    let mut reserve = Reserve::open(rt.alloc(), 3, 1)?;
    same(&rt, reserve.free(), 2048);
    let mut lease = Lease::empty();
    reserve.lease_into(2, &mut lease);
    same(&rt, reserve.free(), 2046);
    let mut buffer = reserve.take(&lease, 1);
    same(&rt, reserve.home(&lease, 1), false);
    buffer.bytes_mut().fill(7);
    reserve.put(&lease, 1, buffer);
    reserve.return_from(&lease);
    same(&rt, reserve.free(), 2048);
    reserve.lease_into(3, &mut lease);
    same(&rt, reserve.free(), 2045);
    Ok(())
}
