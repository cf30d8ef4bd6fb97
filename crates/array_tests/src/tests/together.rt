//! Two clients.
use super::closed::{handed, has_calls, history, holds, replied};
use super::{id, ran, read, write};
use eng_array::Reply;
use std::test::Fail;

// Both writes are of stripe 0, so that the one waits for the other: 11 ^ 22 = 33.
#[test]
fn a_write_waits_for_a_write_of_its_stripe(rt: HostRuntime) -> Result<(), Fail> {
    let first = [write(0, 1, 0x11), read(0, 2)];
    let second = [write(1, 1, 0x22)];
    let closed = ran(&rt, rt.alloc(), &[&[], &[], &[]], &[&first, &second])?;
    replied(&rt, &closed, 0, &[Reply::Done, Reply::Data]);
    replied(&rt, &closed, 1, &[Reply::Done]);
    // The ring comes to client 1 before client 0 has its read begun.
    history(&rt, &closed, &[id(0, 0), id(1, 0), id(0, 1)]);
    handed(&rt, &closed, &[0x11, 0x22]);
    holds(&rt, &closed, 0, 64, &[0x11]);
    holds(&rt, &closed, 1, 64, &[0x22]);
    holds(&rt, &closed, 2, 64, &[0x33]);
    Ok(())
}

// Both reads are of stripe 0; no write of its zeros is needed.
#[test]
fn a_read_is_served_beside_a_read_of_its_stripe(rt: HostRuntime) -> Result<(), Fail> {
    let first = [read(0, 2)];
    let second = [read(1, 1)];
    let closed = ran(&rt, rt.alloc(), &[&[], &[], &[]], &[&first, &second])?;
    replied(&rt, &closed, 0, &[Reply::Data]);
    replied(&rt, &closed, 1, &[Reply::Data]);
    handed(&rt, &closed, &[0, 0, 0]);
    has_calls(&rt, &closed, 0, &[(0, 64, 1, true)]);
    has_calls(&rt, &closed, 1, &[(0, 64, 1, true), (0, 64, 1, true)]);
    has_calls(&rt, &closed, 2, &[]);
    Ok(())
}
