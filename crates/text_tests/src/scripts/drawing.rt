//! Scripts that are drawn.
use crate::judging::{same, same_at};
use blk_plain::{Op, Pattern, Span};
use eng_world::Item;
use item_list::Items;
use raid_script::generate;
use rand_core::SeedableRng;
use rand_core::utils::NextWord;
use rand_pcg::Lcg64Xsh32;
use std::alloc::Global;
use std::process::Abort;
use std::test::Fail;

fn read(first: u64, count: u32) -> Item {
    let span = Span { first, count };
    Item::Run {
        op: Op::Read { span },
        graph: None,
    }
}

fn write(first: u64, count: u32, byte: u8) -> Item {
    let span = Span { first, count };
    let mut bytes = [0u8; 32];
    bytes[0] = byte;
    let pattern = Pattern { len: 1, bytes };
    Item::Run {
        op: Op::Write { span, pattern },
        graph: None,
    }
}

fn see(rt: &impl Abort, clients: &[Items], client: usize, items: &[Item]) {
    assert!(rt; client < clients.len());
    let own = &clients[client];
    assert!(rt; own.len() == items.len());
    for at in 0..items.len() {
        same_at(rt, at, own.get(at), items[at]);
    }
}

fn drawn(
    rt: &impl Abort,
    alloc: Global,
    seed: u64,
    clients: u32,
    ops: u32,
    blocks: u64,
) -> Vec<Items> {
    assert!(rt; 0 < clients && clients <= 16 && ops <= 2_048 && 0 < blocks);
    generate(alloc, seed, clients, ops, blocks)
        .expect(rt, "memory")
        .clients()
}

// By hand, from the published algorithm: a state s gives the word
// rotate_right((((s >> 18) ^ s) >> 27) mod 2^32, s >> 59), and is followed by
// s * 6364136223846793005 + increment mod 2^64. The seed 1 is spread by the words of the states that
// follow it with the increment 11634580027462260723: 721dd8ea, 4e10265d, f83b9c89 and 2e78ce42. So
// the increment is 2e78ce42f83b9c89, and the first state is the one behind
// 4e10265d721dd8ea + 2e78ce42f83b9c89, which is abe6195e8b284ec0.
#[test]
fn words_are_those_of_the_published_algorithm(rt: HostRuntime) {
    let mut words = Lcg64Xsh32::seed_from_u64(1);
    const WORDS: &[u32] = &[
        866_585_574,
        2_109_535_214,
        3_403_630_417,
        296_513_984,
        4_177_522_235,
        689_909_480,
        3_719_081_784,
        441_867_712,
        3_688_506_836,
    ];
    for row in WORDS {
        let word = *row;
        same(&rt, words.next_word(), word);
    }
}

// By hand: of the first three words the first is a multiple of 3, so they make a read; the second is
// 6 mod 8, so it has 7 blocks; a quarter of the first is 216,646,393, which is 81 mod 94, and 29
// mod 44. Of the next three the first is 2 mod 3, the second 3 mod 8, and the third e8 mod 256; a
// quarter of the first is 74,128,496, which is 29 mod 97. Of the last three the first is a multiple
// of 3 again, the second a multiple of 8, and a quarter of the first, 929,770,446, is 46 mod 100.
#[test]
fn words_make_items(rt: HostRuntime) -> Result<(), Fail> {
    let clients = drawn(&rt, rt.alloc(), 1, 1, 3, 100);
    same(&rt, clients.len(), 1);
    see(
        &rt,
        &clients,
        0,
        &[read(81, 7), write(29, 4, 0xe8), read(46, 1)],
    );
    let clients = drawn(&rt, rt.alloc(), 1, 2, 2, 100);
    same(&rt, clients.len(), 2);
    see(&rt, &clients, 0, &[read(29, 7), write(2, 4, 0xe8)]);
    see(&rt, &clients, 1, &[read(96, 1), write(68, 4, 0xd4)]);
    Ok(())
}

#[test]
fn there_are_no_more_clients_than_blocks(rt: HostRuntime) -> Result<(), Fail> {
    let clients = drawn(&rt, rt.alloc(), 1, 16, 1, 3);
    same(&rt, clients.len(), 3);
    see(&rt, &clients, 0, &[read(0, 1)]);
    see(&rt, &clients, 1, &[write(1, 1, 0xe8)]);
    see(&rt, &clients, 2, &[read(2, 1)]);
    let clients = drawn(&rt, rt.alloc(), 1, 4, 0, 8);
    same(&rt, clients.len(), 4);
    see(&rt, &clients, 3, &[]);
    Ok(())
}
