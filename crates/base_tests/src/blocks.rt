//! Patterns, sectors and a replay, worked by hand.
use crate::judging::same;
use blk_plain::*;
use std::test::Fail;

fn two_bytes(first: u8, second: u8) -> Pattern {
    let mut bytes = [0; 32];
    bytes[0] = first;
    bytes[1] = second;
    Pattern { len: 2, bytes }
}

// Whether a whole sector repeats two bytes.
fn repeats(sector: &[u8], bytes: [u8; 2]) -> bool {
    sector.len() == SECTOR
        && sector
            .iter()
            .enumerate()
            .all(|(at, byte)| *byte == bytes[at % 2])
}

#[test]
fn replay_goes_by_the_order(rt: HostRuntime) -> Result<(), Fail> {
    let span = Span { first: 1, count: 1 };
    let ops = [
        Op::Write {
            span,
            pattern: two_bytes(0xa5, 0xa5),
        },
        Op::Write {
            span,
            pattern: two_bytes(0x5a, 0x5a),
        },
    ];
    let mut blocks = Blocks::zeroed(rt.alloc(), 2)?;
    replay(&ops, &[1, 0], &mut blocks);
    same(&rt, repeats(blocks.sector(0), [0, 0]), true);
    same(&rt, repeats(blocks.sector(1), [0xa5, 0xa5]), true);
    Ok(())
}

#[test]
fn only_a_write_changes_blocks_and_only_its_span(rt: HostRuntime) -> Result<(), Fail> {
    let all = Span { first: 0, count: 4 };
    let ops = [
        Op::Write {
            span: Span { first: 1, count: 2 },
            pattern: two_bytes(1, 2),
        },
        Op::Read { span: all },
        Op::Rebuild { stripe: 0 },
        Op::Sync { stripe: 1 },
    ];
    let mut blocks = Blocks::zeroed(rt.alloc(), 4)?;
    replay(&ops, &[1, 0, 1, 2, 3], &mut blocks);
    same(&rt, repeats(blocks.sector(0), [0, 0]), true);
    same(&rt, repeats(blocks.sector(1), [1, 2]), true);
    same(&rt, repeats(blocks.sector(2), [1, 2]), true);
    same(&rt, repeats(blocks.sector(3), [0, 0]), true);
    let mut sector = [7; SECTOR];
    fill(&mut sector, &two_bytes(3, 4));
    same(&rt, repeats(&sector, [3, 4]), true);
    Ok(())
}
