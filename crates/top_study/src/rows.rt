//! Over how many rows a layout is told.
ghost use Rattle.std.specs.Prelude.{◌≡◌};
ghost use Rattle.raid_conf.specs.Form.{IsConf};
ghost use Rattle.top_study.specs.Rows.{are_rows, rows_for, turn_rows};

use blk_plain::limits;
use raid_conf::{Conf, table_rows, table_stripes};

/// Whether a layout has so many rows.
#[tactic(auto, unfolding(crate::specs::Rows::are_rows))]
pub(crate) fn are_rows(conf: &Conf, rows: u32) -> bool
    requires { IsConf conf.now }
    ensures { result ≡ are_rows conf.now rows }
{
    let step = table_rows(conf);
    let tables = u64::from(rows / step);
    let stripes = tables * u64::from(table_stripes(conf));
    step <= rows && rows % step == 0 && stripes <= u64::from(limits::STRIPES)
}

// After how many rows it comes again.
#[tactic(auto, unfolding(crate::specs::Rows::turn_rows))]
fn turn_rows(conf: &Conf) -> u32
    requires { IsConf conf.now }
    ensures { result ≡ turn_rows conf.now }
{
    if conf.level == b'5' {
        conf.columns
    } else {
        table_rows(conf)
    }
}

/// The rows that are asked for, or else those after which the layout comes again.
pub(crate) fn rows_for(conf: &Conf, rows: Option<u32>) -> u32
    requires { IsConf conf.now }
    ensures { result ≡ rows_for conf.now rows }
{
    match rows {
        Some(rows) => rows,
        None => turn_rows(conf),
    }
}
