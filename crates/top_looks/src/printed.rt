//! The text of a configuration.
ghost use Rattle.std.specs.Prelude.{◌≡◌, IfOk};
ghost use Rattle.raid_conf.specs.Form.{IsConf, conf_text};
ghost use Rattle.raid_conf.specs.Laws.{IsReadAs};

use raid_conf::{Conf, Memory, print_conf};
use std::alloc::Global;

/// The canonical text of a configuration, which is read as it. The only error is want of memory.
pub fn printed_conf(alloc: Global, conf: &Conf) -> Result<Vec<u8>, Memory>
    requires { IsConf conf.now }
    ensures text { IfOk result (λ text. text.items ≡ conf_text conf.now) }
    ensures again { IsReadAs conf.now }
{
    let mut text = Vec::new(alloc);
    print_conf(alloc, conf, &mut text)?;
    Ok(text)
}
