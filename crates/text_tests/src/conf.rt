//! What texts are read as, why they are not, what is printed, and the layouts that they describe.
ghost use Rattle.raid_conf.specs.Form.{IsConf};

mod making;
mod printing;
mod reading;
mod refusing;

use raid_conf::{Conf, read_conf};
use std::alloc::Global;
use std::process::Abort;

// The configuration that a short text says.
pub fn read(rt: &impl Abort, alloc: Global, text: &[u8]) -> Conf
    ensures { IsConf result }
{
    assert!(rt; text.len() < 1_000);
    match read_conf(alloc, text) {
        Ok(conf) => conf,
        Err(_) => panic!(rt; "no configuration"),
    }
}
