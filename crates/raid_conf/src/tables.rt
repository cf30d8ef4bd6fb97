//! The least layout of a configuration, of which all others have a multiple, and the numbers of its
//! block design.
ghost use Rattle.std.specs.Prelude.{◌≡◌, ◌≤◌, ◌/◌};
ghost use Rattle.lay_design.specs.Design.{IsDesign};
ghost use Rattle.lay_design.specs.Families.{choose};
ghost use Rattle.raid_conf.specs.Designs.{blocks_of};
ghost use Rattle.raid_conf.specs.Form.{IsConf};
ghost use Rattle.raid_conf.specs.Layouts.{plain_stripes, table_rows, table_stripes};
ghost use Rattle.raid_conf.specs.Steps.{plain_rows};
ghost use Rattle.raid_conf.specs.Parameters.{parameters_of};

use crate::conf::Conf;
use crate::given::Given;
use crate::make::plain_of;
use crate::parameters::Parameters;
use crate::plain::Plain;

// How many tuples of k of n objects there are, which are few.
#[tactic(auto, using(crate::proofs::TableLaws::choose_none, crate::proofs::TableLaws::choose_few, crate::proofs::TableLaws::choose_step))]
fn choose(n: u32, k: u32) -> u32
    requires { choose n k ≤ 4096 }
    ensures { result ≡ choose n k }
{
    if k == 0 {
        return 1;
    }
    if n < k {
        return 0;
    }
    choose(n - 1, k - 1) + choose(n - 1, k)
}

// How many objects a tuple has.
fn width_of(given: &Given) -> u32
    requires { IsDesign (blocks_of given.now) }
    ensures { result ≡ (blocks_of given.now).k }
{
    match given {
        Given::Listed { k, .. } | Given::Complete { k, .. } => *k,
        Given::Cyclic { base, .. } => base.as_slice().len() as u32,
    }
}

// In how many tuples each object stands.
fn degree_of(given: &Given) -> u32
    requires { IsDesign (blocks_of given.now) }
    ensures { result ≡ (blocks_of given.now).r }
{
    match given {
        Given::Listed { r, .. } => *r,
        Given::Cyclic { base, .. } => base.as_slice().len() as u32,
        Given::Complete { v, k } => choose(*v - 1, *k - 1),
    }
}

fn tuples_of(given: &Given) -> u32
    requires { IsDesign (blocks_of given.now) }
    ensures { result ≡ (blocks_of given.now).b }
{
    match given {
        Given::Listed { b, .. } => *b,
        Given::Cyclic { v, .. } => *v,
        Given::Complete { v, k } => choose(*v, *k),
    }
}

// In how many tuples each two objects stand.
fn pairs_of(given: &Given) -> u32
    requires { IsDesign (blocks_of given.now) }
    ensures { result ≡ (blocks_of given.now).lambda }
{
    match given {
        Given::Listed { lambda, .. } => *lambda,
        Given::Cyclic { v, base } => {
            let k = base.as_slice().len() as u32;
            k * (k - 1) / (*v - 1)
        }
        Given::Complete { v, k } => choose(*v - 2, *k - 2),
    }
}

// The rows of the least layout that stands on no block design.
fn plain_rows(plain: Plain) -> u32
    ensures { result ≡ plain_rows plain }
{
    match plain {
        Plain::Chained => 2,
        Plain::Striped | Plain::Mirrored | Plain::LastChecked | Plain::LeftSymmetric => 1,
    }
}

fn plain_stripes(plain: Plain, columns: u32) -> u32
    ensures { result ≡ plain_stripes plain columns }
{
    match plain {
        Plain::Chained => columns,
        Plain::Mirrored => columns / 2,
        Plain::Striped | Plain::LastChecked | Plain::LeftSymmetric => 1,
    }
}

/// The rows of the least layout of a configuration, of which all others have a multiple: those of a
/// full table at levels T and D, two at level C, one at the others.
#[tactic(auto, using(crate::proofs::TableLaws::is_given_design))]
pub fn table_rows(conf: &Conf) -> u32
    requires { IsConf conf.now }
    ensures { result ≡ table_rows conf.now }
{
    match &conf.design {
        Some(given) => width_of(given) * degree_of(given),
        None => plain_rows(plain_of(conf.level)),
    }
}

/// The stripes of the least layout of a configuration: those of a full table at levels T and D, one
/// for each column at level C, one for each pair of columns at level 1, one at the others.
#[tactic(auto, using(crate::proofs::TableLaws::is_given_design))]
pub fn table_stripes(conf: &Conf) -> u32
    requires { IsConf conf.now }
    ensures { result ≡ table_stripes conf.now }
{
    match &conf.design {
        Some(given) => width_of(given) * tuples_of(given),
        None => plain_stripes(plain_of(conf.level), conf.columns),
    }
}

/// The numbers of a configuration's block design; all 0 where its level stands on none.
#[tactic(auto, using(crate::proofs::TableLaws::is_given_design))]
pub fn design_parameters(conf: &Conf) -> Parameters
    requires { IsConf conf.now }
    ensures { result ≡ parameters_of conf.now.design }
{
    match &conf.design {
        Some(given) => Parameters {
            b: tuples_of(given),
            k: width_of(given),
            r: degree_of(given),
            lambda: pairs_of(given),
        },
        None => Parameters {
            b: 0,
            k: 0,
            r: 0,
            lambda: 0,
        },
    }
}
