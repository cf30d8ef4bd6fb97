//! What is asked of a configuration alone.
ghost use Rattle.std.specs.Prelude.{◌≡◌, ◌≤◌, is_ok, IfOk, IfErr, IsErrOf, IsTrue, OnErr};
ghost use Rattle.blk_disk.specs.Disk.{Rose};
ghost use Rattle.raid_bay.specs.Sink.{Puts};
ghost use Rattle.raid_conf.specs.Form.{IsConf};
ghost use Rattle.raid_conf.specs.Layouts.{shape_in, shape_of};
ghost use Rattle.top_fetch.specs.Answers.{IsEarly, AnswersAs};
ghost use Rattle.top_fetch.specs.Told.{IsRead};
ghost use Rattle.top_study.specs.Rows.{are_rows, rows_for};
ghost use Rattle.top_study.specs.Studied.{layout_over, study_in, study_of};
ghost use Rattle.top_study.specs.Views.{studied_text};

use crate::rows::{are_rows, rows_for};
use blk_disk::Failed;
use lay_design::designs_have_no_fault;
use raid_bay::{Bay, Sink};
use raid_conf::{AnyFault, AnyLayout, Conf};
use std::alloc::Global;
use top_bay::open_conf;
use top_layout::put_layout;
use top_status::Status;
use top_words::Study;

/// What is told of a configuration.
#[derive(Drop)]
pub enum Studied {
    /// The layout of a level, by its letter.
    Layout { level: u8, layout: AnyLayout },
}

// The status of a fault, which is want of memory.
fn memory_of(fault: AnyFault) -> Status
    requires { fault ≡ AnyFault.Memory }
    ensures { result ≡ Status.Memory }
{
    match fault {
        AnyFault::Memory => Status::Memory,
        AnyFault::Make(_) | AnyFault::Design(_) | AnyFault::Table(_) => unreachable!(),
    }
}

// The layout over so many rows, which it can have: so there may be want of memory alone.
fn make_layout(alloc: Global, conf: &Conf, rows: u32) -> Result<AnyLayout, Status>
    requires conf { IsConf conf.now }
    requires rows { IsTrue (are_rows conf.now rows) }
    ensures shape { IfOk result (λ layout. shape_in layout ≡ shape_of conf.now rows) }
    ensures memory { IfErr result (λ status. status ≡ Status.Memory) }
{
    designs_have_no_fault();
    match AnyLayout::make(alloc, conf, rows) {
        Ok(layout) => Ok(layout),
        Err(fault) => Err(memory_of(fault)),
    }
}

// The layout over so many rows, or that it can't have them.
#[tactic(auto, unfolding(crate::specs::Studied::layout_over))]
fn layout_over(alloc: Global, conf: &Conf, rows: u32) -> Result<Studied, Status>
    requires { IsConf conf.now }
    ensures answer { AnswersAs studied_text result (layout_over conf.now rows) }
    ensures kind { IfErr result IsEarly }
    ensures sound { IsErrOf result Status.BayFault → ⊥ }
{
    if !are_rows(conf, rows) {
        return Err(Status::Usage(3));
    }
    match make_layout(alloc, conf, rows) {
        Ok(layout) => Ok(Studied::Layout {
            level: conf.level,
            layout,
        }),
        Err(status) => Err(status),
    }
}

// What is asked of a configuration.
fn study_of(alloc: Global, conf: &Conf, study: Study) -> Result<Studied, Status>
    requires { IsConf conf.now }
    ensures answer { AnswersAs studied_text result (study_of conf.now study) }
    ensures kind { IfErr result IsEarly }
    ensures sound { IsErrOf result Status.BayFault → ⊥ }
{
    match study {
        Study::Layout { rows } => layout_over(alloc, conf, rows_for(conf, rows)),
    }
}

/// What is asked of the configuration of that name.
///
/// Refused is the text, where there is none of its name (`NoFile`), or it is longer than 16,777,216
/// bytes (`LongText`), or not in its form (`Conf`, with its first line that isn't, and the code); and
/// a number of rows that the layout can't have (`Usage`, 3). `BayFault` comes only where the bay's
/// count of faults rose, and want of memory at any point. No device is taken.
#[tactic(auto, unfolding(crate::specs::Studied::study_in))]
pub fn study_in<B: Bay>(
    alloc: Global,
    conf: &str,
    study: Study,
    bay: &mut B,
) -> Result<Studied, Status>
    ensures answer { B.tells →
        AnswersAs studied_text result (study_in (B.text_of bay.old) conf.now study) }
    ensures kind { IfErr result IsEarly }
    ensures cause { IsErrOf result Status.BayFault → Rose (B.faults bay.old) (B.faults bay.new) }
    ensures read { IsRead B.tells (B.text_of bay.old) (B.text_of bay.new)
        (B.home bay.old) (B.home bay.new) (B.faults bay.old) (B.faults bay.new) }
{
    match open_conf(alloc, conf, bay) {
        Ok(conf) => study_of(alloc, &conf, study),
        Err(status) => Err(status),
    }
}

/// Prints what is told, as [`put_layout`] does.
pub fn put_studied<K: Sink>(studied: &Studied, out: &mut K) -> Result<(), Failed>
    ensures output { K.tells → Puts (is_ok result) (K.output out.old)
        (studied_text studied.now) (K.output out.new) }
    ensures later { K.faults out.old ≤ K.faults out.new }
    ensures cause { OnErr result (Rose (K.faults out.old) (K.faults out.new)) }
{
    match studied {
        Studied::Layout { level, layout } => put_layout(*level, layout, out),
    }
}
