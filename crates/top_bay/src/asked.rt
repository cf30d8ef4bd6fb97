//! What a command asks for.
ghost use Rattle.std.specs.Prelude.{◌≡◌, ◌≤◌, ℕ, List, length, vec_len, IfOk, IfErr, OnErr, IsErrOf};
ghost use Rattle.blk_disk.specs.Disk.{Rose};
ghost use Rattle.top_words.specs.Asked.{AreNumbersInRange};
ghost use Rattle.top_words.specs.Views.{action_seen, command_seen, text_of};
ghost use Rattle.top_fetch.specs.Answers.{IsEarly, AnswersAs};
ghost use Rattle.top_bay.specs.Asked.{asked_in, graphs_name, names_for, script_name, texts_in};
ghost use Rattle.top_bay.specs.Lent.{AreOut, IsLent};
ghost use Rattle.top_fetch.specs.Told.{IsRead, Told};
ghost use Rattle.top_bay.specs.Views.{IsWithinLimits, asked_seen};

use crate::component::open_component;
use crate::devices::take_all;
use crate::opening::{open_book, open_conf, open_script};
use graph_text::Book;
use item_list::Items;
use raid_bay::Bay;
use raid_conf::Conf;
use raid_script::Join;
use std::alloc::Global;
use top_status::Status;
use top_words::{Action, Command};

/// What a command asks for, and what the texts that it names say.
#[derive(Drop)]
pub struct Asked<'a> {
    /// The command.
    pub command: Command<'a>,
    /// The configuration of the array.
    pub conf: Conf,
    /// The place of the component that the command names: for `-f`, `-F` and `-R` that of its column, for `-g` that of its device, the
    /// spares behind the columns; None for the other actions, which name none.
    pub comp: Option<u32>,
    /// The graphs of the file; none where no file is named.
    pub book: Book,
    /// The items of each client of the script; no clients where no script is named.
    pub clients: Vec<Items>,
    /// The join lines of the script. The item of line j of them names the graph whose number is that
    /// of the book's graphs, and j more.
    pub joins: Vec<Join>,
}

/// What is asked for, and the devices that it goes by: for `-g` that of the component alone, for `-G` none, and else those of
/// the columns' disks, and then the spares; None where a disk is absent.
pub struct Taken<'a, D> {
    pub asked: Asked<'a>,
    pub devices: Vec<Option<D>>,
}

fn graphs_name<'a>(action: Action<'a>) -> Option<&'a str>
    ensures { text_of result ≡ graphs_name (action_seen action.entry) }
{
    match action.beside() {
        Some(beside) => beside.graphs,
        None => None,
    }
}

fn script_name<'a>(action: Action<'a>) -> Option<&'a str>
    ensures { text_of result ≡ script_name (action_seen action.entry) }
{
    match action.beside() {
        Some(beside) => Some(beside.script),
        None => None,
    }
}

#[tactic(auto, unfolding(crate::specs::Asked::texts_in))]
fn read_texts<'a, B: Bay>(
    alloc: Global,
    command: Command<'a>,
    bay: &mut B,
) -> Result<Asked<'a>, Status>
    requires { AreNumbersInRange (action_seen command.action) }
    ensures answer { B.tells → AnswersAs asked_seen result
        (texts_in (B.text_of bay.old) (command_seen command.entry)) }
    ensures command { IfOk result (λ a. a.command ≡ command.entry) }
    ensures within { IfOk result (λ a. IsWithinLimits (asked_seen a)) }
    ensures kind { IfErr result IsEarly }
    ensures cause { IsErrOf result Status.BayFault → Rose (B.faults bay.old) (B.faults bay.new) }
    ensures read { IsRead B.tells (B.text_of bay.old) (B.text_of bay.new)
        (B.home bay.old) (B.home bay.new) (B.faults bay.old) (B.faults bay.new) }
{
    let conf = match open_conf(alloc, command.conf, bay) {
        Ok(conf) => conf,
        Err(status) => return Err(status),
    };
    let comp = match open_component(&conf, command.action) {
        Ok(comp) => comp,
        Err(status) => return Err(status),
    };
    let book = match open_book(alloc, graphs_name(command.action), bay) {
        Ok(book) => book,
        Err(status) => return Err(status),
    };
    let script = script_name(command.action);
    let script = match open_script(alloc, script, &book, conf.columns, bay) {
        Ok(script) => script,
        Err(status) => return Err(status),
    };
    let (clients, joins) = script.into_parts();
    Ok(Asked {
        command,
        conf,
        comp,
        book,
        clients,
        joins,
    })
}

/// What a command asks for, by the texts of the bay, and the devices that it goes by, which the bay
/// has then lent.
///
/// Refused are, in this order: the configuration, where there is no text of its name, or it is
/// longer than 16,777,216 bytes, or not in its form; a component of another name than it has
/// (`Usage` 3); in the same way as the configuration the file of graphs, and the script; and the
/// first device that isn't there, the columns' disks before the spares. Where it is refused, the
/// bay has all that it had. `BayFault` comes only where the bay's count of faults rose, and want
/// of memory at any point.
#[tactic(auto, unfolding(crate::specs::Asked::asked_in))]
pub fn ask<'a, B: Bay>(
    alloc: Global,
    command: Command<'a>,
    bay: &mut B,
) -> Result<Taken<'a, B::D>, Status>
    requires { AreNumbersInRange (action_seen command.action) }
    ensures answer { B.tells → AnswersAs (λ t. asked_seen t.asked) result (asked_in
        (record {
          tells = B.tells;
          rose = Rose (B.faults bay.old) (B.faults bay.new);
          texts = B.text_of bay.old;
          home = B.home bay.old;
          after = B.home bay.new;
        }) (command_seen command.entry)) }
    ensures command { IfOk result (λ t. t.asked.command ≡ command.entry) }
    ensures within { IfOk result (λ t. IsWithinLimits (asked_seen t.asked)) }
    ensures many { IfOk result (λ t. vec_len t.devices ≡ length (names_for (asked_seen t.asked))) }
    ensures lent { IfOk result (λ t. B.tells →
        IsLent (B.home bay.old) (B.home bay.new) (names_for (asked_seen t.asked)) t.devices.items) }
    ensures out { IfOk result
        (λ t. AreOut (B.is_out bay.new) (names_for (asked_seen t.asked)) t.devices.items) }
    ensures same { OnErr result (B.tells → (n : List ℕ) → B.home bay.new n ≡ B.home bay.old n) }
    ensures kind { IfErr result IsEarly }
    ensures later { B.faults bay.old ≤ B.faults bay.new }
    ensures cause { IsErrOf result Status.BayFault → Rose (B.faults bay.old) (B.faults bay.new) }
{
    let asked = match read_texts(alloc, command, bay) {
        Ok(asked) => asked,
        Err(status) => return Err(status),
    };
    match take_all(alloc, bay, &asked.conf, asked.command.action) {
        Ok(devices) => Ok(Taken { asked, devices }),
        Err(status) => Err(status),
    }
}
