//! Printing a configuration.
ghost use Rattle.std.specs.Prelude.{◌≡◌, ◌≢◌, ◌<◌, ◌≤◌, ◌*◌, [], ◌∷◌, ◌++◌, codes, decimal, length, map, not, nat_eq, IfOk, OnOk, OnErr};
ghost use Rattle.std.specs.Option.{ForSome};
ghost use Rattle.raid_conf.specs.Form.{IsConf, Literal, Number, conf_text, design_places, disk_word, given_places, layout_places, name_places, queue_places, spare_places, start_places, tuple_places};
ghost use Rattle.raid_conf.specs.Laws.{IsReadAs};
ghost use Rattle.raid_conf.specs.Printing.{IsPrintable, device_places, level_places, line_text, lines_text, spaced};

use crate::conf::Conf;
use crate::given::Given;
use crate::memory::Memory;
use crate::names::Names;
use itoa::Buffer;
use std::alloc::Global;

fn push_first(text: &mut Vec<u8>, number: u32) -> Result<(), Memory>
    ensures { OnOk result (text.new.items ≡ text.old.items ++ decimal number) }
{
    text.extend_from_slice(Buffer::new().format(number).as_bytes())?;
    Ok(())
}

// Appends a space and a word.
fn push_word(text: &mut Vec<u8>, word: &[u8]) -> Result<(), Memory>
    ensures { OnOk result (text.new.items ≡ text.old.items ++ spaced (Literal word.now ∷ [])) }
{
    text.extend_from_slice(b" ")?;
    text.extend_from_slice(word)?;
    Ok(())
}

// Appends a space and a number.
fn push_number(text: &mut Vec<u8>, number: u32) -> Result<(), Memory>
    ensures { OnOk result (text.new.items ≡ text.old.items ++ spaced (Number number ∷ [])) }
{
    push_word(text, Buffer::new().format(number).as_bytes())
}

// Appends numbers, each behind a space.
fn push_numbers(text: &mut Vec<u8>, numbers: &[u32]) -> Result<(), Memory>
    ensures { OnOk result (text.new.items ≡ text.old.items ++ spaced (map Number numbers.now)) }
{
    for number in numbers {
        push_number(text, *number)?;
    }
    Ok(())
}

// Appends the line that begins a section.
fn push_start(text: &mut Vec<u8>, name: &[u8]) -> Result<(), Memory>
    ensures { OnOk result (text.new.items ≡ text.old.items ++ line_text (start_places name.now)) }
{
    text.extend_from_slice(b"START")?;
    push_word(text, name)?;
    text.extend_from_slice(b"\n")?;
    Ok(())
}

fn push_array(text: &mut Vec<u8>, columns: u32, spares: u32) -> Result<(), Memory>
    ensures { OnOk result (text.new.items ≡ text.old.items
        ++ line_text (Number 1 ∷ Number columns ∷ Number spares ∷ [])) }
{
    push_first(text, 1)?;
    push_number(text, columns)?;
    push_number(text, spares)?;
    text.extend_from_slice(b"\n")?;
    Ok(())
}

fn disk_word(name: &str) -> &[u8]
    ensures { result.now ≡ disk_word name.now }
{
    if name.is_empty() {
        b"absent"
    } else {
        name.as_bytes()
    }
}

fn push_name(text: &mut Vec<u8>, name: &str) -> Result<(), Memory>
    ensures { OnOk result (text.new.items ≡ text.old.items ++ line_text (name_places name.now)) }
{
    text.extend_from_slice(disk_word(name))?;
    text.extend_from_slice(b"\n")?;
    Ok(())
}

fn push_names(text: &mut Vec<u8>, names: &Names) -> Result<(), Memory>
    ensures { OnOk result
        (text.new.items ≡ text.old.items ++ lines_text (map name_places names.now)) }
{
    for i in 0..names.len() {
        push_name(text, names.get(i))?;
    }
    Ok(())
}

// Appends the section of the spares, where there are any.
fn push_spares(text: &mut Vec<u8>, names: &Names) -> Result<(), Memory>
    ensures { OnOk result (text.new.items ≡ text.old.items
        ++ lines_text (spare_places (not (nat_eq (length names.now) 0)) names.now)) }
{
    if names.len() == 0 {
        return Ok(());
    }
    push_start(text, b"spare")?;
    push_names(text, names)
}

fn push_layout(text: &mut Vec<u8>, unit: u32, level: u8) -> Result<(), Memory>
    ensures { OnOk result
        (text.new.items ≡ text.old.items ++ line_text (layout_places unit level)) }
{
    push_first(text, unit)?;
    push_number(text, 1)?;
    push_number(text, 1)?;
    push_word(text, &[level])?;
    text.extend_from_slice(b"\n")?;
    Ok(())
}

// Appends the line of a tuple, which isn't empty.
fn push_tuple(text: &mut Vec<u8>, tuple: &[u32]) -> Result<(), Memory>
    requires { 0 < length tuple.now }
    ensures { OnOk result (text.new.items ≡ text.old.items ++ line_text (map Number tuple.now)) }
{
    push_first(text, tuple[0])?;
    push_numbers(text, &tuple[1..])?;
    text.extend_from_slice(b"\n")?;
    Ok(())
}

fn push_tuples(text: &mut Vec<u8>, b: u32, k: u32, tuples: &[u32]) -> Result<(), Memory>
    requires some { 0 < k }
    requires all { length tuples.now ≡ b * k }
    ensures { OnOk result
        (text.new.items ≡ text.old.items ++ lines_text (tuple_places b k tuples.now)) }
{
    let mut rest = tuples;
    for _ in 0..b {
        let (tuple, more) = rest.split_at(k as usize);
        push_tuple(text, tuple)?;
        rest = more;
    }
    Ok(())
}

// Appends the first line of a listed design.
fn push_counts(
    text: &mut Vec<u8>,
    b: u32,
    v: u32,
    k: u32,
    r: u32,
    lambda: u32,
) -> Result<(), Memory>
    ensures { OnOk result (text.new.items ≡ text.old.items ++ line_text (Literal (codes "design") ∷ Number b ∷ Number v ∷ Number k ∷ Number r ∷ Number lambda ∷ [])) }
{
    text.extend_from_slice(b"design")?;
    push_numbers(text, &[b, v, k, r, lambda])?;
    text.extend_from_slice(b"\n")?;
    Ok(())
}

fn push_cyclic(text: &mut Vec<u8>, v: u32, base: &[u32]) -> Result<(), Memory>
    ensures { OnOk result (text.new.items ≡ text.old.items ++ line_text (Literal (codes "cyclic") ∷ Number v ∷ Literal (codes ":") ∷ map Number base.now)) }
{
    text.extend_from_slice(b"cyclic")?;
    push_number(text, v)?;
    push_word(text, b":")?;
    push_numbers(text, base)?;
    text.extend_from_slice(b"\n")?;
    Ok(())
}

fn push_complete(text: &mut Vec<u8>, v: u32, k: u32) -> Result<(), Memory>
    ensures { OnOk result (text.new.items ≡ text.old.items ++ line_text (Literal (codes "complete") ∷ Number v ∷ Number k ∷ [])) }
{
    text.extend_from_slice(b"complete")?;
    push_numbers(text, &[v, k])?;
    text.extend_from_slice(b"\n")?;
    Ok(())
}

// Appends the section of the queue, where it is given.
fn push_queue(text: &mut Vec<u8>, queue: Option<u32>) -> Result<(), Memory>
    ensures { OnOk result (text.new.items ≡ text.old.items ++ lines_text (queue_places queue)) }
{
    let Some(number) = queue else {
        return Ok(());
    };
    push_start(text, b"queue")?;
    text.extend_from_slice(b"fifo")?;
    push_number(text, number)?;
    text.extend_from_slice(b"\n")?;
    Ok(())
}

// Appends the lines of a design.
fn push_given(text: &mut Vec<u8>, given: &Given) -> Result<(), Memory>
    requires { IsPrintable given.now }
    ensures { OnOk result (text.new.items ≡ text.old.items ++ lines_text (given_places given.now)) }
{
    match given {
        Given::Listed {
            b,
            v,
            k,
            r,
            lambda,
            tuples,
        } => {
            push_counts(text, *b, *v, *k, *r, *lambda)?;
            push_tuples(text, *b, *k, tuples.as_slice())
        }
        Given::Cyclic { v, base } => push_cyclic(text, *v, base.as_slice()),
        Given::Complete { v, k } => push_complete(text, *v, *k),
    }
}

fn push_design(text: &mut Vec<u8>, design: &Option<Given>) -> Result<(), Memory>
    requires { ForSome design.now (λ given. IsPrintable given) }
    ensures { OnOk result
        (text.new.items ≡ text.old.items ++ lines_text (design_places design.now)) }
{
    match design {
        Some(given) => push_given(text, given),
        None => Ok(()),
    }
}

// Appends the sections of the array, its disks and its spares.
fn push_devices(text: &mut Vec<u8>, conf: &Conf) -> Result<(), Memory>
    ensures { OnOk result (text.new.items ≡ text.old.items ++ lines_text (device_places conf.now)) }
{
    push_start(text, b"array")?;
    push_array(text, conf.columns, conf.spares)?;
    push_start(text, b"disks")?;
    push_names(text, &conf.disks)?;
    push_spares(text, &conf.spare_names)
}

// Appends the sections of the layout and the queue.
fn push_levels(text: &mut Vec<u8>, conf: &Conf) -> Result<(), Memory>
    requires { ForSome conf.now.design (λ given. IsPrintable given) }
    ensures { OnOk result (text.new.items ≡ text.old.items ++ lines_text (level_places conf.now)) }
{
    push_start(text, b"layout")?;
    push_layout(text, conf.unit, conf.level)?;
    push_design(text, &conf.design)?;
    push_queue(text, conf.queue)
}

/// Appends the canonical text of a configuration: three numbers for the array, the section of the
/// spares where there are any, that of the queue where it is given, no debug lines; one space
/// between words, no leading zeros, no comments, and byte 10 at each line's end. It is read as this
/// configuration.
///
/// The configuration is one that a text can hold. The only error is want of memory, and `out` is
/// then as it was before.
pub fn print_conf(alloc: Global, conf: &Conf, out: &mut Vec<u8>) -> Result<(), Memory>
    requires { IsConf conf.now }
    ensures text { OnOk result (out.new.items ≡ out.old.items ++ conf_text conf.now) }
    ensures again { IsReadAs conf.now }
    ensures err { OnErr result (out.new.items ≡ out.old.items) }
{
    let mut text = Vec::new(alloc);
    push_devices(&mut text, conf)?;
    push_levels(&mut text, conf)?;
    out.extend_from_slice(&text)?;
    Ok(())
}
