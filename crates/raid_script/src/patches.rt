//! The spans of a write of several, and what is written over them.
ghost use Rattle.std.specs.Prelude.{◌≡◌, ◌+◌, ◌-◌, ◌<◌, ◌≤◌, [], ◌∷◌, ◌++◌, All, IfOk, OnOk};
ghost use Rattle.blk_plain.specs.Plain.{used_of};
ghost use Rattle.raid_text.specs.Seen.{words_left};
ghost use Rattle.graph_text.specs.Answers.{Gives};
ghost use Rattle.raid_script.specs.Steps.{seen_patch, seen_patches};
ghost use Rattle.raid_script.specs.Format.{all_patches_of, next_patch, patches_of};
ghost use Rattle.raid_script.specs.Answers.{behind};

use crate::codes::WORD;
use crate::words::{next_pattern, span_from};
use blk_plain::{Patch, Patches, limits};
use raid_text::Words;

// FIRST, which is this word, COUNT and PATTERN.
#[tactic(auto, unfolding(crate::specs::Format::next_patch))]
fn patch_from(word: &[u8], words: &mut Words) -> Result<Patch, u8>
    ensures value { Gives (λ p. (seen_patch p, words_left words.new)) result
        (next_patch (word.now ∷ words_left words.old)) }
    ensures some { IfOk result (λ p. 1 ≤ p.span.count) }
{
    let span = span_from(word, words)?;
    let pattern = next_pattern(words)?;
    Ok(Patch { span, pattern })
}

/// FIRST, COUNT and PATTERN.
#[tactic(auto, unfolding(crate::specs::Format::next_patch, crate::specs::Format::next_span, text_steps::specs::Steps::next_number))]
pub fn next_patch(words: &mut Words) -> Result<Patch, u8>
    ensures value { Gives (λ p. (seen_patch p, words_left words.new)) result
        (next_patch (words_left words.old)) }
    ensures some { IfOk result (λ p. 1 ≤ p.span.count) }
{
    match words.next() {
        Some(word) => patch_from(word, words),
        None => Err(WORD),
    }
}

/// Two patches.
pub fn two_patches(one: Patch, other: Patch) -> Patches
    ensures used { result.used ≡ 2 }
    ensures list { used_of result ≡ one ∷ other ∷ [] }
{
    let mut patches = Patches {
        used: 1,
        list: [one; 8],
    };
    push_patch(&mut patches, other);
    patches
}

// Puts a patch behind those in use.
fn push_patch(patches: &mut Patches, patch: Patch)
    requires { patches.old.used < 8 }
    ensures used { patches.new.used ≡ patches.old.used + 1 }
    ensures list { used_of patches.new ≡ used_of patches.old ++ patch ∷ [] }
{
    patches.list[patches.used as usize] = patch;
    patches.used += 1;
}

// Puts the patches up to the line's end behind those in use.
fn add_patches(words: &mut Words, patches: &mut Patches) -> Result<(), u8>
    requires few { patches.old.used ≤ 8 }
    requires some { All (λ p. 1 ≤ p.span.count) (used_of patches.old) }
    ensures value { Gives (λ _. seen_patches patches.new) result
        (behind (seen_patches patches.old)
        (patches_of (8 - patches.old.used) (words_left words.old))) }
    ensures few { OnOk result (patches.new.used ≤ 8) }
    ensures some { OnOk result (All (λ p. 1 ≤ p.span.count) (used_of patches.new)) }
{
    while let Some(word) = words.next() {
        if u32::from(patches.used) == limits::SPANS {
            return Err(WORD);
        }
        let patch = patch_from(word, words)?;
        push_patch(patches, patch);
    }
    Ok(())
}

/// FIRST COUNT PATTERN, one to eight times.
#[tactic(auto, unfolding(crate::specs::Format::all_patches_of, crate::specs::Format::next_patch, crate::specs::Format::next_span, text_steps::specs::Steps::next_number))]
pub fn patches_in(words: &mut Words) -> Result<Patches, u8>
    ensures value { Gives seen_patches result (all_patches_of (words_left words.old)) }
    ensures few { IfOk result (λ p. p.used ≤ 8) }
    ensures some { IfOk result (λ p. All (λ q. 1 ≤ q.span.count) (used_of p)) }
{
    let Some(word) = words.next() else {
        return Err(WORD);
    };
    let first = patch_from(word, words)?;
    let mut patches = Patches {
        used: 1,
        list: [first; 8],
    };
    add_patches(words, &mut patches)?;
    Ok(patches)
}
