//! How what two images state differs.

ghost use Rattle.std.specs.Prelude.{◌≡◌, ◌++◌, List, map, IfOk, OnOk};
ghost use Rattle.std.specs.Option.{option_map};
ghost use Rattle.uimg_info.specs.Comparing.{AddsText, HasTexts, MapsTexts, Compares, added, additions_to, changed, changes_to, differences, differs, has_twice, now_of, option_items};
ghost use Rattle.uimg_info.specs.Statement.{Stated, stated};

use crate::statement::Statement;
use std::alloc::{AllocError, Global};
use std::collections::BTreeMap;

/// A difference of two images.
#[derive(Clone, Copy, Debug)]
pub struct Difference<'a> {
    /// The key of statements.
    pub key: &'a [u8],
    /// The text in the first image, if it states the key.
    pub old: Option<&'a [u8]>,
    /// The text in the second image, if it states the key.
    pub new: Option<&'a [u8]>,
}

// Returns whether the key is new.
fn add_text<'a>(
    texts: &mut BTreeMap<&'a [u8], &'a [u8]>,
    statement: &'a Statement,
) -> Result<bool, AllocError>
    ensures { IfOk result (λ is_new. AddsText is_new statement.now.key.items
        statement.now.text.items texts.old texts.new) }
{
    match texts.insert(statement.key.as_slice(), statement.text.as_slice()) {
        Ok(None) => Ok(true),
        Ok(Some(_)) => Ok(false),
        Err(fault) => Err(AllocError::from(fault)),
    }
}

// Returns `None` if a key comes twice.
fn texts_of<'a>(
    alloc: Global,
    all: &'a [Statement],
) -> Result<Option<BTreeMap<&'a [u8], &'a [u8]>>, AllocError>
    ensures { IfOk result (MapsTexts (map stated all.now)) }
{
    let mut texts = BTreeMap::new(alloc);
    for statement in all {
        let is_new = add_text(&mut texts, statement)?;
        if !is_new {
            return Ok(None);
        }
    }
    Ok(Some(texts))
}

#[tactic(auto, unfolding(crate::specs::Comparing::changed))]
fn changed<'a>(statement: &'a Statement, text: Option<&'a [u8]>) -> Option<Difference<'a>>
    ensures { option_items (option_map differs result)
        ≡ changed (stated statement.now) (option_map now_of text.entry) }
{
    let old = statement.text.as_slice();
    if text == Some(old) {
        return None;
    }
    Some(Difference {
        key: statement.key.as_slice(),
        old: Some(old),
        new: text,
    })
}

#[tactic(auto, unfolding(crate::specs::Comparing::added))]
fn added<'a>(statement: &'a Statement, text: Option<&'a [u8]>) -> Option<Difference<'a>>
    ensures { option_items (option_map differs result)
        ≡ added (stated statement.now) (option_map now_of text.entry) }
{
    if text.is_some() {
        return None;
    }
    Some(Difference {
        key: statement.key.as_slice(),
        old: None,
        new: Some(statement.text.as_slice()),
    })
}

fn push_found<'a>(
    to: &mut Vec<Difference<'a>>,
    found: Option<Difference<'a>>,
) -> Result<(), AllocError>
    ensures { OnOk result (map differs to.new.items
        ≡ map differs to.old.items ++ option_items (option_map differs found.entry)) }
{
    if let Some(difference) = found {
        to.push(difference)?;
    }
    Ok(())
}

fn add_changes<'a>(
    to: &mut Vec<Difference<'a>>,
    old: &'a [Statement],
    texts: &BTreeMap<&'a [u8], &'a [u8]>,
) -> Result<(), AllocError>
    ensures { (new : List Stated) → HasTexts texts.now new → OnOk result
        (map differs to.new.items ≡ map differs to.old.items ++ changes_to new (map stated old.now)) }
{
    for statement in old {
        let text = texts.get(statement.key.as_slice()).copied();
        push_found(to, changed(statement, text))?;
    }
    Ok(())
}

fn add_additions<'a>(
    to: &mut Vec<Difference<'a>>,
    new: &'a [Statement],
    texts: &BTreeMap<&'a [u8], &'a [u8]>,
) -> Result<(), AllocError>
    ensures { (old : List Stated) → HasTexts texts.now old → OnOk result
        (map differs to.new.items ≡ map differs to.old.items ++ additions_to old (map stated new.now)) }
{
    for statement in new {
        let text = texts.get(statement.key.as_slice()).copied();
        push_found(to, added(statement, text))?;
    }
    Ok(())
}

/// Why two images are not compared.
#[derive(Clone, Copy, Debug, PartialEq, Eq)]
pub enum CompareFault {
    /// Two statements of the first image have the same key.
    TwiceInOld,
    /// Two statements of the second image have the same key.
    TwiceInNew,
    /// Memory was refused.
    OutOfMemory,
}

impl From<AllocError> for CompareFault {
    ghost use Rattle.std.specs.Prelude.{◌≡◌};
    ghost use Rattle.uimg_info.specs.declared.comparing.CompareFault.TheVariants.{OutOfMemory};

    ghost from_gives = { λ _ e. e ≡ OutOfMemory };

    fn from(_fault: AllocError) -> CompareFault {
        CompareFault::OutOfMemory
    }
}

/// Returns the differences of two images by what they state: those of the first image's statements
/// in their order, then what only the second one states. Takes some 150 bytes of memory for a
/// statement.
#[tactic(auto, unfolding(crate::specs::Comparing::compared))]
pub fn compare<'a>(
    alloc: Global,
    old: &'a [Statement],
    new: &'a [Statement],
) -> Result<Vec<Difference<'a>>, CompareFault>
    ensures { Compares (map stated old.now) (map stated new.now) result }
{
    let Some(old_texts) = texts_of(alloc, old)? else {
        return Err(CompareFault::TwiceInOld);
    };
    let Some(new_texts) = texts_of(alloc, new)? else {
        return Err(CompareFault::TwiceInNew);
    };
    let mut found = Vec::new(alloc);
    add_changes(&mut found, old, &new_texts)?;
    add_additions(&mut found, new, &old_texts)?;
    Ok(found)
}
