//! The texts of the files of a policy.
ghost use Rattle.std.specs.Prelude.{◌≡◌, ◌++◌, ◌∷◌, [], IfOk, OnOk, map, option_map, unwrap_or};
ghost use Rattle.sudo_load.specs.Supplies.{file_in};
ghost use Rattle.review_commands.specs.FileTexts.{text_at, texts_of, texts_at};

use std::alloc::{AllocError, Global};
use sudo_load::Supply;
use sudo_text::Seq;

// Returns the text of the file at a path if this is its supply: an empty text for a missing file.
fn text_in<'a>(supply: &'a Supply, path: &[u8]) -> Option<&'a [u8]>
    ensures { option_map (λ t. t.now) result
        ≡ option_map (λ t. unwrap_or t []) (file_in path.now supply.now) }
{
    match supply {
        Supply::File { path: found, text } => {
            if found.as_slice() != path {
                return None;
            }
            match text {
                Some(text) => Some(text.as_slice()),
                None => Some(&[]),
            }
        }
        Supply::Folder { .. } => None,
    }
}

// Returns the text of the file at a path among the supplies, or an empty text if no supply has that file.
fn supplied<'a>(supplies: &'a [Supply], path: &Seq<u8>) -> &'a [u8]
    ensures { result.now ≡ text_at supplies.now path.now }
{
    let mut left = supplies;
    while let Some((supply, rest)) = left.split_first() {
        if let Some(text) = text_in(supply, path.as_slice()) {
            return text;
        }
        left = rest;
    }
    &[]
}

// Appends the text of the file at a path among the supplies.
fn push_supplied<'a>(
    texts: &mut Vec<&'a [u8]>,
    supplies: &'a [Supply],
    path: &Seq<u8>,
) -> Result<(), AllocError>
    ensures { OnOk result (map (λ t. t.now) texts.new.items
        ≡ map (λ t. t.now) texts.old.items ++ text_at supplies.now path.now ∷ []) }
{
    texts.push(supplied(supplies, path))?;
    Ok(())
}

// Returns the text of the main file, and the texts of the files at these paths among the supplies.
fn supplied_texts<'a>(
    alloc: Global,
    supplies: &'a [Supply],
    main: &'a [u8],
    paths: &[Seq<u8>],
) -> Result<Vec<&'a [u8]>, AllocError>
    ensures { IfOk result (λ texts. map (λ t. t.now) texts.items
        ≡ main.now ∷ texts_at supplies.now paths.now) }
{
    let mut texts = Vec::new(alloc);
    texts.push(main)?;
    for path in paths {
        push_supplied(&mut texts, supplies, path)?;
    }
    Ok(texts)
}

/// Returns the texts of the files of a policy, in the order of `files`, the paths of those files: that of the main file, and
/// those that were read for what it includes. Returns `AllocError` if allocation failed.
pub(crate) fn file_texts<'a>(
    alloc: Global,
    main: &'a [u8],
    supplies: &'a [Supply],
    files: &[Seq<u8>],
) -> Result<Vec<&'a [u8]>, AllocError>
    ensures { IfOk result (λ texts. map (λ t. t.now) texts.items
        ≡ texts_of main.now supplies.now files.now) }
{
    match files.split_first() {
        Some((_, included)) => supplied_texts(alloc, supplies, main, included),
        None => Ok(Vec::new(alloc)),
    }
}
