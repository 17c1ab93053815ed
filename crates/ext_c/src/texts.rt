//! Texts that stand one after another.
ghost use Rattle.std.specs.Prelude.{◌≡◌, ◌⊎◌, ◌∷◌, ◌++◌, [], IfErr, IfOk, true};
ghost use Rattle.ext_tree.specs.Keys as keys;
ghost use Rattle.ext_c.specs.declared.code.Code.TheVariants as code;
ghost use Rattle.ext_c.specs.Texts.{AreTexts, IsTextFault, texts_in};

use crate::code::Code;
use std::alloc::Global;

// The texts of these lengths. Takes memory for their list; want of it is reported last, if each is
// a text.
pub(crate) fn read_texts<'a>(
    alloc: Global,
    bytes: &'a [u8],
    lengths: &[u32],
) -> Result<Vec<&'a str>, Code>
    ensures texts { IfOk result (λ texts. keys.texts_of texts.items ≡ texts_in bytes.now lengths.now) }
    ensures well { IfOk result (λ _. AreTexts bytes.now lengths.now) }
    ensures refused { IfErr result (λ said. IsTextFault bytes.now lengths.now said ⊎ (AreTexts bytes.now lengths.now × (said ≡ code.NoMemory))) }
{
    let mut rest = bytes;
    let mut texts = Vec::new(alloc);
    let mut is_whole = true;
    for length in lengths {
        let Some((own, after)) = rest.split_at_checked(*length as usize) else {
            return Err(Code::BadLengths);
        };
        let Ok(text) = std::str::from_utf8(own) else {
            return Err(Code::BadText);
        };
        is_whole = adds(&mut texts, text, is_whole);
        rest = after;
    }
    if is_whole {
        Ok(texts)
    } else {
        Err(Code::NoMemory)
    }
}

// Adds the text, and answers whether there was memory for it and for those before it.
fn adds<'a>(texts: &mut Vec<&'a str>, text: &'a str, is_whole: bool) -> bool
    ensures whole { result ≡ true → is_whole ≡ true }
    ensures added { result ≡ true → texts.new.items ≡ texts.old.items ++ text.entry ∷ [] }
{
    match texts.push(text) {
        Ok(()) => is_whole,
        Err(_) => false,
    }
}
