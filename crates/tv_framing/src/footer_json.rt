//! The JSON of a footer.
ghost use Rattle.std.specs.Prelude.{◌≡◌, ℕ, IfOk, MatchOption};
ghost use Rattle.serde_json.specs.View.{view};
ghost use Rattle.tv_formats.specs.FooterForm.{u32_at};
ghost use Rattle.tv_framing.specs.declared.footer.Footer.{Footer};
ghost use Rattle.tv_framing.specs.Footers.{HasFooterFields, SpellsFooter, footer_json};
ghost use Rattle.tv_framing.specs.FooterTrees.{IsVersion};

use crate::footer::Footer;
use json::Writer;
use serde_json::Value;
use std::alloc::Global;
use tv_base::{Memory, Version};

/// The footer that the bytes spell, whatever the length of the body is, and nothing for all other
/// bytes.
pub(crate) fn read_footer(alloc: Global, bytes: &[u8]) -> Result<Option<Footer>, Memory>
    ensures { IfOk result (λ found. MatchOption found
        ((footer : Footer) (length : ℕ) → SpellsFooter bytes.now length footer → ⊥)
        (λ footer. (length : ℕ) → SpellsFooter bytes.now length footer)) }
{
    match Value::from_slice(alloc, bytes) {
        Ok(tree) => Ok(footer_of(&tree)),
        Err(error) => {
            if error.is_memory() {
                Err(Memory)
            } else {
                Ok(None)
            }
        }
    }
}

// The footer that a tree holds, whatever the length of the body is, if it has its fields.
fn footer_of(tree: &Value) -> Option<Footer>
    ensures { MatchOption result
        ((footer : Footer) (length : ℕ) → HasFooterFields (view tree.now) length footer → ⊥)
        (λ footer. (length : ℕ) → HasFooterFields (view tree.now) length footer) }
{
    Some(Footer {
        version: version_of(tree.get("version")?)?,
        crc: number_at(tree, "crc")?,
    })
}

// The version that a tree holds, if it has its fields.
fn version_of(tree: &Value) -> Option<Version>
    ensures { MatchOption result ((version : Version) → IsVersion (view tree.now) version → ⊥)
        (IsVersion (view tree.now)) }
{
    Some(Version {
        major: number_at(tree, "major")?,
        minor: number_at(tree, "minor")?,
        patch: number_at(tree, "patch")?,
        index_format_version: number_at(tree, "index_format_version")?,
    })
}

// The field at the key, if it is a number of 32 bits.
fn number_at(tree: &Value, key: &str) -> Option<u32>
    ensures { result ≡ u32_at key.now (view tree.now) }
{
    let number = tree.get(key)?.as_u64()?;
    u32::try_from(number).ok()
}

/// The JSON of a footer as it is written.
pub(crate) fn write_json(alloc: Global, footer: &Footer) -> Result<Vec<u8>, Memory>
    ensures { IfOk result (λ json. json.items ≡ footer_json footer.now) }
{
    let version = footer.version;
    let mut json = Writer::new(Vec::new(alloc));
    json.begin_object()?;
    json.key("version")?;
    json.begin_object()?;
    json.key("major")?;
    json.u64(u64::from(version.major))?;
    json.key("minor")?;
    json.u64(u64::from(version.minor))?;
    json.key("patch")?;
    json.u64(u64::from(version.patch))?;
    json.key("index_format_version")?;
    json.u64(u64::from(version.index_format_version))?;
    json.end_object()?;
    json.key("crc")?;
    json.u64(u64::from(footer.crc))?;
    json.end_object()?;
    Ok(json.into_inner())
}
