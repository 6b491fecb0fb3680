//! The fields of JSON objects.
ghost use Rattle.std.specs.Prelude.{◌≡◌};
ghost use Rattle.serde_json.specs.View.{view};
ghost use Rattle.tv_formats.specs.JsonFields.{bool_or, field, u32_of, u64_of, u64_or};

use serde_json::Value;

/// The number of 32 bits at a key.
pub(crate) fn u32_at(tree: &Value, key: &str) -> Option<u32>
    ensures { result ≡ field u32_of key.now (view tree.now) }
{
    let number = tree.get(key)?.as_u64()?;
    u32::try_from(number).ok()
}

/// The number of 64 bits at a key.
pub(crate) fn u64_at(tree: &Value, key: &str) -> Option<u64>
    ensures { result ≡ field u64_of key.now (view tree.now) }
{
    tree.get(key)?.as_u64()
}

/// The number of 64 bits at a key, or this one where there is nothing.
pub(crate) fn u64_or(tree: &Value, key: &str, default: u64) -> Option<u64>
    ensures { result ≡ u64_or default key.now (view tree.now) }
{
    match tree.get(key) {
        Some(value) => value.as_u64(),
        None => Some(default),
    }
}

/// Whether true stands at a key, or this where there is nothing.
pub(crate) fn bool_or(tree: &Value, key: &str, default: bool) -> Option<bool>
    ensures { result ≡ bool_or default key.now (view tree.now) }
{
    match tree.get(key) {
        Some(value) => value.as_bool(),
        None => Some(default),
    }
}
