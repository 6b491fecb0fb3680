//! The trees of JSON texts.
ghost use Rattle.std.specs.Prelude.{◌≡◌, Some, None, IfOk, IfErr, IsUtf8};
ghost use Rattle.serde_json.specs.Read.{read};
ghost use Rattle.serde_json.specs.View.{view};
ghost use Rattle.tv_metas.specs.Reads.{IfCorrupt};

use crate::read_error::ReadError;
use serde_json::Value;
use std::alloc::Global;

/// The tree that the bytes spell.
pub(crate) fn tree_of(alloc: Global, bytes: &[u8]) -> Result<Value, ReadError>
    ensures ok { IfOk result (λ tree. IsUtf8 bytes.now × (read bytes.now ≡ Some (view tree))) }
    ensures err { IfErr result (λ e. IfCorrupt e (IsUtf8 bytes.now → read bytes.now ≡ None)) }
{
    match Value::from_slice(alloc, bytes) {
        Ok(tree) => Ok(tree),
        Err(error) => {
            if error.is_memory() {
                Err(ReadError::Memory)
            } else {
                Err(ReadError::Corrupt)
            }
        }
    }
}
