//! What a plan may look up of the files of an index.
ghost use Rattle.std.specs.Prelude.{◌≡◌, List, ℕ, Some, length, map, option_map, string_bytes, true, IfOk, ◌++◌, ◌≤◌, ◌∷◌};
ghost use Rattle.std.specs.List.{list_all};
ghost use Rattle.tv_catalog.specs.Kept.{HasUntried, KnownState, texts_of};
ghost use Rattle.tv_formats.specs.Collections.{Collection, collectable, collection_at, held};
ghost use Rattle.tv_formats.specs.Names.{at, has, is_plain};
ghost use Rattle.tv_metas.specs.Settings.{settings_view};

use std::collections::BTreeSet;
use tv_formats::{FileName, Memory};
use tv_metas::{IndexSettings, Schema};

/// What is known of the files of an index without asking the device.
pub trait KnownFiles {
    /// All of it.
    ghost known: { Self → KnownState };

    /// The settings of the index. Takes no memory.
    fn settings(&self) -> &IndexSettings
        ensures { settings_view result.now ≡ (known self.now).form.settings };

    /// The schema of the index. Takes no memory.
    fn schema(&self) -> &Schema
        ensures { result.now ≡ (known self.now).form.schema };

    /// The managed names. Takes no memory.
    fn managed(&self) -> &BTreeSet<String>
        ensures names { map string_bytes result.now.keys ≡ (known self.now).managed }
        ensures plain { list_all is_plain (known self.now).managed ≡ true };

    /// How many bytes were written to a file, where it is open. Takes no memory.
    fn body_len(&self, name: &FileName) -> Option<u64>
        ensures { result ≡ option_map length (at (known self.now).open_files name.now) };

    /// Whether an unfinished collection holds this name. Takes no memory.
    fn is_held(&self, name: &FileName) -> bool
        ensures { result ≡ has (held (known self.now).collections) name.now };

    /// How many names a collection has yet to try, and nothing where no such collection is unfinished.
    /// Takes no memory.
    fn collect_left(&self, number: u64) -> Option<usize>
        ensures { result ≡ option_map (λ c. length c.untried)
            (collection_at (known self.now).collections number) };

    /// The number that the next collection gets. Takes no memory.
    fn next_collection(&self) -> u64
        ensures { result ≡ (known self.now).collections.next };

    /// The managed names that are neither among these nor held by an unfinished collection, in their order.
    fn collectable(&self, living: &BTreeSet<String>) -> Result<Vec<&str>, Memory>
        ensures { IfOk result (λ names. texts_of names.items
            ≡ collectable (map string_bytes living.now.keys ++ held (known self.now).collections)
            (known self.now).managed) };

    /// How long the name is that an unfinished collection tries next. Takes no memory.
    fn next_len(&self, number: u64) -> usize
        requires { HasUntried (known self.now).collections number }
        ensures len { (c : Collection) (name : List ℕ) (left : List (List ℕ))
            → collection_at (known self.now).collections number ≡ Some c → c.untried ≡ name ∷ left
            → result ≡ length name }
        ensures few { result ≤ 255 };
}
