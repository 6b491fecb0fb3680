//! What is known of the files of an index without asking the device.
ghost use Rattle.std.specs.Prelude.{◌≡◌, List, ℕ, Some, length, map, option_map, string_bytes, true, IfOk, ◌++◌, ◌≤◌, ◌∷◌};
ghost use Rattle.std.specs.List.{list_all};
ghost use Rattle.tv_catalog.specs.Kept.{HasUntried, texts_of};
ghost use Rattle.tv_formats.specs.Collections.{Collection, collectable, collection_at, held};
ghost use Rattle.tv_formats.specs.Names.{at, has, is_plain};
ghost use Rattle.tv_metas.specs.Settings.{settings_view};
ghost use Rattle.tv_store.specs.Kept.{known_of};

use crate::files::StoreFiles;
use std::collections::BTreeSet;
use tv_catalog::known::KnownFiles;
use tv_device::Outside;
use tv_formats::{FileName, Memory};
use tv_index::{IndexSettings, Schema};

impl<O: Outside> KnownFiles for StoreFiles<O> {
    ghost known = { known_of };

    fn settings(&self) -> &IndexSettings
        ensures { settings_view result.now ≡ self.now.form.settings }
    {
        self.index.settings()
    }

    fn schema(&self) -> &Schema
        ensures { result.now ≡ self.now.form.schema }
    {
        self.index.schema()
    }

    fn managed(&self) -> &BTreeSet<String>
        ensures names { map string_bytes result.now.keys ≡ self.now.managed }
        ensures plain { list_all is_plain self.now.managed ≡ true }
    {
        self.index.directory().list_managed_files()
    }

    fn body_len(&self, name: &FileName) -> Option<u64>
        ensures { result ≡ option_map length (at self.now.open_files name.now) }
    {
        match self.files.get(name) {
            Some(file) => Some(file.len),
            None => None,
        }
    }

    fn is_held(&self, name: &FileName) -> bool
        ensures { result ≡ has (held self.now.collections) name.now }
    {
        self.index.directory().is_held(name.as_str())
    }

    fn collect_left(&self, number: u64) -> Option<usize>
        ensures { result ≡ option_map (λ c. length c.untried)
            (collection_at self.now.collections number) }
    {
        self.index.directory().collect_left(number)
    }

    fn next_collection(&self) -> u64
        ensures { result ≡ self.now.collections.next }
    {
        self.index.directory().next_collection()
    }

    fn collectable(&self, living: &BTreeSet<String>) -> Result<Vec<&str>, Memory>
        ensures { IfOk result (λ names. texts_of names.items
            ≡ collectable (map string_bytes living.now.keys ++ held self.now.collections)
            self.now.managed) }
    {
        self.index.directory().collectable(living)
    }

    fn next_len(&self, number: u64) -> usize
        requires { HasUntried self.now.collections number }
        ensures len { (c : Collection) (name : List ℕ) (left : List (List ℕ))
            → collection_at self.now.collections number ≡ Some c → c.untried ≡ name ∷ left
            → result ≡ length name }
        ensures few { result ≤ 255 }
    {
        self.index.directory().collect_next(number).len()
    }
}
