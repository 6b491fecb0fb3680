//! The files of a directory in memory.
ghost use Rattle.std.specs.Prelude.{◌≡◌, ◌≢◌, ◌+◌, ◌≤◌, ◌||◌, [], List, ℕ, true, false, string_bytes, Some, None, IfOk, OnOk, OnErr, is_some, length, min, option_map};
ghost use Rattle.std.specs.Bool.{OnFalse};
ghost use Rattle.std.specs.List.{AllByRecursion};
ghost use Rattle.tv_formats.specs.Names.{has, is, is_file_name};
ghost use Rattle.tv_formats.specs.Files.{Same, Sets};
ghost use Rattle.tv_formats.specs.Disk.{Absent};
ghost use Rattle.tv_base.specs.Texts.{last};
ghost use Rattle.tv_device.specs.StoredFiles.{AreSealed, PutsFile, PutsState, ReplacesFile, StandsAs, bytes_of, reads_of, disk_state_of, states_of, is_there, number_at, is_made, named, last_of, total_len};

use crate::ram_calls::file_name;
use std::alloc::Global;
use std::collections::{BTreeMap, BTreeSet};
use tv_base::OwnedBytes;
use tv_formats::{FileName, Memory};

/// What a file holds. The bytes never change, so that those who read the file own them too.
#[derive(Drop)]
pub enum Content {
    /// Of a file that isn't sealed: what was flushed.
    Unsealed(OwnedBytes),
    /// Of a sealed file: all its bytes.
    Sealed(OwnedBytes),
}

impl Content {
    /// The bytes that it reads.
    pub fn as_slice(&self) -> &[u8]
        ensures { result.now ≡ bytes_of self.now }
    {
        match self {
            Content::Unsealed(bytes) | Content::Sealed(bytes) => bytes.as_slice(),
        }
    }

    /// How many bytes it reads.
    pub fn len(&self) -> u64
        ensures { result ≡ length (bytes_of self.now) }
    {
        self.as_slice().len() as u64
    }

    /// One more owner of the bytes that it reads.
    pub fn share_bytes(&self) -> Result<OwnedBytes, Memory>
        ensures { IfOk result (λ bytes. bytes ≡ bytes_of self.now) }
    {
        match self {
            Content::Unsealed(bytes) | Content::Sealed(bytes) => bytes.share(),
        }
    }

    /// The same content, whose bytes aren't copied.
    pub fn share(&self) -> Result<Content, Memory>
        ensures { IfOk result (λ other. other ≡ self.now) }
    {
        let bytes = self.share_bytes()?;
        match self {
            Content::Unsealed(_) => Ok(Content::Unsealed(bytes)),
            Content::Sealed(_) => Ok(Content::Sealed(bytes)),
        }
    }
}

/// A file, and the number under which it was made.
#[derive(Drop)]
pub struct StoredFile {
    /// Its place among the files that were made, from 1 on. One that was there from the start has 0.
    pub number: u64,
    /// What it holds.
    pub content: Content,
}

/// Files by their names. Each file that is made gets a number that none got before: 1, 2, and so on.
#[derive(Drop)]
pub struct Files {
    /// The file of each name.
    pub map: BTreeMap<FileName, StoredFile>,
    /// The number of the file that was made last.
    pub last: u64,
}

impl Files {
    /// Sealed files of these names and bytes.
    pub fn sealed(alloc: Global, files: Vec<(String, Vec<u8>)>) -> Result<Files, Memory>
        requires { AllByRecursion (λ file. is_file_name (string_bytes file.0) ≡ true) files.items }
        ensures files { IfOk result
            (λ made. Same (last_of (named files.items)) (reads_of made.map.entries)) }
        ensures sealed { IfOk result (λ made. AreSealed made.map.entries) }
        ensures unmade { IfOk result (λ made. made.last ≡ 0) }
    {
        let map = sealed_files(alloc, files)?;
        Ok(Files { map, last: 0 })
    }

    /// No files.
    pub fn new(alloc: Global) -> Files
        ensures empty { result.map.entries ≡ [] }
        ensures unmade { result.last ≡ 0 }
    {
        Files {
            map: BTreeMap::new(alloc),
            last: 0,
        }
    }

    /// Whether the name has a file.
    pub fn has(&self, name: &FileName) -> bool
        ensures { result ≡ is_some (reads_of self.now.map.entries name.now) }
    {
        self.map.contains_key(name)
    }

    /// The number of the file that has this name.
    pub fn number(&self, name: &FileName) -> Option<u64>
        ensures { result ≡ number_at self.now.map.entries name.now }
    {
        match self.map.get(name) {
            Some(file) => Some(file.number),
            None => None,
        }
    }

    /// Whether the file of this name is the one that was made under this number.
    pub fn is_made(&self, name: &FileName, number: u64) -> bool
        ensures { result ≡ is_made self.now.map.entries name.now number }
    {
        match self.number(name) {
            Some(other) => other == number,
            None => false,
        }
    }

    /// A copy of what the name reads.
    pub fn read(&self, alloc: Global, name: &FileName) -> Result<Option<Vec<u8>>, Memory>
        ensures { IfOk result (λ found.
            option_map (λ bytes. bytes.items) found ≡ reads_of self.now.map.entries name.now) }
    {
        match self.map.get(name) {
            Some(file) => Ok(Some(Vec::from_slice(alloc, file.content.as_slice())?)),
            None => Ok(None),
        }
    }

    /// What the name reads. Its bytes aren't copied.
    pub fn share(&self, name: &FileName) -> Result<Option<OwnedBytes>, Memory>
        ensures { IfOk result (λ found. found ≡ reads_of self.now.map.entries name.now) }
    {
        match self.map.get(name) {
            Some(file) => Ok(Some(file.content.share_bytes()?)),
            None => Ok(None),
        }
    }

    /// The content of the name's file. Its bytes aren't copied.
    pub fn content(&self, name: &FileName) -> Result<Option<Content>, Memory>
        ensures { IfOk result (λ found.
            disk_state_of found ≡ states_of self.now.map.entries name.now) }
    {
        match self.map.get(name) {
            Some(file) => Ok(Some(file.content.share()?)),
            None => Ok(None),
        }
    }

    /// Makes a file of a name that has none, and answers its number.
    pub fn make(&mut self, name: FileName, content: Content) -> Result<u64, Memory>
        ensures ok { OnOk result
            (Sets (reads_of self.old.map.entries) (reads_of self.new.map.entries)
            name (Some (bytes_of content))) }
        ensures state { PutsState (states_of self.old.map.entries) (states_of self.new.map.entries)
            name (disk_state_of (Some content)) result }
        ensures number { IfOk result (λ number. number ≡ self.old.last + 1) }
        ensures made { OnOk result ((self.new.last ≡ self.old.last + 1)
            × (is_made self.new.map.entries name (self.old.last + 1) ≡ true)) }
        ensures kept { number_at self.old.map.entries name ≡ None → (n : List ℕ) (k : ℕ)
            → is_made self.old.map.entries n k ≡ true → is_made self.new.map.entries n k ≡ true }
        ensures ended { (n : List ℕ) (k : ℕ) → k ≢ self.old.last + 1
            → is_made self.old.map.entries n k ≡ false → is_made self.new.map.entries n k ≡ false }
        ensures err { OnErr result
            ((self.new.map.entries ≡ self.old.map.entries) × (self.new.last ≡ self.old.last)) }
    {
        let number = self.last.checked_add(1).ok_or(Memory)?;
        put(&mut self.map, name, StoredFile { number, content })?;
        self.last = number;
        Ok(number)
    }

    /// Gives the file of this name and number another content.
    pub fn replace(&mut self, name: FileName, number: u64, content: Content) -> Result<(), Memory>
        requires { number_at self.old.map.entries name ≡ Some number }
        ensures { ReplacesFile self.old self.new name content result }
    {
        put(&mut self.map, name, StoredFile { number, content })?;
        Ok(())
    }

    /// The same files, under no number of a writer's. Their bytes aren't copied.
    pub fn copied(&self, alloc: Global) -> Result<Files, Memory>
        ensures files { IfOk result
            (λ files. Same (reads_of self.now.map.entries) (reads_of files.map.entries)) }
        ensures unmade { IfOk result (λ files. files.last ≡ 0) }
    {
        let mut map = BTreeMap::new(alloc);
        for (name, file) in &self.map {
            let text = String::from_str(alloc, name.as_str())?;
            let copy = StoredFile {
                number: 0,
                content: file.content.share()?,
            };
            put(&mut map, FileName::new(text), copy)?;
        }
        Ok(Files { map, last: 0 })
    }

    /// Adds the names that have a file.
    pub fn add_names(&self, alloc: Global, names: &mut BTreeSet<FileName>) -> Result<(), Memory>
        ensures { OnOk result ((n : List ℕ) → has names.new.keys n
            ≡ (has names.old.keys n || is_there self.now.map.entries n)) }
    {
        for (name, _file) in &self.map {
            add_name(alloc, names, name)?;
        }
        Ok(())
    }

    /// Gives a name a sealed file of these bytes, under no number of a writer's.
    pub fn seal(&mut self, name: FileName, bytes: OwnedBytes) -> Result<(), Memory>
        ensures reads { OnOk result (Sets (reads_of self.old.map.entries)
            (reads_of self.new.map.entries) name (Some bytes)) }
        ensures sealed { OnOk result (AreSealed self.old.map.entries
            → AreSealed self.new.map.entries) }
        ensures last { self.new.last ≡ self.old.last }
    {
        let content = Content::Sealed(bytes);
        put(&mut self.map, name, StoredFile { number: 0, content })
    }

    /// The lengths of all files together, as far as 64 bits count.
    pub fn total_len(&self) -> u64
        ensures { result ≡ min (total_len self.now.map.entries) last }
    {
        let mut total: u64 = 0;
        for (_name, file) in &self.map {
            total = total.saturating_add(file.content.len());
        }
        total
    }

    /// Gives a name this content in one step. Its file keeps its number; a name that has none gets a
    /// new file.
    pub fn write(&mut self, name: FileName, content: Content) -> Result<(), Memory>
        ensures ok { OnOk result
            (Sets (reads_of self.old.map.entries) (reads_of self.new.map.entries)
            name (Some (bytes_of content))) }
        ensures state { PutsState (states_of self.old.map.entries) (states_of self.new.map.entries)
            name (disk_state_of (Some content)) result }
        ensures last { self.old.last ≤ self.new.last }
        ensures kept { (n : List ℕ) (k : ℕ)
            → is_made self.old.map.entries n k ≡ true → is_made self.new.map.entries n k ≡ true }
        ensures ended { (n : List ℕ) (k : ℕ) → k ≢ self.old.last + 1
            → is_made self.old.map.entries n k ≡ false → is_made self.new.map.entries n k ≡ false }
        ensures err { OnErr result (self.new.map.entries ≡ self.old.map.entries) }
    {
        match self.number(&name) {
            Some(number) => self.replace(name, number, content),
            None => {
                self.make(name, content)?;
                Ok(())
            }
        }
    }

    /// Deletes the file of this name, and answers whether there was one.
    pub fn delete(&mut self, name: &FileName) -> bool
        ensures there { result ≡ is_there self.old.map.entries name.now }
        ensures ok { Sets (reads_of self.old.map.entries) (reads_of self.new.map.entries) name.now
            None }
        ensures state { StandsAs (states_of self.old.map.entries) (states_of self.new.map.entries)
            name.now Absent }
        ensures number { number_at self.new.map.entries name.now ≡ None }
        ensures numbers { (n : List ℕ) → n ≢ name.now
            → number_at self.new.map.entries n ≡ number_at self.old.map.entries n }
        ensures last { self.new.last ≡ self.old.last }
        ensures err { OnFalse result (self.new.map.entries ≡ self.old.map.entries) }
    {
        self.map.remove(name).is_some()
    }
}

/// Adds a name.
pub fn add_name(
    alloc: Global,
    names: &mut BTreeSet<FileName>,
    name: &FileName,
) -> Result<(), Memory>
    ensures { OnOk result ((n : List ℕ) → has names.new.keys n
        ≡ (is name.now n || has names.old.keys n)) }
{
    names.insert(file_name(alloc, name.as_str())?)?;
    Ok(())
}

// Sealed files of these names and bytes, with the number 0.
fn sealed_files(
    alloc: Global,
    files: Vec<(String, Vec<u8>)>,
) -> Result<BTreeMap<FileName, StoredFile>, Memory>
    requires { AllByRecursion (λ file. is_file_name (string_bytes file.0) ≡ true) files.items }
    ensures files { IfOk result (λ map. Same (last_of (named files.items)) (reads_of map.entries)) }
    ensures sealed { IfOk result (λ map. AreSealed map.entries) }
{
    let mut map = BTreeMap::new(alloc);
    for (name, bytes) in files {
        let file = StoredFile {
            number: 0,
            content: Content::Sealed(OwnedBytes::new(bytes)?),
        };
        put(&mut map, FileName::new(name), file)?;
    }
    Ok(map)
}

// Gives a name this file.
fn put(
    files: &mut BTreeMap<FileName, StoredFile>,
    name: FileName,
    file: StoredFile,
) -> Result<(), Memory>
    ensures { PutsFile files.old.entries files.new.entries name file result }
{
    files.insert(name, file)?;
    Ok(())
}
