//! Reads the bodies of sealed files, and their checksums.
ghost use Rattle.std.specs.Prelude.{◌≡◌, ◌==◌, List, ℕ, true, IfOk, IfErr, string_bytes};
ghost use Rattle.tv_formats.specs.Checksum.{crc32};
ghost use Rattle.tv_formats.specs.Names.{is_file_name};
ghost use Rattle.tv_framing.specs.Footers.{IsFramedAs, Refuses};
ghost use Rattle.tv_device.specs.Images.{KeepsDisk};
ghost use Rattle.tv_device.specs.View.{OnlyReads};
ghost use Rattle.tv_managed.specs.Frames.{KeepsNames, OnlyAsks};
ghost use Rattle.tv_managed.specs.Reading.{BodyFaults, FooterFaults, HasNoFooter, NamesFile, OpenBodyCause, ReadsBody, ReadsSuch, TellsChecksum};

use crate::managed_directory::ManagedDirectory;
use std::alloc::Global;
use tv_base::{FileSlice, IoError, OpenReadError, OwnedBytes};
use tv_checksum::{Checksum, Crc32};
use tv_device::Directory;
use tv_framing::Footer;

impl<D: Directory> ManagedDirectory<D> {
    /// The body of the sealed file: its bytes without the footer, whatever checksum that has.
    /// `FileDoesNotExist` comes where the name doesn't read, a fault of kind `UnexpectedEof` or
    /// `InvalidData` where its bytes end in no footer, and `IncompatibleIndex` where the footer is of
    /// a format that isn't read.
    pub fn open_read(&mut self, name: &str) -> Result<FileSlice, OpenReadError>
        requires { is_file_name name.now ≡ true }
        ensures body { D.told.content
            → IfOk result (ReadsBody ((D.view self.old.0).reads name.now)) }
        ensures back { D.told.content → (body : List ℕ)
            → ReadsBody ((D.view self.old.0).reads name.now) body
            → IfOk result (λ found. found ≡ body) }
        ensures faults { BodyFaults D.Directory self.old.0 self.new.0 name.now result }
        ensures frame { KeepsNames (OnlyReads D.told) D.view self.old self.new }
        ensures images { D.tells_images
            → KeepsDisk (D.disk self.old.0) (D.disk self.new.0) }
    {
        let (footer, body) = self.framed(name)?;
        footer.is_compatible()?;
        Ok(body)
    }

    /// The bytes of the body. It is refused where `open_read` is.
    pub fn get_file_handle(&mut self, name: &str) -> Result<OwnedBytes, OpenReadError>
        requires { is_file_name name.now ≡ true }
        ensures body { D.told.content
            → IfOk result (ReadsBody ((D.view self.old.0).reads name.now)) }
        ensures back { D.told.content → (body : List ℕ)
            → ReadsBody ((D.view self.old.0).reads name.now) body
            → IfOk result (λ found. found ≡ body) }
        ensures faults { BodyFaults D.Directory self.old.0 self.new.0 name.now result }
        ensures frame { KeepsNames (OnlyReads D.told) D.view self.old self.new }
        ensures images { D.tells_images
            → KeepsDisk (D.disk self.old.0) (D.disk self.new.0) }
    {
        let body = self.open_read(name)?;
        bytes_of(body)
    }

    /// Whether the checksum in the file's footer is that of its body. It is refused where `open_read`
    /// is, but a file of any format is taken.
    pub fn validate_checksum(&mut self, name: &str) -> Result<bool, OpenReadError>
        requires { is_file_name name.now ≡ true }
        ensures answer { D.told.content → IfOk result (λ is_right.
            ReadsSuch ((D.view self.old.0).reads name.now)
            (λ bytes. TellsChecksum bytes is_right)) }
        ensures faults { FooterFaults D.Directory self.old.0 self.new.0 name.now result }
        ensures frame { KeepsNames (OnlyReads D.told) D.view self.old self.new }
        ensures images { D.tells_images
            → KeepsDisk (D.disk self.old.0) (D.disk self.new.0) }
    {
        let (footer, body) = self.framed(name)?;
        is_right(footer.crc(), body)
    }

    // The footer of the file, and the body before it.
    fn framed(&mut self, name: &str) -> Result<(Footer, FileSlice), OpenReadError>
        requires { is_file_name name.now ≡ true }
        ensures framed { IfOk result (λ found.
            (bytes : List ℕ) × IsFramedAs bytes found.0 found.1) }
        ensures read { D.told.content → IfOk result (λ found.
            ReadsSuch ((D.view self.old.0).reads name.now)
            (λ bytes. IsFramedAs bytes found.0 found.1)) }
        ensures asks { OnlyAsks D.Directory self.old self.new
            (FooterFaults D.Directory self.old.0 self.new.0 name.now result) }
    {
        let filepath = String::from_str(self.alloc, name)?;
        let file = self.directory.open_read(name)?;
        footer_of(self.alloc, file, filepath)
    }
}

// The bytes of a body.
fn bytes_of(body: FileSlice) -> Result<OwnedBytes, OpenReadError>
    ensures bytes { IfOk result (λ bytes. bytes ≡ body) }
    ensures wanted { IfErr result (λ error. error ≡ OpenReadError.Memory) }
{
    Ok(body.read_bytes()?)
}

// Whether this is the checksum of a body.
fn is_right(crc: u32, body: FileSlice) -> Result<bool, OpenReadError>
    ensures says { IfOk result (λ is_right. is_right ≡ (crc == crc32 body)) }
    ensures wanted { IfErr result (λ error. error ≡ OpenReadError.Memory) }
{
    let bytes = body.read_bytes()?;
    let mut checksum = Crc32::start();
    checksum.update(bytes.as_slice());
    Ok(crc == checksum.finish())
}

// The footer of a file of this path, and the body before it.
fn footer_of(
    alloc: Global,
    file: FileSlice,
    filepath: String,
) -> Result<(Footer, FileSlice), OpenReadError>
    ensures framed { IfOk result (λ found. IsFramedAs file found.0 found.1) }
    ensures bad { IfErr result (OpenBodyCause ⊥ (Refuses file) (λ _. ⊥) ⊥ (Unit {0})) }
    ensures outside { IfErr result
        (OpenBodyCause (Unit {0}) (λ _. HasNoFooter file) (λ _. ⊥) (Unit {0}) (Unit {0})) }
    ensures path { IfErr result (NamesFile (string_bytes filepath)) }
{
    match Footer::extract_footer(alloc, file) {
        Ok(found) => Ok(found),
        Err(IoError::Fault(io_error)) => Err(OpenReadError::IoError { io_error, filepath }),
        Err(IoError::Memory) => Err(OpenReadError::Memory),
    }
}
