//! What writes a file that will be sealed.

use tv_checksum::Crc32;
use tv_device::Directory;

/// Writes a file, and keeps the checksum of what was written.
#[derive(Drop)]
pub struct ManagedWriter<D: Directory> {
    /// What writes the file itself.
    pub writer: D::Writer,
    pub(crate) checksum: Crc32,
}
