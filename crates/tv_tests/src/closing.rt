//! What comes of an opening over a directory. What was opened is closed again.
use tv_base::TantivyError;
use tv_directory::Directory;
use tv_index::Index;
use tv_managed::{ManagedDirectory, Refused};

/// What stands over a directory, and goes with it.
pub(crate) trait Close {
    fn close(self);
}

impl<D: Directory + Drop> Close for ManagedDirectory<D> {
    fn close(self) {
        drop(self.into_directory());
    }
}

impl<D: Directory + Drop> Close for Index<D> {
    fn close(self) {
        drop(self.into_directory());
    }
}

/// What came of an opening.
pub(crate) fn closed<T: Close, E>(opened: Result<T, E>) -> Result<(), E> {
    match opened {
        Ok(opened) => {
            opened.close();
            Ok(())
        }
        Err(error) => Err(error),
    }
}

/// What came of an opening that gives the directory back where it is refused.
pub(crate) fn outcome<T: Close, D: Drop>(
    opened: Result<T, Refused<D>>,
) -> Result<(), TantivyError> {
    match closed(opened) {
        Ok(()) => Ok(()),
        Err(
            Refused {
                error,
                directory: _,
            },
        ) => Err(error),
    }
}
