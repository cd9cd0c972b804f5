//! Files that are opened by their paths.
ghost use Rattle.std.specs.Prelude.{ℕ, List, Result, ⊤};
ghost use Rattle.std.specs.declared.io.Error.{Error};
ghost use Rattle.ffv1_files.specs.declared.paths.Way.{Way};

use crate::once::{NotOpened, OpenedFile, Opener};
use std::fs::File;
use std::io;
use std::rt::Files;

/// How the file at a path is opened.
#[derive(Clone, Copy)]
pub enum Way {
    /// To be read.
    ToRead,
    /// It is made. One that is there is emptied.
    ToMake,
}

/// What opens files by their paths.
pub trait FilesByPath {
    /// A file that is opened.
    type File: OpenedFile;

    // what it may come to if the file at a path is opened so
    ghost opens_path: { Self → Way → List ℕ → Result Self.File Error → Type 0 };

    /// Opens the file at this path in this way.
    fn open_path(&self, way: Way, path: &str) -> io::Result<Self::File>
        ensures { opens_path self.now way path.now result };
}

/// The files of std. No clause says which file is opened or made at a path, how often that is tried, and how it fails, since the
/// contracts of std do not.
impl<R: Files> FilesByPath for R {
    type File = R::File;

    ghost opens_path = { λ _ _ _ _. ⊤ };

    fn open_path(&self, way: Way, path: &str) -> io::Result<R::File> {
        match way {
            Way::ToRead => File::open(self, path),
            Way::ToMake => File::create(self, path),
        }
    }
}

/// A path, and how its file is opened.
#[derive(Drop)]
pub struct PathToOpen<'a, R> {
    pub rt: &'a R,
    pub way: Way,
    pub path: &'a str,
}

impl<'a, R: FilesByPath> Opener for PathToOpen<'a, R> {
    type File = R::File;

    ghost opens = { λ it result. R.opens_path it.rt.now it.way it.path.now result };

    fn open(self) -> Result<R::File, NotOpened<PathToOpen<'a, R>>> {
        match self.rt.open_path(self.way, self.path) {
            Ok(file) => Ok(file),
            Err(error) => Err(NotOpened {
                error,
                opener: self,
            }),
        }
    }
}
