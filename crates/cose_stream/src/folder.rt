//! The folder that a payload is put into.
ghost use Rattle.std.specs.Prelude.{◌≡◌, ◌∷◌, [], List, IfOk};
ghost use Rattle.cose_stream.specs.Folder.{FolderStep, saw, made, synced, renamed, removed, Does};
ghost use Rattle.cose_stream.specs.Folder.{IsEmpty, fault_of};
ghost use Rattle.std.specs.declared.option.Option.{Option};

use crate::under::{NotMade, Under};
use ciborium_ll::Write;

/// A folder, as far as a payload is put into it.
///
/// `done` is what this run has done in it, in order, and what came of it; the system's folder
/// doesn't tell, and then the clauses that name it say nothing. What other runs do in the folder
/// isn't in it.
pub trait Folder {
    /// A file that this run has made.
    type File: Write + Drop;

    /// What was done.
    ghost done: { Self → Option (List FolderStep) };

    /// What is there under this name; a link is not followed.
    fn look(&mut self, name: &str) -> Under
        ensures { Does (done self.old) (done self.new) (saw name.now result ∷ []) };

    /// Makes a new file with this name, in which nothing was written yet. What has the name
    /// already, also a link, stays as it is.
    ///
    /// # Errors
    /// Why there is no new file.
    fn create_new(&mut self, name: &str) -> Result<Self::File, NotMade>
        ensures done { Does (done self.old) (done self.new) (made name.now (fault_of result) ∷ []) }
        ensures empty { IfOk result (λ file. IsEmpty (Self.File.written file)) };

    /// Puts what was written to the file on the disk, and closes it, and says whether it did.
    fn sync(&mut self, file: Self::File) -> bool
        ensures { Does (done self.old) (done self.new)
            (synced (Self.File.written file) result ∷ []) };

    /// Renames a file, and says whether it did. Another of that name is no longer there then.
    fn rename(&mut self, from: &str, to: &str) -> bool
        ensures { Does (done self.old) (done self.new) (renamed from.now to.now result ∷ []) };

    /// Removes a file, and says whether it did.
    fn remove(&mut self, name: &str) -> bool
        ensures { Does (done self.old) (done self.new) (removed name.now result ∷ []) };
}
