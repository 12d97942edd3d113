//! The folder of the system that FILE is in: five calls of std, which are read, not proved.
ghost use Rattle.std.specs.Prelude.{None};

use ciborium_ll::Io;
use cose_stream::{Folder, NotMade, Under};
use std::fs::{self, OpenOptions, Permissions};
use std::io::ErrorKind;
use std::os::unix::fs::{OpenOptionsExt, PermissionsExt};

/// The bits of a mode that are permissions.
const PERMISSIONS: u32 = 0o777;

/// The folder that FILE is in. What is done in it isn't told to contracts.
#[derive(Drop)]
pub struct HostFolder<'a> {
    rt: &'a HostRuntime,
    /// The permissions of FILE, if it is there.
    mode: Option<u32>,
}

impl<'a> HostFolder<'a> {
    /// The folder, in which nothing was looked at yet.
    pub fn new(rt: &'a HostRuntime) -> HostFolder<'a> {
        HostFolder { rt, mode: None }
    }
}

impl<'a> Folder for HostFolder<'a> {
    type File = Io<fs::File>;

    ghost done = { λ _. None };

    fn look(&mut self, name: &str) -> Under {
        match fs::symlink_metadata(self.rt, name) {
            Ok(found) if found.is_file() => {
                self.mode = Some(found.permissions().mode() & PERMISSIONS);
                Under::File
            }
            Ok(_) => Under::Other,
            // No file has an empty name.
            Err(error) if error.kind() == ErrorKind::NotFound && !name.is_empty() => Under::Nothing,
            Err(_) => Under::Unknown,
        }
    }

    fn create_new(&mut self, name: &str) -> Result<Io<fs::File>, NotMade> {
        let mut options = OpenOptions::new();
        options.write(true).create_new(true);
        if let Some(mode) = self.mode {
            options.mode(mode);
        }
        match options.open(self.rt, name) {
            Ok(file) => {
                // What the umask has taken away of the permissions of FILE.
                if let Some(mode) = self.mode {
                    let _ = file.set_permissions(Permissions::from_mode(mode));
                }
                Ok(Io::new(file))
            }
            Err(error) => Err(not_made(error.kind())),
        }
    }

    fn sync(&mut self, file: Io<fs::File>) -> bool {
        file.into_inner().sync_all().is_ok()
    }

    fn rename(&mut self, from: &str, to: &str) -> bool {
        fs::rename(self.rt, from, to).is_ok()
    }

    fn remove(&mut self, name: &str) -> bool {
        fs::remove_file(self.rt, name).is_ok()
    }
}

/// Why no file was made.
fn not_made(kind: ErrorKind) -> NotMade {
    match kind {
        ErrorKind::AlreadyExists => NotMade::IsThere,
        ErrorKind::NotFound => NotMade::NoFolder,
        ErrorKind::PermissionDenied => NotMade::NoPermission,
        _ => NotMade::Fault,
    }
}
