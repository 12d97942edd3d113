//! What a name has, and why no file has it.

/// What is there under a name.
#[derive(Debug, Clone, Copy, PartialEq, Eq)]
pub enum Under {
    /// Nothing.
    Nothing,
    /// A regular file.
    File,
    /// A folder, a device, a FIFO, a socket, or a symbolic link, whatever it leads to.
    Other,
    /// That can't be told.
    Unknown,
}

/// Why no new file was made.
#[derive(Debug, Clone, Copy, PartialEq, Eq)]
pub enum NotMade {
    /// Something has its name, maybe a link.
    IsThere,
    /// The folder isn't there.
    NoFolder,
    /// The folder may not be written to.
    NoPermission,
    /// Another fault.
    Fault,
}

/// Why there is no file that a payload can be put into.
#[derive(Debug, Clone, Copy, PartialEq, Eq)]
pub enum NoFile {
    /// FILE is `-`: a payload never goes to standard output before it is checked.
    Dash,
    /// FILE is there, and no regular file.
    Other,
    /// Whether FILE is there can't be told.
    Unknown,
    /// All names of its parts are taken.
    Taken,
    /// The folder of FILE isn't there.
    NoFolder,
    /// The folder of FILE may not be written to.
    NoPermission,
    /// No part can be made.
    NotMade,
}
