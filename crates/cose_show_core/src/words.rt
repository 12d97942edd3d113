//! The arguments of the command line.
use cose_notation::Look;
use std::slice;

/// What `--version` writes.
const VERSION: &str = "cose-show 0.8\n";

/// What `--help` writes.
const HELP: &str = "usage: cose-show [--covered] [--strict] [--json] [--aad HEX] [--keys KEYS]
                 [--full] [--secrets] [--hex] [--base64] [FILE]
       cose-show --cut SIZE DIR [FILE]

Shows each item of a CBOR sequence, from FILE or standard input: its number,
offset and length, what a COSE message or a key set holds, of any other item
its diagnostic notation with encoding indicators, and whether it is well-formed
or why cose-gate refuses it. Strings of more than 64 bytes are cut; secrets of
keys are left out.

  --keys KEYS  also whether the MAC of each message is good under the key set in
               the file KEYS, and the first reason if it isn't
  --covered    also the bytes that each signature or MAC covers, in hex
  --aad HEX    the external data, in hex; empty without it
  --strict     also whether a message that may pass is in canonical encoding,
               and the first place where it isn't
  --full       strings whole, and the diagnostic notation of messages too
  --secrets    also the secrets of keys
  --hex, --base64
               the input is such a text
  --json       one JSON object a line for each item; strings are whole
  --cut SIZE DIR
               shows nothing: writes the items to files DIR/000001.cbor and so
               on, whole items each, of at least SIZE bytes except the last
  -h, --help   this text

Input that looks like text isn't shown, as it may be a secret (--secrets does).

Status 0, or 2 for unknown arguments, 3 if FILE or KEYS can't be read or KEYS
isn't a key set, 4 if the gate stops at an item, the input is text, is damaged or
can't be read, or the output can't be written.
";

/// What is asked for.
#[derive(Debug, Clone, Copy, PartialEq, Eq)]
pub enum Words<'a> {
    /// A text: the help, or the version.
    Text(&'static str),
    /// The items, or files of them.
    Run(Options<'a>),
}

/// How the items are shown, and where they are.
#[derive(Debug, Clone, Copy, PartialEq, Eq)]
pub struct Options<'a> {
    /// With the covered bytes.
    pub covered: bool,
    /// With what keeps a message from being its canonical encoding.
    pub strict: bool,
    /// As JSON.
    pub json: bool,
    /// With strings whole and the notation of messages, and with the secrets of keys.
    pub look: Look,
    /// The external data in hex.
    pub aad: &'a str,
    /// The file with the keys of the judge, if it is to be asked.
    pub keys: Option<&'a str>,
    /// Whole items go to files, and nothing is shown.
    pub cut: Option<Cut<'a>>,
    /// How the input is written.
    pub encoding: Encoding,
    /// The file; standard input without one.
    pub path: Option<&'a str>,
}

/// How the input is written.
#[derive(Debug, Clone, Copy, PartialEq, Eq)]
pub enum Encoding {
    /// As it is.
    Binary,
    /// In hex.
    Hex,
    /// In base64, of either alphabet (RFC 4648, sections 4 and 5).
    Base64,
}

impl Encoding {
    /// The option that says so.
    pub fn option(self) -> &'static str {
        match self {
            Encoding::Binary => "",
            Encoding::Hex => "--hex",
            Encoding::Base64 => "--base64",
        }
    }
}

/// The files that a sequence is cut into.
#[derive(Debug, Clone, Copy, PartialEq, Eq)]
pub struct Cut<'a> {
    /// How many bytes each has at least, except the last.
    pub size: usize,
    /// Where they are written.
    pub folder: &'a str,
}

/// What is wrong with the arguments.
#[derive(Debug, Clone, Copy, PartialEq, Eq)]
pub enum Wrong<'a> {
    /// There is no such option.
    NoOption(&'a str),
    /// What has to come after an option is missing.
    Missing(&'static str),
    /// It is one word too many.
    Second(&'a str),
    /// It is no number of bytes.
    NoSize(&'a str),
    /// `--cut` takes no text.
    CutText,
}

/// What the arguments ask for.
///
/// # Errors
/// What is wrong with the first one that is wrong.
pub fn read_words(all: &[String]) -> Result<Words<'_>, Wrong<'_>> {
    let mut options = Options {
        covered: false,
        strict: false,
        json: false,
        look: Look::least(),
        aad: "",
        keys: None,
        cut: None,
        encoding: Encoding::Binary,
        path: None,
    };
    let mut words = all.iter();
    for _ in 0..all.len() {
        let Some(word) = words.next() else {
            break;
        };
        match word.as_str() {
            "-h" => return Ok(Words::Text(HELP)),
            "--help" => return Ok(Words::Text(HELP)),
            "--version" => return Ok(Words::Text(VERSION)),
            word => read_word(word, &mut words, &mut options)?,
        }
    }
    if options.cut.is_some() && options.encoding != Encoding::Binary {
        return Err(Wrong::CutText);
    }
    Ok(Words::Run(options))
}

/// Takes an argument, with those after it that belong to it.
fn read_word<'a>(
    word: &'a str,
    words: &mut slice::Iter<'a, String>,
    options: &mut Options<'a>,
) -> Result<(), Wrong<'a>> {
    match word {
        "--covered" | "--questions" => options.covered = true,
        "--strict" => options.strict = true,
        "--json" => options.json = true,
        "--full" => options.look.full = true,
        "--secrets" => options.look.secrets = true,
        "--hex" => options.encoding = Encoding::Hex,
        "--base64" => options.encoding = Encoding::Base64,
        "--keys" => options.keys = Some(word_after("--keys KEYS", words)?),
        "--aad" => options.aad = word_after("--aad HEX", words)?,
        "--cut" => options.cut = Some(read_cut(words)?),
        "-" => {}
        _ if word.starts_with('-') => return Err(Wrong::NoOption(word)),
        _ if options.path.is_some() => return Err(Wrong::Second(word)),
        _ => options.path = Some(word),
    }
    Ok(())
}

/// The word after an option, which is written so.
fn word_after<'a>(
    option: &'static str,
    words: &mut slice::Iter<'a, String>,
) -> Result<&'a str, Wrong<'a>> {
    match words.next() {
        Some(word) => Ok(word.as_str()),
        None => Err(Wrong::Missing(option)),
    }
}

/// A size and a folder. An empty name is none: its files would be in the root of the machine.
fn read_cut<'a>(words: &mut slice::Iter<'a, String>) -> Result<Cut<'a>, Wrong<'a>> {
    let option = "--cut SIZE DIR";
    let word = word_after(option, words)?;
    let Ok(size) = word.parse::<usize>() else {
        return Err(Wrong::NoSize(word));
    };
    let folder = word_after(option, words)?;
    if folder.is_empty() {
        return Err(Wrong::Missing(option));
    }
    Ok(Cut { size, folder })
}
