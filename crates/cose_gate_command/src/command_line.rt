//! The words of a command line, and what each is.
ghost use Rattle.std.specs.Prelude.{◌≡◌, ◌∷◌, [], map, string_bytes, MatchOption, option_copied};
ghost use Rattle.std.specs.Prelude.{Some, None, Ok, Err, MatchResult, if◌then◌else◌};
ghost use Rattle.std.specs.Prelude.{option_map, is_some, IfSome, length, ◌<◌, ◌≤◌, false, bytes_eq};
ghost use Rattle.std.specs.List.{list_any};
ghost use Rattle.cose_gate_command.specs.CommandLine as spec;
ghost use Rattle.cose_gate_command.specs.CommandLine.{line_view, options_view, word_view};
ghost use Rattle.cose_gate_command.specs.CommandLine.{wrong_view};

/// The options of a program.
#[derive(Debug, Clone, Copy, PartialEq, Eq)]
pub struct Options<'a> {
    /// Those that stand alone.
    pub alone: &'a [&'a str],
    /// Those that have the word after them.
    pub named: &'a [&'a str],
    /// One that has all words after it, if there is one.
    pub last: &'a [&'a str],
}

/// What a word is.
#[derive(Debug, Clone, Copy, PartialEq, Eq)]
pub enum Word<'a> {
    /// An option that stands alone, or that the program doesn't have.
    Alone(&'a str),
    /// An option, and the word after it.
    Named(&'a str, &'a str),
    /// An option that has no word after it, and has to have one.
    Lone(&'a str),
    /// Another word.
    Other(&'a str),
    /// All words after the last option.
    Rest(&'a [String]),
}

/// What is wrong with words.
#[derive(Debug, Clone, Copy, PartialEq, Eq)]
pub enum Wrong<'a> {
    /// An option that the program doesn't have.
    NoOption(&'a str),
    /// An option that has no word after it.
    NoWord(&'a str),
    /// An option that has two words.
    Twice(&'a str),
    /// A word too many.
    TooMany(&'a str),
    /// What this text says.
    Says(&'static str),
}

/// What is wrong with arguments that can't be read.
pub const NOT_UTF8: Wrong<'static> = Wrong::Says("an argument isn't UTF-8");

/// The words of a command line, from the first or from a later one on.
#[derive(Debug, Clone, Copy, PartialEq, Eq)]
pub struct CommandLine<'a> {
    options: Options<'a>,
    words: &'a [String],
    /// Whether `--` was before them.
    is_plain: bool,
}

impl<'a> CommandLine<'a> {
    /// The words after a program's name.
    pub fn new(options: Options<'a>, words: &'a [String]) -> CommandLine<'a>
        ensures line { line_view result
            ≡ spec.line (options_view options.entry) (map string_bytes words.now) }
        ensures options { result.options ≡ options.entry }
    {
        CommandLine {
            options,
            words,
            is_plain: false,
        }
    }

    /// Whether this option that stands alone is there.
    pub fn has(self, option: &str) -> bool
        ensures { result ≡ spec.has_alone option.now (line_view self.entry) }
    {
        let mut line = self;
        while let Some((word, rest)) = line.split_first() {
            if is_alone(word, option) {
                return true;
            }
            line = rest;
        }
        false
    }

    /// The word after this option.
    pub fn value(self, option: &str) -> Option<&'a str>
        ensures { option_copied result ≡ spec.value_of option.now (line_view self.entry) }
    {
        let mut line = self;
        while let Some((word, rest)) = line.split_first() {
            if let Some(value) = value_in(word, option) {
                return Some(value);
            }
            line = rest;
        }
        None
    }

    /// The words after the last option.
    pub fn last_words(self) -> Option<&'a [String]>
        ensures { option_map (λ ws. map string_bytes ws.now) result
            ≡ spec.last_words (line_view self.entry) }
    {
        let mut line = self;
        while let Some((word, rest)) = line.split_first() {
            if let Word::Rest(words) = word {
                return Some(words);
            }
            line = rest;
        }
        None
    }

    /// The first other word, and the line after it.
    pub fn next_other(self) -> Option<(&'a str, CommandLine<'a>)>
        ensures { MatchOption result (spec.others (line_view self.entry) ≡ [])
            (λ r. spec.others (line_view self.entry) ≡ r.0.now ∷ spec.others (line_view r.1)) }
    {
        let mut line = self;
        while let Some((word, rest)) = line.split_first() {
            if let Word::Other(word) = word {
                return Some((word, rest));
            }
            line = rest;
        }
        None
    }

    /// Looks whether the program has these options, and each has its word.
    ///
    /// # Errors
    /// What is wrong with the first word that is wrong.
    pub fn check(self) -> Result<(), Wrong<'a>>
        ensures { MatchResult result
            (λ _. spec.checked (options_view self.entry.options) (line_view self.entry) ≡ Ok tt)
            (λ w. spec.checked (options_view self.entry.options) (line_view self.entry)
            ≡ Err (wrong_view w)) }
    {
        let mut line = self;
        while let Some((word, rest)) = line.split_first() {
            if let Some(wrong) = rest.fault_of_word(word) {
                return Err(wrong);
            }
            line = rest;
        }
        Ok(())
    }

    /// What is wrong with the word before these.
    fn fault_of_word(self, word: Word<'a>) -> Option<Wrong<'a>>
        ensures { option_map wrong_view result
            ≡ spec.word_fault (options_view self.entry.options) (word_view word.entry)
            (line_view self.entry) }
    {
        match word {
            Word::Alone(option) => unknown(option, self.options.alone),
            Word::Named(option, _) => self.second(option),
            Word::Lone(option) => Some(Wrong::NoWord(option)),
            Word::Other(_) | Word::Rest(_) => None,
        }
    }

    /// An option that has a word before these.
    fn second(self, option: &'a str) -> Option<Wrong<'a>>
        ensures { option_map wrong_view result
            ≡ (if is_some (spec.value_of option.now (line_view self.entry))
            then Some (spec.twice option.now) else None) }
    {
        match self.value(option) {
            Some(_) => Some(Wrong::Twice(option)),
            None => None,
        }
    }

    /// The first word, and the line after it.
    fn split_first(self) -> Option<(Word<'a>, CommandLine<'a>)>
        ensures words { MatchOption result (line_view self.entry ≡ [])
            (λ r. line_view self.entry ≡ word_view r.0 ∷ line_view r.1) }
        ensures options { IfSome result (λ r. r.1.options ≡ self.entry.options) }
        ensures fewer { IfSome result (λ r. length r.1.words.now < length self.entry.words.now) }
    {
        let (first, rest) = self.words.split_first()?;
        let first = first.as_str();
        if self.is_plain {
            return Some((Word::Other(first), self.before(rest)));
        }
        self.first_of(first, rest)
    }

    /// The first of these words, none of which is after `--`, and the line after it.
    #[tactic(auto, using(crate::proofs::FirstWord::first_words))]
    fn first_of(self, first: &'a str, rest: &'a [String]) -> Option<(Word<'a>, CommandLine<'a>)>
        requires { self.is_plain ≡ false }
        ensures words { MatchOption result
            (spec.words_by (options_view self.entry.options) spec.any
            (first.now ∷ map string_bytes rest.now) ≡ [])
            (λ r. spec.words_by (options_view self.entry.options) spec.any
            (first.now ∷ map string_bytes rest.now)
            ≡ word_view r.0 ∷ line_view r.1) }
        ensures options { IfSome result (λ r. r.1.options ≡ self.entry.options) }
        ensures fewer { IfSome result (λ r. length r.1.words.now ≤ length rest.now) }
    {
        if first == "--" {
            return self.plain(rest);
        }
        if is_among(first, self.options.named) {
            return Some(self.named(first, rest));
        }
        if is_among(first, self.options.last) {
            return Some((Word::Rest(rest), self.before(&[])));
        }
        if is_option(first) {
            return Some((Word::Alone(first), self.before(rest)));
        }
        Some((Word::Other(first), self.before(rest)))
    }

    /// The same before these words.
    fn before(self, words: &'a [String]) -> CommandLine<'a>
        ensures options { result.options ≡ self.entry.options }
        ensures words { result.words.now ≡ words.now }
        ensures line { line_view result ≡ spec.words_by (options_view self.entry.options)
            (spec.next_of self.entry.is_plain) (map string_bytes words.now) }
    {
        CommandLine {
            options: self.options,
            words,
            is_plain: self.is_plain,
        }
    }

    /// The first of the words after `--`.
    fn plain(self, words: &'a [String]) -> Option<(Word<'a>, CommandLine<'a>)>
        ensures words { MatchOption result
            (spec.words_by (options_view self.entry.options) spec.plain
            (map string_bytes words.now) ≡ [])
            (λ r. spec.words_by (options_view self.entry.options) spec.plain
            (map string_bytes words.now)
            ≡ word_view r.0 ∷ line_view r.1) }
        ensures options { IfSome result (λ r. r.1.options ≡ self.entry.options) }
        ensures fewer { IfSome result (λ r. length r.1.words.now < length words.now) }
    {
        let (first, rest) = words.split_first()?;
        let line = CommandLine {
            options: self.options,
            words: rest,
            is_plain: true,
        };
        Some((Word::Other(first.as_str()), line))
    }

    /// An option with the first of the words after it.
    fn named(self, option: &'a str, words: &'a [String]) -> (Word<'a>, CommandLine<'a>)
        requires { self.is_plain ≡ false }
        ensures words { spec.words_by (options_view self.entry.options) (spec.value option.now)
            (map string_bytes words.now) ≡ word_view result.0 ∷ line_view result.1 }
        ensures options { result.1.options ≡ self.entry.options }
        ensures fewer { length result.1.words.now ≤ length words.now }
    {
        match words.split_first() {
            Some((value, rest)) => (Word::Named(option, value.as_str()), self.before(rest)),
            None => (Word::Lone(option), self.before(words)),
        }
    }
}

/// An option that isn't among these.
fn unknown<'a>(option: &'a str, options: &[&str]) -> Option<Wrong<'a>>
    ensures { option_map wrong_view result ≡ (if spec.has option.now (map (λ w. w.now) options.now)
        then None else Some (spec.no_option option.now)) }
{
    if is_among(option, options) {
        None
    } else {
        Some(Wrong::NoOption(option))
    }
}

fn is_alone(word: Word<'_>, option: &str) -> bool
    ensures { result ≡ spec.is_alone option.now (word_view word.entry) }
{
    matches!(word, Word::Alone(name) if name == option)
}

/// The word after this option, if it is here.
fn value_in<'a>(word: Word<'a>, option: &str) -> Option<&'a str>
    ensures { option_copied result ≡ spec.value_in option.now (word_view word.entry) }
{
    match word {
        Word::Named(name, value) if name == option => Some(value),
        _ => None,
    }
}

fn is_among(word: &str, options: &[&str]) -> bool
    ensures { result ≡ spec.has word.now (map (λ w. w.now) options.now) }
{
    equals_any(word, options)
}

fn equals_any(word: &str, options: &[&str]) -> bool
    ensures { result ≡ list_any (λ w. bytes_eq word.now w.now) options.now }
{
    options.iter().any(|option| word == *option)
}

/// Whether a word is an option: it begins with a hyphen, and isn't one alone.
fn is_option(word: &str) -> bool
    ensures { result ≡ spec.is_option word.now }
{
    matches!(word.as_bytes(), [b'-', _, ..])
}
