//! The arguments of the command line.
ghost use Rattle.std.specs.Prelude.{◌≡◌, map, option_map, option_copied, string_bytes};
ghost use Rattle.cose_gate_program.specs.Words as spec;

/// KEYS, and AADHEX if it is there, of the arguments after the program's name; `None` if there is
/// no argument, or more than two.
pub fn words(all: &[String]) -> Option<(&str, Option<&str>)>
    ensures { option_map (λ w. (w.0.now, option_copied w.1)) result
        ≡ spec.words (map string_bytes all.now) }
{
    match all {
        [keys] => Some((keys.as_str(), None)),
        [keys, aad] => Some((keys.as_str(), Some(aad.as_str()))),
        _ => None,
    }
}
