// The names and values in `clap`'s matches.
//
// `clap` answers an id that a command lacks like one that was not given.
ghost use Rattle.std.specs.Prelude.{◌≡◌, List, false, option_map};
ghost use Rattle.std.specs.Str.{bytes_eq};
ghost use Rattle.clap.specs.Words.{found_of, rows_of};
ghost use Rattle.command_words.specs.App.{HoldsParts, names_id};
ghost use Rattle.command_words.specs.Parts.{Part, first_of, names_in, values_in};
ghost use Rattle.command_words.specs.Parts as spec;

use clap::ArgMatches;

// The name behind a command that takes one.
pub fn only_name<'a>(matches: &ArgMatches<'a>) -> Option<&'a str>
    ensures { (parts : List Part) → HoldsParts parts (rows_of (found_of matches.now))
        → option_map (λ s. s.now) result ≡ spec.only_name (names_in parts) }
{
    let names = matches.get_strs("names")?;
    if names.len() == 1 {
        Some(names[0])
    } else {
        None
    }
}

// The names behind a command that takes two.
pub fn two_names<'a>(matches: &ArgMatches<'a>) -> Option<(&'a str, &'a str)>
    ensures { (parts : List Part) → HoldsParts parts (rows_of (found_of matches.now))
        → option_map (λ p. (p.0.now, p.1.now)) result ≡ spec.two_names (names_in parts) }
{
    let names = matches.get_strs("names")?;
    if names.len() == 2 {
        Some((names[0], names[1]))
    } else {
        None
    }
}

// The first value of an option.
pub fn value_of<'a>(matches: &ArgMatches<'a>, label: &str) -> Option<&'a str>
    requires { bytes_eq names_id label.now ≡ false }
    ensures { (parts : List Part) → HoldsParts parts (rows_of (found_of matches.now))
        → option_map (λ s. s.now) result ≡ first_of (values_in label.now parts) }
{
    matches.get_str(label)
}
