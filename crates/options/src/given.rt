// What a command line gives.
ghost use Rattle.std.specs.Prelude.{◌≡◌, map, drop};
ghost use Rattle.std.specs.Option.{option_map};
ghost use Rattle.options.specs.Options.{value_of, value, fault_from, arguments_of};

use crate::bad_option::BadOption;
use crate::name::Name;
use std::convert::AsStr;

// The first fault of words that are not, behind the program's name, options with their values, each option at most once.
pub(crate) fn fault_in<S: AsStr>(words: &[S]) -> Option<BadOption>
    ensures { result ≡ fault_from 1 (arguments_of (map S.text words.now)) }
{
    let mut left = arguments(words);
    while let [word, behind @ ..] = left {
        let Some(option) = Name::of(word.as_str().as_bytes()) else {
            return Some(BadOption::Unknown {
                index: words.len() - left.len(),
            });
        };
        let [_, others @ ..] = behind else {
            return Some(BadOption::NoValue(option));
        };
        if value_of(option, others).is_some() {
            return Some(BadOption::Twice(option));
        }
        left = others;
    }
    None
}

// The value that an option has: the one that is given, or the usual one.
pub(crate) fn value<S: AsStr>(option: Name, words: &[S]) -> &[u8]
    ensures { result.now ≡ value option (arguments_of (map S.text words.now)) }
{
    value_of(option, arguments(words))
        .unwrap_or(option.usual())
        .as_bytes()
}

// The words but for the program's name.
fn arguments<S>(words: &[S]) -> &[S]
    ensures { result.now ≡ drop 1 words.now }
{
    words.get(1..).unwrap_or(&[])
}

// The value that is given to an option, if one is.
fn value_of<S: AsStr>(option: Name, arguments: &[S]) -> Option<&str>
    ensures { option_map (λ value. value.now) result ≡ value_of option (map S.text arguments.now) }
{
    let mut left = arguments;
    while let [word, value, others @ ..] = left {
        if option.text() == word.as_str() {
            return Some(value.as_str());
        }
        left = others;
    }
    None
}
