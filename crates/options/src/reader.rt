// The reader of command lines.
ghost use Rattle.std.specs.Prelude.{◌≡◌, map};
ghost use Rattle.std.specs.Result.{result_map_both};
ghost use Rattle.options.specs.Options.{held, read_options};

use crate::bad_option::BadOption;
use crate::given::{fault_in, value};
use crate::name::Name;
use crate::options::Options;
use crate::values::{MOST_NUMBER, MOST_PAGE, authorities_in, number_in, panels_in, root_in};
use std::convert::AsStr;

impl Options {
    // The options that the words of a command line tell. The first word is the program's name.
    #[tactic(auto, unfolding(crate::specs::Options::read_options))]
    pub fn of<S: AsStr>(words: &[S]) -> Result<Options, BadOption>
        ensures { result_map_both held (λ bad. bad) result ≡ read_options (map S.text words.now) }
    {
        if let Some(bad) = fault_in(words) {
            return Err(bad);
        }
        let root = root_in(value(Name::Root, words))?;
        let holder = number_in(Name::Holder, MOST_NUMBER, value(Name::Holder, words))?;
        let quota = number_in(Name::Quota, MOST_NUMBER, value(Name::Quota, words))?;
        let panels = panels_in(value(Name::Panels, words))?;
        let authorities = authorities_in(value(Name::Authorities, words))?;
        let page = number_in(Name::Page, MOST_PAGE, value(Name::Page, words))?;
        Ok(Options {
            root,
            holder,
            quota,
            panels,
            authorities,
            page: page as usize,
        })
    }
}
