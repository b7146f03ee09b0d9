// The options that there are.
ghost use Rattle.std.specs.Prelude.{◌≡◌};
ghost use Rattle.options.specs.Names.{name_of, name_text, usual_text};

// What an option tells: what a register is founded with, or how long the page for answers is.
#[derive(Clone, Copy, PartialEq, Eq, Debug)]
pub enum Name {
    Root,
    Holder,
    Quota,
    Panels,
    Authorities,
    Page,
}

impl Name {
    // The option that a word names, if it names one.
    pub fn of(word: &[u8]) -> Option<Name>
        ensures { result ≡ name_of word.now }
    {
        match word {
            b"--root" => Some(Name::Root),
            b"--holder" => Some(Name::Holder),
            b"--quota" => Some(Name::Quota),
            b"--panels" => Some(Name::Panels),
            b"--authorities" => Some(Name::Authorities),
            b"--page" => Some(Name::Page),
            _ => None,
        }
    }

    // The word that names it.
    pub fn text(self) -> &'static str
        ensures { result.now ≡ name_text self }
    {
        match self {
            Name::Root => "--root",
            Name::Holder => "--holder",
            Name::Quota => "--quota",
            Name::Panels => "--panels",
            Name::Authorities => "--authorities",
            Name::Page => "--page",
        }
    }

    // The value that stands where the option is not given.
    pub fn usual(self) -> &'static str
        ensures { result.now ≡ usual_text self }
    {
        match self {
            Name::Root => "2.999",
            Name::Holder => "1",
            Name::Quota => "10",
            Name::Panels => "100-102",
            Name::Authorities => "1,3,5",
            Name::Page => "4096",
        }
    }
}
