//! The commands, with the options and the usage line of each.
ghost use Rattle.std.specs.Prelude.{◌≡◌};
ghost use Rattle.nt_look_commands.specs.CommandLine.{can_be_strict, command_of, has_option, is_drawing, usage_of};
ghost use Rattle.nt_look_commands.specs.declared.command.Command.TheVariants.{Timeline};

/// A command of the program.
#[derive(Clone, Copy, Debug, PartialEq, Eq)]
pub enum Command {
    /// Why threads wait.
    Why,
    /// What happened, line by line.
    Timeline,
    /// Whether an order of the threads' lines hangs.
    Explore,
}

/// The command with this name.
pub(crate) fn command_of(word: &str) -> Option<Command>
    ensures { result ≡ command_of word.now }
{
    if word == "why" {
        Some(Command::Why)
    } else if word == "timeline" {
        Some(Command::Timeline)
    } else if word == "explore" {
        Some(Command::Explore)
    } else {
        None
    }
}

/// Whether the option names a file to be drawn into.
fn is_drawing(option: &str) -> bool
    ensures { result ≡ is_drawing option.now }
{
    option == "--svg" || option == "--html" || option == "--trace"
}

/// Whether it is an option of `ntlook timeline`.
fn is_of_timeline(option: &str) -> bool
    ensures { result ≡ has_option Timeline option.now }
{
    option == "--lines" || option == "--object" || option == "--thread" || is_drawing(option)
}

impl Command {
    /// Whether the command has this option.
    pub(crate) fn knows(self, option: &str) -> bool
        ensures { result ≡ has_option self option.now }
    {
        match self {
            Command::Why => option == "--at",
            Command::Timeline => is_of_timeline(option),
            Command::Explore => option == "--most" || option == "--script",
        }
    }

    /// Whether the command can be strict.
    pub(crate) fn can_be_strict(self) -> bool
        ensures { result ≡ can_be_strict self }
    {
        match self {
            Command::Why | Command::Timeline => true,
            Command::Explore => false,
        }
    }

    /// The line that tells how the command is called.
    pub fn usage(self) -> &'static [u8]
        ensures { result.now ≡ usage_of self }
    {
        match self {
            Command::Why => b"ntlook: usage: ntlook why [--strict] FILE [--at LINE]\n",
            Command::Timeline => {
                b"ntlook: usage: ntlook timeline [--strict] FILE [--lines A..B] [--object NAME] [--thread tN] [--svg OUT | --html OUT | --trace OUT]\n"
            }
            Command::Explore => {
                b"ntlook: usage: ntlook explore FILE [--script OUT] [--most STATES]   (1 to 4000000000; 1000000 if left out)\n"
            }
        }
    }
}
