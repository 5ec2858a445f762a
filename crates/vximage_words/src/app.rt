// The commands as `clap` sees them, with their help.
use clap::builder::ValueParser;
use clap::{Arg, ArgAction, Command};
use std::alloc::{AllocError, Global};

/// The version of the words and of what is printed.
const VERSION: &str = "1";

const ABOUT: &str =
    "Makes images for vest from parts and from ELF files, shows them, and lists their code.";

const NUMBERS: &str =
    "Addresses, sizes and registers are hexadecimal without a prefix; thread and section numbers are decimal. A name \
that begins with - stands behind --.";

const MAKE_ABOUT: &str = "Writes the image of parts, or of a static ELF executable for the VAX";

const MAKE_LONG: &str =
    "Writes the image of the sections, threads and entries that the words name, in their order; or, with --elf, of \
a static ELF executable for the VAX, with a stack for each thread. OUT stays as it was where nothing is made.";

const NOT_TAKEN: &str =
    "Not taken: BSD's a.out, whose programs ask 4.3BSD for what vest does not have; object files and shared ones; \
VMS images. Debugging data falls away. GNU ld's -N and -n make code that can be written, which vest does not run.";

const SHOW_ABOUT: &str =
    "Says what an image or a translated file has, and what its translation makes of it";

const DIS_ABOUT: &str =
    "Lists the code of an image or a translated file: the instructions that can be reached, and the bytes between them";

const IMAGE_HELP: &str = "An image or a translated file";

const ALPHA_HELP: &str = "Lists behind each instruction the Alpha words of its block, too";

const FROM_HELP: &str = "The first address of which lines are listed [default: 0]";

const TO_HELP: &str = "The last address of which lines are listed [default: FFFFFFFF]";

const NAMES_HELP: &str =
    "Names of addresses: each line of FILE has an address, perhaps a letter, and a name, as nm prints them";

const SECTION_HELP: &str =
    "A section from A on, read-only (r) or writable (w), of SIZE bytes; FILE's bytes are stored from A on. With \
SIZE 0 it has as many as FILE";

const THREAD_HELP: &str =
    "A thread that begins at PC with this SP; R0 to R13 are 0 where no value is given";

const ENTRY_HELP: &str = "An address from which instructions are looked for, too";

const ENTRIES_HELP: &str =
    "Further entries: each line of FILE begins with an address, as nm prints it";

const ELF_HELP: &str = "Makes the image of this executable";

const START_HELP: &str =
    "A thread begins at the instruction at A: for a procedure that is its address plus 2. Without it one thread \
begins at the file's entry point";

const STACK_HELP: &str = "The bytes of each thread's stack [default: 4000]";

const FUNCTIONS_HELP: &str =
    "What the file's symbols of functions are: procedures, which CALLS and CALLG call and which begin with two \
bytes that name registers; routines, which JSB calls; or none, which makes no entries of them [default: procedures]";

/// The option in whose place parts stand.
const ELF: &[&str] = &["elf"];

/// The options that go with parts alone.
const OF_PARTS: &[&str] = &["section", "thread", "entries"];

const KINDS: &[&str] = &["procedures", "routines", "none"];

/// An option of a command.
struct Choice {
    command: &'static str,
    label: &'static str,
    help: &'static str,
    action: ArgAction,
    /// What stands for its value in the help, where it takes one.
    value: &'static str,
    parser: ValueParser<'static>,
    /// It has to be there where none of these is.
    unless: &'static [&'static str],
    /// It goes with these alone.
    beside: &'static [&'static str],
    /// It goes with none of these. What conflicts with `--elf` would also do without it.
    without: &'static [&'static str],
}

/// An option of `make` that stands once at most, and goes with all others.
const MAKE: Choice = Choice {
    command: "make",
    label: "",
    help: "",
    action: ArgAction::Set,
    value: "",
    parser: ValueParser::String,
    unless: &[],
    beside: &[],
    without: &[],
};

/// The same of `dis`.
const DIS: Choice = Choice {
    command: "dis",
    ..MAKE
};

const OPTIONS: &[Choice] = &[
    Choice {
        label: "section",
        help: SECTION_HELP,
        action: ArgAction::Append,
        value: "A:r|w:SIZE[:FILE]",
        unless: ELF,
        ..MAKE
    },
    Choice {
        label: "thread",
        help: THREAD_HELP,
        action: ArgAction::Append,
        value: "PC:SP[:Rn=X,..]",
        unless: ELF,
        ..MAKE
    },
    Choice {
        label: "entry",
        help: ENTRY_HELP,
        action: ArgAction::Append,
        value: "A",
        ..MAKE
    },
    Choice {
        label: "entries",
        help: ENTRIES_HELP,
        value: "FILE",
        ..MAKE
    },
    Choice {
        label: "elf",
        help: ELF_HELP,
        value: "FILE",
        without: OF_PARTS,
        ..MAKE
    },
    Choice {
        label: "start",
        help: START_HELP,
        action: ArgAction::Append,
        value: "A",
        beside: ELF,
        without: OF_PARTS,
        ..MAKE
    },
    Choice {
        label: "stack",
        help: STACK_HELP,
        value: "SIZE",
        beside: ELF,
        without: OF_PARTS,
        ..MAKE
    },
    Choice {
        label: "functions",
        help: FUNCTIONS_HELP,
        value: "KIND",
        parser: ValueParser::Names(KINDS),
        beside: ELF,
        without: OF_PARTS,
        ..MAKE
    },
    Choice {
        label: "alpha",
        help: ALPHA_HELP,
        action: ArgAction::SetTrue,
        parser: ValueParser::Bool,
        ..DIS
    },
    Choice {
        label: "from",
        help: FROM_HELP,
        value: "A",
        ..DIS
    },
    Choice {
        label: "to",
        help: TO_HELP,
        value: "B",
        ..DIS
    },
    Choice {
        label: "names",
        help: NAMES_HELP,
        value: "FILE",
        ..DIS
    },
];

/// A command over one file.
struct Form {
    label: &'static str,
    about: &'static str,
    file: &'static str,
    file_help: &'static str,
    /// Whether more is told where help is asked for at length.
    has_long_help: bool,
}

const FORMS: &[Form] = &[
    Form {
        label: "make",
        about: MAKE_ABOUT,
        file: "OUT",
        file_help: "The file of the image",
        has_long_help: true,
    },
    Form {
        label: "show",
        about: SHOW_ABOUT,
        file: "NAME",
        file_help: IMAGE_HELP,
        has_long_help: false,
    },
    Form {
        label: "dis",
        about: DIS_ABOUT,
        file: "NAME",
        file_help: IMAGE_HELP,
        has_long_help: false,
    },
];

// The argument of an option, whatever that goes with.
fn argument<'a>(alloc: Global, option: &Choice) -> Arg<'a> {
    Arg::new(alloc, option.label)
        .long(option.label)
        .help(option.help)
        .action(option.action)
        .value_name(option.value)
        .value_parser(option.parser)
}

// The argument, where it may stand.
fn placed<'a>(arg: Arg<'a>, option: &Choice) -> Result<Arg<'a>, AllocError> {
    arg.requires_all(option.beside)?
        .conflicts_with_all(option.without)?
        .required_unless_present_any(option.unless)
}

// The argument of the file.
fn file_argument<'a>(alloc: Global, form: &Form) -> Arg<'a> {
    Arg::new(alloc, form.file)
        .required(true)
        .help(form.file_help)
}

// Puts an item behind others, where there is one.
fn push<T: Drop>(items: &mut Vec<T>, item: Result<T, AllocError>) -> Result<(), AllocError> {
    items.push(item?)?;
    Ok(())
}

// Puts the argument of an option behind others.
fn push_option<'a>(
    alloc: Global,
    option: &Choice,
    arguments: &mut Vec<Arg<'a>>,
) -> Result<(), AllocError> {
    push(arguments, placed(argument(alloc, option), option))
}

// Puts the arguments of a command's options behind others.
fn push_options<'a>(
    alloc: Global,
    command: &str,
    arguments: &mut Vec<Arg<'a>>,
) -> Result<(), AllocError> {
    for option in OPTIONS {
        if option.command == command {
            push_option(alloc, option, arguments)?;
        }
    }
    Ok(())
}

// Puts the argument of the file and those of the options behind others.
fn push_arguments<'a>(
    alloc: Global,
    form: &Form,
    arguments: &mut Vec<Arg<'a>>,
) -> Result<(), AllocError> {
    push(arguments, Ok(file_argument(alloc, form)))?;
    push_options(alloc, form.label, arguments)
}

// A command with what is told of it, and no argument.
fn bare_command<'a>(alloc: Global, form: &Form) -> Command<'a> {
    let command = Command::new(alloc, form.label)
        .about(form.about)
        .after_help(NUMBERS);
    if form.has_long_help {
        command.long_about(MAKE_LONG).after_long_help(NOT_TAKEN)
    } else {
        command
    }
}

fn command_of<'a>(alloc: Global, form: &Form) -> Result<Command<'a>, AllocError> {
    let mut arguments = Vec::new(alloc);
    push_arguments(alloc, form, &mut arguments)?;
    bare_command(alloc, form).args(arguments)
}

// Puts all commands behind others.
fn push_commands<'a>(alloc: Global, commands: &mut Vec<Command<'a>>) -> Result<(), AllocError> {
    for form in FORMS {
        push(commands, command_of(alloc, form))?;
    }
    Ok(())
}

// The program, with no command.
fn bare_app<'a>(alloc: Global) -> Command<'a> {
    Command::new(alloc, "vximage")
        .about(ABOUT)
        .after_help(NUMBERS)
        .version(VERSION)
        .propagate_version(true)
        .no_binary_name(true)
        .subcommand_required(true)
}

/// All commands.
pub fn vximage_app<'a>(alloc: Global) -> Result<Command<'a>, AllocError> {
    let mut commands = Vec::new(alloc);
    push_commands(alloc, &mut commands)?;
    bare_app(alloc).subcommands(commands)
}
