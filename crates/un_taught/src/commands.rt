//! What is said of words that are no command.

use crate::near::nearest;
use crate::word::Shown;
use std::alloc::{AllocError, Global};
use un_base::memory_error::NoMemory;
use un_commands::line::read_command;
use un_outside::words::Word;

/// The first words of commands.
static COMMANDS: [&str; 13] = [
    "alloc", "run", "check", "improve", "refute", "steps", "gen", "asm", "compare", "sweep",
    "import", "inspect", "build",
];

/// The options of `alloc`; `improve` and `refute` have the first three.
static OPTIONS: [&str; 6] = ["--nodes", "--regs", "--slots", "--all", "--json", "--out"];

/// The options of `steps`.
static STEPS_OPTIONS: [&str; 2] = ["--check", "--counts"];

/// What is said of a word: what is wrong, and what would be accepted.
#[derive(Drop)]
pub struct Advice {
    pub wrong: String,
    pub help: String,
}

/// What is said of a word.
fn advised(
    wrong: Result<String, AllocError>,
    help: Result<String, AllocError>,
) -> Result<Advice, NoMemory> {
    let wrong = wrong?;
    let help = help?;
    Ok(Advice { wrong, help })
}

/// The word at a place, as it is shown; no text where there is none.
fn word_at(words: &[Word], place: usize) -> Shown<'_> {
    match words.get(place) {
        Some(word) => Shown(word.as_bytes()),
        None => Shown(&[]),
    }
}

/// The one of these words that is meant by another.
fn meant(
    alloc: Global,
    word: &[u8],
    all: &[&'static str],
) -> Result<Option<&'static [u8]>, AllocError> {
    let all: Vec<&'static [u8]> = all.iter().map(|it| it.as_bytes()).collect(alloc)?;
    nearest(alloc, word, all.as_slice())
}

/// What is said of a first word.
fn first_advice(alloc: Global, words: &[Word]) -> Result<Advice, NoMemory> {
    let Some(first) = words.first() else {
        return advised(
            format!(in alloc; "there is no command"),
            format!(in alloc; "write one, as `alloc FILE`"),
        );
    };
    let word = Shown(first.as_bytes());
    let wrong = format!(in alloc; "there is no command `{word}`");
    match meant(alloc, first.as_bytes(), &COMMANDS)? {
        Some(near) => {
            let near = Shown(near);
            advised(wrong, format!(in alloc; "did you mean `{near}`?"))
        }
        None => advised(
            wrong,
            format!(in alloc;
                "the commands are alloc, run, check, improve, refute, steps, gen, asm, compare, sweep, import, inspect and build"
            ),
        ),
    }
}

/// The range of an option's number.
fn range_of(option: &[u8]) -> &'static str {
    match option {
        b"--nodes" => "1 to 200000, and 2000 without the option",
        b"--regs" => "1 to 29; all registers without the option",
        b"--slots" => "0 to 256, and 256 without the option",
        _ => "a number",
    }
}

/// What is said of an option's number at a place.
fn number_advice(
    alloc: Global,
    words: &[Word],
    place: usize,
    option: &[u8],
) -> Result<Advice, NoMemory> {
    let name = Shown(option);
    let range = range_of(option);
    let word = word_at(words, place);
    let wrong = if place < words.len() {
        format!(in alloc; "`{name}` does not take `{word}`")
    } else {
        format!(in alloc; "`{name}` lacks its number")
    };
    advised(wrong, format!(in alloc; "it takes a whole number, {range}"))
}

/// What is said of a word that should be an option.
fn option_advice(alloc: Global, words: &[Word], place: usize) -> Result<Advice, NoMemory> {
    let Some(given) = words.get(place) else {
        return advised(
            format!(in alloc; "a word is missing"),
            format!(in alloc; "`./unison --help` has the options"),
        );
    };
    let word = Shown(given.as_bytes());
    let known = OPTIONS.iter().any(|it| it.as_bytes() == given.as_bytes());
    if known {
        return advised(
            format!(in alloc; "`{word}` may not stand here, or stands twice"),
            format!(in alloc; "give each option once"),
        );
    }
    let wrong = format!(in alloc; "there is no option `{word}`");
    match meant(alloc, given.as_bytes(), &OPTIONS)? {
        Some(near) => {
            let near = Shown(near);
            advised(wrong, format!(in alloc; "did you mean `{near}`?"))
        }
        None => advised(
            wrong,
            format!(in alloc;
                "the options are --nodes N, --regs N and --slots N, and of `--all` --json and --out FOLDER"
            ),
        ),
    }
}

/// What is said of a word of a command that searches: options stand at every second place from the first on, their numbers behind them.
fn search_advice(
    alloc: Global,
    words: &[Word],
    first: usize,
    place: usize,
) -> Result<Advice, NoMemory> {
    if place.saturating_sub(first).rem_euclid(2) == 0 {
        return option_advice(alloc, words, place);
    }
    match words.get(place.saturating_sub(1)) {
        Some(option) => number_advice(alloc, words, place, option.as_bytes()),
        None => option_advice(alloc, words, place),
    }
}

/// What is said of a word of `gen`.
fn gen_advice(alloc: Global, words: &[Word], place: usize) -> Result<Advice, NoMemory> {
    let word = word_at(words, place);
    let help = format!(in alloc; "`gen SEED SIZE`, or `gen SEED SIZE --nodes N`");
    match place {
        1 => advised(
            format!(in alloc; "the seed is a whole number from 0 to 18446744073709551615"),
            help,
        ),
        2 => advised(
            format!(in alloc; "the size, a number of blocks, is 1 to 16"),
            help,
        ),
        3 => advised(
            format!(in alloc; "`{word}` may not stand behind the size"),
            help,
        ),
        4 => number_advice(alloc, words, place, b"--nodes"),
        _ => advised(
            format!(in alloc; "nothing may stand behind the number of nodes, and `{word}` does"),
            help,
        ),
    }
}

/// What is said of a word behind those that a command has.
fn more_advice(
    alloc: Global,
    words: &[Word],
    place: usize,
    form: &str,
) -> Result<Advice, NoMemory> {
    let word = word_at(words, place);
    advised(
        format!(in alloc; "`{word}` may not stand here"),
        format!(in alloc; "the command is written `{form}`"),
    )
}

/// What is said of a word of `refute`, which has a limit with options behind it, or `--check` alone.
fn refute_advice(alloc: Global, words: &[Word], place: usize) -> Result<Advice, NoMemory> {
    if place == 1 {
        return advised(
            format!(in alloc; "the limit is a whole number from 0 to 18446744073709551615"),
            format!(in alloc; "`refute C`, with options behind it, or `refute --check`"),
        );
    }
    match words.get(1) {
        Some(second) if second.is(b"--check") => {
            more_advice(alloc, words, place, "refute --check")
        }
        _ => search_advice(alloc, words, 2, place),
    }
}

/// What is said of a word of `steps`, which has `--check` or not and then `--counts` or not.
fn steps_advice(alloc: Global, words: &[Word], place: usize) -> Result<Advice, NoMemory> {
    let form = "steps [--counts], or steps --check [--counts]";
    let Some(given) = words.get(place) else {
        return more_advice(alloc, words, place, form);
    };
    let known = STEPS_OPTIONS
        .iter()
        .any(|it| it.as_bytes() == given.as_bytes());
    if known {
        return more_advice(alloc, words, place, form);
    }
    match meant(alloc, given.as_bytes(), &STEPS_OPTIONS)? {
        Some(near) => {
            let word = Shown(given.as_bytes());
            let near = Shown(near);
            advised(
                format!(in alloc; "there is no option `{word}`"),
                format!(in alloc; "did you mean `{near}`?"),
            )
        }
        None => more_advice(alloc, words, place, form),
    }
}

/// What is said of words by the first place at which no command begins with them.
fn advice_at(alloc: Global, words: &[Word], place: usize) -> Result<Advice, NoMemory> {
    let Some(first) = words.first() else {
        return first_advice(alloc, words);
    };
    match first.as_bytes() {
        b"alloc" => search_advice(alloc, words, 1, place),
        b"improve" => search_advice(alloc, words, 1, place),
        b"refute" => refute_advice(alloc, words, place),
        b"steps" => steps_advice(alloc, words, place),
        b"gen" => gen_advice(alloc, words, place),
        b"run" => more_advice(
            alloc,
            words,
            place,
            "run FUNCTION START, or run --code LISTING START",
        ),
        b"check" => more_advice(alloc, words, place, "check FUNCTION REPORT"),
        _ => first_advice(alloc, words),
    }
}

/// What is said of words that are no command; None where they are one.
pub fn advise(alloc: Global, words: &[Word]) -> Result<Option<Advice>, NoMemory> {
    match read_command(words) {
        Ok(_) => Ok(None),
        Err(place) => {
            let advice = advice_at(alloc, words, place as usize)?;
            Ok(Some(advice))
        }
    }
}
