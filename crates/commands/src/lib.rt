// What a line of a script asks for: a command and its numbers.
#![tactic(auto)]

ghost use Rattle.std.specs.Prelude.{◌≡◌, drop};
ghost use Rattle.std.specs.Option.{option_map};
ghost use Rattle.words.specs.Words.{words};
ghost use Rattle.commands.specs.Commands.{named, fit, publish, move_zero, read, cumulus_state, gtm_state, asked, command};

use layout::Model;
use numbers::Kind::{self, Bits, Natural, Signed};
use numbers::{bits_at, is_number, natural_at, signed_at};
use words::{has_word, word_at};

// The commands by their names.
#[derive(Clone, Copy)]
pub enum Name {
    Publish,
    Move,
    Read,
    Floats,
    Microradians,
    Many,
    GtmPublish,
    GtmMove,
    GtmRead,
    Length,
    Set,
    Fill,
    Copy,
    Show,
    Sum,
}

// A reading of each variable of a model.
#[derive(Clone, Copy)]
pub enum State {
    Cumulus {
        alpha: i64,
        beta: i64,
        xi: i64,
        eta: i64,
        zeta: i64,
    },
    Gtm {
        alpha: i64,
        eta: i64,
    },
}

// What is asked of the library.
#[derive(Clone, Copy)]
pub enum Operation {
    Publish {
        model: Model,
        into: u64,
    },
    Move {
        model: Model,
        space: u64,
        variable: u64,
        shift: i64,
        into: u64,
    },
    Read {
        space: u64,
        room: u64,
        state: State,
    },
    Floats {
        space: u64,
        alpha: u64,
        beta: u64,
        xi: u64,
        eta: u64,
        zeta: u64,
    },
    Microradians {
        room: u64,
        alpha: i64,
        beta: i64,
        xi: i64,
        eta: i64,
        zeta: i64,
    },
    Many {
        space: u64,
        states: u64,
        count: u64,
        into: u64,
    },
}

// What is done with the spaces themselves.
#[derive(Clone, Copy)]
pub enum Keeping {
    Length {
        space: u64,
        count: u64,
    },
    Set {
        space: u64,
        place: u64,
        number: i64,
    },
    Fill {
        space: u64,
        place: u64,
        step: u64,
        size: u64,
        seed: u64,
    },
    Copy {
        space: u64,
        into: u64,
    },
    Show {
        space: u64,
        place: u64,
        count: u64,
    },
    Sum {
        space: u64,
    },
}

#[derive(Clone, Copy)]
pub enum Command {
    Blank,
    Comment,
    Unknown,
    Misused(Name),
    Operation(Operation),
    Keeping(Keeping),
}

// The commands: the first word of a line, its name, and what the words behind it are.
const COMMANDS: [(&[u8], Name, &[Kind]); 15] = [
    (b"publish", Name::Publish, &[Natural]),
    (b"move", Name::Move, &[Natural, Natural, Signed, Natural]),
    (
        b"read",
        Name::Read,
        &[Natural, Natural, Signed, Signed, Signed, Signed, Signed],
    ),
    (
        b"floats",
        Name::Floats,
        &[Natural, Bits, Bits, Bits, Bits, Bits],
    ),
    (
        b"microradians",
        Name::Microradians,
        &[Natural, Signed, Signed, Signed, Signed, Signed],
    ),
    (b"many", Name::Many, &[Natural, Natural, Natural, Natural]),
    (b"gtm_publish", Name::GtmPublish, &[Natural]),
    (
        b"gtm_move",
        Name::GtmMove,
        &[Natural, Natural, Signed, Natural],
    ),
    (
        b"gtm_read",
        Name::GtmRead,
        &[Natural, Natural, Signed, Signed],
    ),
    (b"length", Name::Length, &[Natural, Natural]),
    (b"set", Name::Set, &[Natural, Natural, Signed]),
    (
        b"fill",
        Name::Fill,
        &[Natural, Natural, Natural, Natural, Natural],
    ),
    (b"copy", Name::Copy, &[Natural, Natural]),
    (b"show", Name::Show, &[Natural, Natural, Natural]),
    (b"sum", Name::Sum, &[Natural]),
];

// The name that a word is, and what the words behind it are.
fn named(word: &[u8]) -> Option<(Name, &'static [Kind])>
    ensures { option_map (λ row. (row.0, row.1.now)) result ≡ named word.now }
{
    COMMANDS
        .iter()
        .find(|row| row.0 == word)
        .map(|row| (row.1, row.2))
}

// Whether the words behind the first are as many as the kinds, and each is a number of its kind.
fn fit(line: &[u8], kinds: &[Kind]) -> bool
    ensures { result ≡ fit (drop 1 (words line.now)) kinds.now }
{
    kinds
        .iter()
        .enumerate()
        .all(|(k, kind)| is_number(line, k + 1, *kind))
        && !has_word(line, kinds.len() + 1)
}

// What each name asks for, from the words behind it. A function for each, also where two have one shape: their fields have other names, and a
// function over these would be longer.
fn publish(line: &[u8], model: Model) -> Command
    ensures { result ≡ publish model line.now }
{
    Command::Operation(Operation::Publish {
        model,
        into: natural_at(line, 1),
    })
}

fn move_zero(line: &[u8], model: Model) -> Command
    ensures { result ≡ move_zero model line.now }
{
    Command::Operation(Operation::Move {
        model,
        space: natural_at(line, 1),
        variable: natural_at(line, 2),
        shift: signed_at(line, 3),
        into: natural_at(line, 4),
    })
}

fn read(line: &[u8], state: State) -> Command
    ensures { result ≡ read state line.now }
{
    Command::Operation(Operation::Read {
        space: natural_at(line, 1),
        room: natural_at(line, 2),
        state,
    })
}

fn cumulus_state(line: &[u8]) -> State
    ensures { result ≡ cumulus_state line.now }
{
    State::Cumulus {
        alpha: signed_at(line, 3),
        beta: signed_at(line, 4),
        xi: signed_at(line, 5),
        eta: signed_at(line, 6),
        zeta: signed_at(line, 7),
    }
}

fn gtm_state(line: &[u8]) -> State
    ensures { result ≡ gtm_state line.now }
{
    State::Gtm {
        alpha: signed_at(line, 3),
        eta: signed_at(line, 4),
    }
}

fn floats(line: &[u8]) -> Command
    ensures { result ≡ asked Name.Floats line.now }
{
    Command::Operation(Operation::Floats {
        space: natural_at(line, 1),
        alpha: bits_at(line, 2),
        beta: bits_at(line, 3),
        xi: bits_at(line, 4),
        eta: bits_at(line, 5),
        zeta: bits_at(line, 6),
    })
}

fn microradians(line: &[u8]) -> Command
    ensures { result ≡ asked Name.Microradians line.now }
{
    Command::Operation(Operation::Microradians {
        room: natural_at(line, 1),
        alpha: signed_at(line, 2),
        beta: signed_at(line, 3),
        xi: signed_at(line, 4),
        eta: signed_at(line, 5),
        zeta: signed_at(line, 6),
    })
}

fn many(line: &[u8]) -> Command
    ensures { result ≡ asked Name.Many line.now }
{
    Command::Operation(Operation::Many {
        space: natural_at(line, 1),
        states: natural_at(line, 2),
        count: natural_at(line, 3),
        into: natural_at(line, 4),
    })
}

fn length(line: &[u8]) -> Command
    ensures { result ≡ asked Name.Length line.now }
{
    Command::Keeping(Keeping::Length {
        space: natural_at(line, 1),
        count: natural_at(line, 2),
    })
}

fn set(line: &[u8]) -> Command
    ensures { result ≡ asked Name.Set line.now }
{
    Command::Keeping(Keeping::Set {
        space: natural_at(line, 1),
        place: natural_at(line, 2),
        number: signed_at(line, 3),
    })
}

fn fill(line: &[u8]) -> Command
    ensures { result ≡ asked Name.Fill line.now }
{
    Command::Keeping(Keeping::Fill {
        space: natural_at(line, 1),
        place: natural_at(line, 2),
        step: natural_at(line, 3),
        size: natural_at(line, 4),
        seed: natural_at(line, 5),
    })
}

fn copy(line: &[u8]) -> Command
    ensures { result ≡ asked Name.Copy line.now }
{
    Command::Keeping(Keeping::Copy {
        space: natural_at(line, 1),
        into: natural_at(line, 2),
    })
}

fn show(line: &[u8]) -> Command
    ensures { result ≡ asked Name.Show line.now }
{
    Command::Keeping(Keeping::Show {
        space: natural_at(line, 1),
        place: natural_at(line, 2),
        count: natural_at(line, 3),
    })
}

fn sum(line: &[u8]) -> Command
    ensures { result ≡ asked Name.Sum line.now }
{
    Command::Keeping(Keeping::Sum {
        space: natural_at(line, 1),
    })
}

// What a command whose words fit asks for. The cases stand here and not as functions in the table's rows, since the gate takes none that are handed out.
fn asked(line: &[u8], name: Name) -> Command
    ensures { result ≡ asked name line.now }
{
    match name {
        Name::Publish => publish(line, Model::Cumulus),
        Name::Move => move_zero(line, Model::Cumulus),
        Name::Read => read(line, cumulus_state(line)),
        Name::Floats => floats(line),
        Name::Microradians => microradians(line),
        Name::Many => many(line),
        Name::GtmPublish => publish(line, Model::Gtm),
        Name::GtmMove => move_zero(line, Model::Gtm),
        Name::GtmRead => read(line, gtm_state(line)),
        Name::Length => length(line),
        Name::Set => set(line),
        Name::Fill => fill(line),
        Name::Copy => copy(line),
        Name::Show => show(line),
        Name::Sum => sum(line),
    }
}

// What a line asks for.
pub fn command_of(line: &[u8]) -> Command
    ensures { result ≡ command line.now }
{
    let Some(first) = word_at(line, 0) else {
        return Command::Blank;
    };
    if first.starts_with(b"#") {
        return Command::Comment;
    }
    let Some((name, kinds)) = named(first) else {
        return Command::Unknown;
    };
    if !fit(line, kinds) {
        return Command::Misused(name);
    }
    asked(line, name)
}
