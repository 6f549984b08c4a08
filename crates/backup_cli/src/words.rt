ghost use Rattle.std.specs.Prelude.{◌≡◌, ◌≢◌, ℕ, ◌≤◌, [], ◌∷◌, true, false, Ok, None, IfOk, IfSome, IfNone, map, string_bytes, decimal};
ghost use Rattle.psb_bytes.specs.declared.ids.Ticket.{Ticket};
ghost use Rattle.backup_cli.specs.declared.words.Which.{Which};
ghost use Rattle.backup_cli.specs.Words.{is_path, is_folder, below_root, IsTicketText, IsWhich, IsCommand, IsNoCommand, FixTheCommand};

use crate::read_number;
use psb_bytes::{Memory, Text, Ticket, has_names};
use std::alloc::Global;

/// The greatest number of turns that one command asks for.
const MOST_TURNS: u64 = 1_000_000;

/// The greatest number that a snapshot may have.
const MOST_NUMBER: u64 = 4_294_967_295;

/// The most bytes of a path.
const MOST_PATH_BYTES: usize = 4_096;

/// The snapshot that a word names.
#[derive(Clone, Copy, Debug, PartialEq, Eq)]
pub enum Which {
    /// The kept one of this number.
    Number(u32),
    /// The one that this is the ticket of.
    Of(Ticket),
}

/// What the words ask for.
#[derive(Clone, Copy, Debug, PartialEq, Eq)]
pub(crate) enum Command<'a> {
    /// `serve TURNS`: the node is served for so many turns.
    Serve(u32),
    /// `ledger`: the node's ledger is told.
    Ledger,
    /// `init FILE`: a node is begun with the settings in the file at this path.
    Init(&'a str),
    /// `snapshots`: the node's kept snapshots are told.
    Snapshots,
    /// `forget NUMBER`: the snapshot of this number is given up.
    Forget(u32),
    /// `backup FOLDER`: a snapshot of the folder at this path is made.
    Backup(&'a str),
    /// `restore TICKET FOLDER TURNS`: a snapshot is written into the folder at this path, with so many turns
    /// for each chunk that peers are asked for.
    Restore {
        which: Which,
        folder: &'a str,
        turns: u32,
    },
}

/// The command that words are, if they are one.
pub(crate) fn read_words(words: &[String]) -> Option<Command<'_>>
    ensures some { IfSome result (λ command. IsCommand (map string_bytes words.now) command) }
    ensures none { IfNone result (IsNoCommand (map string_bytes words.now)) }
{
    match words {
        [command] => read_single(command.as_str()),
        [command, word] => read_command(command.as_str(), word.as_str()),
        [command, ticket, folder, turns] => read_long(
            command.as_str(),
            ticket.as_str(),
            folder.as_str(),
            turns.as_str(),
        ),
        _ => None,
    }
}

/// The command that one word is, if it is one.
fn read_single<'a>(command: &str) -> Option<Command<'a>>
    ensures some { IfSome result (λ c. IsCommand (command.now ∷ []) c) }
    ensures none { IfNone result (IsNoCommand (command.now ∷ [])) }
{
    match command {
        "ledger" => Some(Command::Ledger),
        "snapshots" => Some(Command::Snapshots),
        _ => None,
    }
}

/// The command that two words are, if they are one.
fn read_command<'a>(command: &str, word: &'a str) -> Option<Command<'a>>
    ensures some { IfSome result (λ c. IsCommand (command.now ∷ word.now ∷ []) c) }
    ensures none { IfNone result (IsNoCommand (command.now ∷ word.now ∷ [])) }
{
    match command {
        "serve" => Some(Command::Serve(read_turns(word)?)),
        "init" if is_path(word) => Some(Command::Init(word)),
        "forget" => Some(Command::Forget(read_snapshot(word)?)),
        "backup" if is_folder(word) => Some(Command::Backup(word)),
        _ => None,
    }
}

/// The command that four words are, if they are one.
fn read_long<'a>(command: &str, ticket: &str, folder: &'a str, turns: &str) -> Option<Command<'a>>
    ensures some { IfSome result (λ c. IsCommand (command.now ∷ ticket.now ∷ folder.now ∷ turns.now ∷ []) c) }
    ensures none { IfNone result (IsNoCommand (command.now ∷ ticket.now ∷ folder.now ∷ turns.now ∷ [])) }
{
    if command != "restore" || !is_folder(folder) {
        return None;
    }
    let which = read_which(ticket)?;
    let turns = read_turns(turns)?;
    Some(Command::Restore {
        which,
        folder,
        turns,
    })
}

/// The snapshot that a text names, if it does: a number, or the 138 lower-case hexadecimal digits of a ticket.
fn read_which(text: &str) -> Option<Which>
    ensures some { IfSome result (λ which. IsWhich text.now which) }
    ensures none { IfNone result ((which : Which) → ¬ IsWhich text.now which) }
{
    match read_snapshot(text) {
        Some(number) => Some(Which::Number(number)),
        None => match read_ticket(text) {
            Some(ticket) => Some(Which::Of(ticket)),
            None => None,
        },
    }
}

/// The ticket whose bytes a text spells in lower-case hexadecimal digits, if it does.
fn read_ticket(text: &str) -> Option<Ticket>
    ensures some { IfSome result (λ t. IsTicketText text.now t) }
    ensures none { IfNone result ((t : Ticket) → ¬ IsTicketText text.now t) }
{
    let mut bytes = [0; 69];
    if hex::decode_to_slice(text, &mut bytes).is_err() {
        return None;
    }
    let mut digits = [0; 138];
    if hex::encode_to_slice(&bytes, &mut digits).is_err() {
        unreachable!();
    }
    if digits.as_slice() != text.as_bytes() {
        return None;
    }
    Ticket::read(&bytes)
}

/// The path that a text is, if it is one: 1 to 4,096 bytes, a `/` in front or none, and then names with
/// a `/` between each two of them.
pub fn read_path(alloc: Global, word: &str) -> Result<Option<Text>, Memory>
    ensures some { IfOk result (λ path. IfSome path (λ text. (text ≡ word.now) × (is_path word.now ≡ true))) }
    ensures none { result ≡ Ok None → is_path word.now ≡ false }
{
    if is_path(word) {
        Ok(Some(Text::copy(alloc, word)?))
    } else {
        Ok(None)
    }
}

/// Whether a text is the path of a folder: a path, or `.`.
fn is_folder(text: &str) -> bool
    ensures { result ≡ is_folder text.now }
{
    text == "." || is_path(text)
}

/// Whether a text is a path: 1 to 4,096 bytes, a `/` in front or none, and then names with a `/`
/// between each two of them.
fn is_path(text: &str) -> bool
    ensures { result ≡ is_path text.now }
{
    1 <= text.len() && text.len() <= MOST_PATH_BYTES && has_names(without_root(text))
}

/// A path without the `/` in front that it may have.
fn without_root(path: &str) -> &str
    ensures { result.now ≡ below_root path.now }
{
    match path.strip_prefix('/') {
        Some(rest) => rest,
        None => path,
    }
}

/// The number of turns, 1 to 1,000,000, that a text spells.
fn read_turns(text: &str) -> Option<u32>
    ensures some { IfSome result (λ turns. (text.now ≡ decimal turns) × (1 ≤ turns) × (turns ≤ 1000000)) }
    ensures none { IfNone result ((turns : ℕ) → 1 ≤ turns → turns ≤ 1000000 → text.now ≢ decimal turns) }
{
    let turns = read_number(text)?;
    if turns == 0 || turns > MOST_TURNS {
        return None;
    }
    Some(turns as u32)
}

/// The number of a snapshot, at most 4,294,967,295, that a text spells.
fn read_snapshot(text: &str) -> Option<u32>
    ensures some { IfSome result (λ number. (text.now ≡ decimal number) × (number ≤ 4294967295)) }
    ensures none { IfNone result ((number : ℕ) → number ≤ 4294967295 → text.now ≢ decimal number) }
{
    let number = read_number(text)?;
    if number > MOST_NUMBER {
        return None;
    }
    Some(number as u32)
}

/// The law that words are those of one command at most, and name one thing.
#[tactic(auto, using(crate::proofs::WordLemmas::command_is_fixed))]
pub fn words_fix_the_command()
    ensures { FixTheCommand }
{}
